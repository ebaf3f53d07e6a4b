//! Workers in threads.
ghost use Rattle.std.specs.Prelude.{◌≡◌, ◌++◌, IfOk, map, reverse, List, vec_len};
ghost use Rattle.std.specs.List.{FoldsTo};
ghost use Rattle.desk_core.specs.declared.ticket.Ticket.{Ticket};
ghost use Rattle.desk_run.specs.Parts.{AreNewWorkers};
ghost use Rattle.desk_run.specs.Sitting.{board_name, same_board};

use crate::board::Board;
use crate::gate::Gate;
use crate::worked::Worked;
use crate::worker_seat::WorkerSeat;
use crossbeam_utils::Backoff;
use riichi_shape::RowCache;
use std::alloc::{AllocError, Global};
use std::sync::Wait;
use std::thread::{Scope, Threads};

/// How many suit rows each worker keeps.
const KEPT_ROWS: usize = 512;

/// A worker at its board, with its gate and the suit rows that it keeps.
#[derive(Drop)]
pub(crate) struct WorkerThread<'b, G> {
    board: &'b Board,
    seat: WorkerSeat,
    gate: G,
    cache: RowCache,
    ghost here: { seat.board ≡ board_name board.now } by { same_board _ _ },
    ghost rows: { cache ≡ 512 },
}

/// Works until it knows of the stop and finds nothing ready.
fn work<R: Wait, G: Gate>(
    rt: &R,
    board: &Board,
    seat: &mut WorkerSeat,
    gate: &mut G,
    cache: &mut RowCache,
)
    requires { seat.old.board ≡ board_name board.now }
    ensures gate { (xs : List Ticket) × (seat.new.finished ≡ seat.old.finished ++ xs)
        × FoldsTo G.called gate.old xs gate.new }
{
    let backoff = Backoff::new();
    for _ in rt.forever() {
        match seat.work_once(board, gate, cache) {
            Worked::Did(_) => backoff.reset(),
            Worked::Nothing => {
                if seat.stopped(board) {
                    return;
                }
                backoff.snooze();
            }
        }
    }
}

impl<'b, G: Gate + Drop> WorkerThread<'b, G> {
    fn new(board: &'b Board, seat: WorkerSeat, gate: G, cache: RowCache) -> WorkerThread<'b, G>
        requires here { seat.board ≡ board_name board.now }
        requires rows { cache ≡ 512 }
        ensures { (result.seat ≡ seat) × (result.gate ≡ gate) }
    {
        WorkerThread {
            board,
            seat,
            gate,
            cache,
        }
    }

    /// A worker for each worker and its gate, the last one first.
    pub(crate) fn all(
        alloc: Global,
        board: &'b Board,
        mut workers: Vec<WorkerSeat>,
        mut gates: Vec<G>,
    ) -> Result<Vec<WorkerThread<'b, G>>, AllocError>
        requires new { AreNewWorkers (board_name board.now) workers.items }
        requires alike { vec_len workers ≡ vec_len gates }
        ensures workers { IfOk result (λ threads. reverse (map
            (λ worker. worker.seat) threads.items) ≡ workers.items) }
        ensures gates { IfOk result (λ threads. reverse (map (λ worker. worker.gate) threads.items)
            ≡ gates.items) }
    {
        let mut threads = Vec::new(alloc);
        for _worker in 0..gates.len() {
            let (Some(seat), Some(gate)) = (workers.pop(), gates.pop()) else {
                unreachable!()
            };
            let Ok(cache) = RowCache::new(alloc, KEPT_ROWS) else {
                return Err(AllocError);
            };
            threads.push(WorkerThread::new(board, seat, gate, cache))?;
        }
        Ok(threads)
    }

    fn work<R: Wait>(self, rt: &R) {
        let WorkerThread {
            board,
            mut seat,
            mut gate,
            mut cache,
        } = self;
        work(rt, board, &mut seat, &mut gate, &mut cache);
    }
}

/// Starts a thread of the scope for each worker, and answers whether each was started. After one that
/// could not be started it starts no further.
pub(crate) fn start_workers<'s, E, R, G>(
    scope: &Scope<'s, E>,
    rt: &'s R,
    threads: Vec<WorkerThread<'s, G>>,
) -> bool
where
    R: Threads + Wait + Sync + 's,
    G: Gate + Send + Drop + 's,
{
    for worker in threads {
        if scope.spawn(move || worker.work(rt)).is_err() {
            return false;
        }
    }
    true
}
