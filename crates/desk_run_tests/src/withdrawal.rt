//! A table that takes hands back.
ghost use Rattle.std.specs.Prelude.{◌≡◌};
ghost use Rattle.desk_run.specs.Sitting.{board_name, same_board};

use crate::common::{a_board, a_cache, given, shape_b, submit, ticket, waits_a};
use crate::facts::holds;
use desk_core::{Taken, Ticket};
use desk_run::{Board, BoardParts, NoGate, OfferBack, OfferFault, TableSeat, Worked, WorkerSeat};
use riichi_hand::Job;
use riichi_shape::RowCache;
use std::alloc::Global;
use std::process::Abort;
use std::test::Fail;

/// A board with one table and one worker.
#[derive(Drop)]
struct Small {
    board: Board,
    table: TableSeat,
    worker: WorkerSeat,
    cache: RowCache,
    ghost table_here: { table.board ≡ board_name board } by { same_board _ _ },
    ghost worker_here: { worker.board ≡ board_name board } by { same_board _ _ },
}

impl Small {
    fn of(board: Board, table: TableSeat, worker: WorkerSeat, cache: RowCache) -> Small
        requires table { table.board ≡ board_name board }
        requires worker { worker.board ≡ board_name board }
    {
        Small {
            board,
            table,
            worker,
            cache,
        }
    }

    fn submit(&mut self, job: Job) -> Result<Ticket, OfferBack> {
        submit(&mut self.table, &self.board, job)
    }

    /// Whether the hand was withdrawn; false also where a request for memory was refused.
    fn withdraw(&mut self, seq: u32) -> bool {
        self.table.withdraw(seq) == Ok(true)
    }

    fn take(&mut self) -> Taken {
        self.table.take()
    }

    fn close(&mut self) -> bool {
        self.table.close()
    }

    fn work(&mut self) -> Worked {
        self.worker
            .work_once(&self.board, &mut NoGate, &mut self.cache)
    }

    fn collect(&mut self) -> u32 {
        self.table.collect(&self.board)
    }
}

/// A board with one table, one worker and so many places.
fn make_small(rt: &impl Abort, alloc: Global, places: u32) -> Small {
    let Ok(parts) = a_board(alloc, 1, 1, places) else {
        panic!(rt; "no board")
    };
    let BoardParts {
        board,
        mut tables,
        mut workers,
        stop: _,
    } = parts;
    let (Some(table), Some(worker)) = (tables.pop(), workers.pop()) else {
        panic!(rt; "no seat")
    };
    Small::of(board, table, worker, a_cache(rt, alloc))
}

/// Whether a job was refused since all places are out.
fn finds_no_place(found: Result<Ticket, OfferBack>) -> bool {
    match found {
        Ok(_) => false,
        Err(back) => back.fault == OfferFault::NoPlace,
    }
}

/// A withdrawn hand's place stays out until its piece is fetched.
#[test]
fn a_withdrawn_hand_keeps_its_place(rt: HostRuntime) -> Result<(), Fail> {
    let (a, b) = (waits_a(&rt), shape_b(&rt));
    let mut desk = make_small(&rt, rt.alloc(), 1);
    holds(&rt, desk.submit(a) == Ok(ticket(0)));
    holds(&rt, desk.withdraw(0) || desk.withdraw(0));
    holds(&rt, finds_no_place(desk.submit(b)));
    holds(&rt, desk.work() == Worked::Did(ticket(0)));
    holds(&rt, desk.collect() == 1);
    holds(&rt, desk.take() == Taken::Waiting);
    holds(&rt, desk.submit(b) == Ok(ticket(1)));
    holds(&rt, desk.work() == Worked::Did(ticket(1)));
    holds(&rt, desk.collect() == 1);
    holds(&rt, desk.take() == given(1, &b));
    Ok(())
}

/// A hand is withdrawn before its piece is there, when the piece is done, and when it was fetched;
/// after closing; never twice, and not once its answer was given.
#[test]
fn hands_withdrawn_at_each_time(rt: HostRuntime) -> Result<(), Fail> {
    let (a, b) = (waits_a(&rt), shape_b(&rt));
    let mut desk = make_small(&rt, rt.alloc(), 4);
    holds(&rt, !desk.withdraw(0));
    for (seq, job) in [(0, a), (1, b), (2, a), (3, b)] {
        holds(&rt, desk.submit(job) == Ok(ticket(seq)));
    }
    holds(&rt, desk.withdraw(2) || desk.withdraw(2));
    holds(&rt, !desk.withdraw(2) && !desk.withdraw(4));
    for _job in 0..4 {
        holds(&rt, desk.work() != Worked::Nothing);
    }
    holds(&rt, desk.work() == Worked::Nothing);
    holds(&rt, desk.withdraw(1) || desk.withdraw(1));
    holds(&rt, desk.collect() == 4);
    holds(&rt, desk.close());
    holds(&rt, desk.take() == given(0, &a));
    holds(&rt, !desk.withdraw(0));
    holds(&rt, desk.withdraw(3) || desk.withdraw(3));
    holds(&rt, desk.take() == Taken::Finished);
    holds(&rt, desk.collect() == 0);
    Ok(())
}
