//! A run from the calling thread: it plays all tables while the workers work in threads.
ghost use Rattle.std.specs.Prelude.{◌≡◌, ◌≢◌, ℕ, true, false, Err, IfOk, length};
ghost use Rattle.desk_run.specs.Parts.{AreNewTables};
ghost use Rattle.desk_run.specs.Runs.{AreValues, IsReady};
ghost use Rattle.desk_run.specs.Sitting.{board_name};

use crate::board::Board;
use crate::gate::Gate;
use crate::playing::play_all;
use crate::run_fault::RunFault;
use crate::stop_seat::StopSeat;
use crate::table_seat::TableSeat;
use crate::worker_thread::{WorkerThread, start_workers};
use desk_core::Answer;
use riichi_hand::Job;
use std::alloc::Global;
use std::sync::Wait;
use std::thread::{Scope, Threads};

/// What the calling thread has at the board: the seats of the tables, and the seat that stops the
/// workers.
#[derive(Drop)]
pub(crate) struct TablesThread<'b> {
    pub(crate) board: &'b Board,
    pub(crate) tables: Vec<TableSeat>,
    pub(crate) stop: StopSeat,
}

impl<'b> TablesThread<'b> {
    /// Starts the workers, plays all tables, and stops the workers in every case.
    pub(crate) fn run<'s, E, R, G>(
        self,
        scope: &Scope<'s, E>,
        rt: &'s R,
        alloc: Global,
        jobs: &[Vec<Job>],
        threads: Vec<WorkerThread<'s, G>>,
    ) -> Result<Vec<Vec<Answer>>, RunFault>
    where
        R: Threads + Wait + Sync + 's,
        G: Gate + Send + Drop + 's,
        requires { IsReady self (length jobs.now) }
        ensures range { result ≢ Err RunFault.Range }
        ensures values { IfOk result (λ answers. AreValues jobs.now answers.items) }
    {
        let TablesThread {
            board,
            tables,
            mut stop,
        } = self;
        let started = start_workers(scope, rt, threads);
        let answers = play_started(started, rt, alloc, board, tables, jobs);
        stop.stop(board);
        answers
    }
}

/// Plays all tables where each worker was started.
fn play_started<R: Wait>(
    started: bool,
    rt: &R,
    alloc: Global,
    board: &Board,
    tables: Vec<TableSeat>,
    jobs: &[Vec<Job>],
) -> Result<Vec<Vec<Answer>>, RunFault>
    requires tables { (places : ℕ) × AreNewTables (board_name board.now) places tables.items }
    requires count { length tables.items ≡ length jobs.now }
    ensures range { result ≢ Err RunFault.Range }
    ensures thread { result ≡ Err RunFault.Thread → started ≡ false }
    ensures memory { result ≡ Err RunFault.Memory → started ≡ true }
    ensures values { IfOk result (λ answers. AreValues jobs.now answers.items) }
{
    if !started {
        return Err(RunFault::Thread);
    }
    match play_all(rt, alloc, board, tables, jobs) {
        Ok(answers) => Ok(answers),
        Err(_) => Err(RunFault::Memory),
    }
}
