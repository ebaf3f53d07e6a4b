//! What the tests share: two jobs, and what is made where one request for memory may be refused.
ghost use Rattle.std.specs.Prelude.{◌≡◌, IfOk};
ghost use Rattle.desk_run.specs.Parts.{AreNewTables, AreNewWorkers};
ghost use Rattle.desk_run.specs.Sitting.{board_name};

use desk_core::{Taken, Ticket, judge};
use desk_run::{Board, BoardFault, BoardParts, OfferBack, OfferFault, TableSeat};
use riichi_hand::{Job, Rules, read_line};
use riichi_shape::RowCache;
use std::alloc::Global;
use std::process::Abort;

fn job_of(line: &[u8]) -> Option<Job> {
    read_line(Rules::One, line).ok()?
}

fn job(rt: &impl Abort, line: &[u8]) -> Job {
    let Some(job) = job_of(line) else {
        panic!(rt; "no job")
    };
    job
}

/// The jobs of which most tests are made.
pub(crate) fn waits_a(rt: &impl Abort) -> Job {
    job(rt, b"waits 1112345678999m")
}

pub(crate) fn shape_b(rt: &impl Abort) -> Job {
    job(rt, b"shape 123456789m1134p")
}

pub(crate) fn ticket(seq: u32) -> Ticket {
    Ticket { table: 0, seq }
}

/// What a table takes: the value of this job, under this number.
pub(crate) fn given(seq: u32, job: &Job) -> Taken {
    let answer = judge(job);
    Taken::Answer { seq, answer }
}

/// A board, where one request for memory may be refused.
pub(crate) fn a_board(
    alloc: Global,
    tables: u32,
    workers: u32,
    places: u32,
) -> Result<BoardParts, BoardFault>
    ensures tables { IfOk result (λ parts. AreNewTables
        (board_name parts.board) places parts.tables.items) }
    ensures workers { IfOk result (λ parts. AreNewWorkers
        (board_name parts.board) parts.workers.items) }
    ensures stop { IfOk result (λ parts. parts.stop.board ≡ board_name parts.board) }
{
    match Board::new(alloc, tables, workers, places) {
        Err(BoardFault::Memory) => Board::new(alloc, tables, workers, places),
        made => made,
    }
}

/// Submits, where one request for memory may be refused.
pub(crate) fn submit(table: &mut TableSeat, board: &Board, job: Job) -> Result<Ticket, OfferBack>
    requires { table.old.board ≡ board_name board.now }
    ensures board { table.new.board ≡ table.old.board }
{
    match table.submit(board, job) {
        Err(back) if back.fault == OfferFault::Memory && back.job == job => {
            table.submit(board, job)
        }
        found => found,
    }
}

/// Suit rows to work with, where one request for memory may be refused.
pub(crate) fn a_cache(rt: &impl Abort, alloc: Global) -> RowCache {
    let made = match RowCache::new(alloc, 16) {
        Err(_) => RowCache::new(alloc, 16),
        made => made,
    };
    let Ok(cache) = made else {
        panic!(rt; "no cache")
    };
    cache
}
