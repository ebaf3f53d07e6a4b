//! Tables and workers, each in a thread of its own, that share a board.
ghost use Rattle.std.specs.Prelude.{◌≡◌};
ghost use Rattle.desk_run.specs.Parts.{AreNewTables, AreNewWorkers};
ghost use Rattle.desk_run.specs.Sitting.{board_name, same_board};

use crate::common::{a_cache, shape_b, waits_a};
use crate::facts::holds;
use desk_core::{Answer, Taken, judge};
use desk_run::{Board, BoardParts, NoGate, TableSeat, Worked, WorkerSeat};
use riichi_hand::Job;
use riichi_shape::RowCache;
use std::alloc::{AllocError, Global};
use std::process::Abort;
use std::sync::Wait;
use std::test::Fail;
use std::thread;
use std::thread::{Scope, Threads};

/// A table at its board, with its jobs.
#[derive(Drop)]
struct Player<'b> {
    board: &'b Board,
    seat: TableSeat,
    jobs: &'b [Job],
    ghost here: { seat.board ≡ board_name board.now } by { same_board _ _ },
}

impl<'b> Player<'b> {
    fn new(board: &'b Board, seat: TableSeat, jobs: &'b [Job]) -> Player<'b>
        requires { seat.board ≡ board_name board.now }
    {
        Player { board, seat, jobs }
    }

    /// Submits the jobs, and gathers the answers that come in order.
    fn play<R: Wait>(self, rt: &R, alloc: Global) -> Result<Vec<Answer>, AllocError> {
        let Player {
            board,
            mut seat,
            jobs,
        } = self;
        let mut answers = Vec::new(alloc);
        let mut next = 0;
        for _ in rt.forever() {
            if next >= jobs.len() {
                seat.close();
            } else if seat.submit(board, jobs[next]).is_ok() {
                next += 1;
            }
            seat.collect(board);
            match seat.take() {
                Taken::Answer { seq, answer } if seq as usize == answers.len() => answers.push(
                    answer,
                )?,
                Taken::Answer { seq: _, answer: _ } => return Ok(answers),
                Taken::Waiting => thread::yield_now(),
                Taken::Finished => return Ok(answers),
            }
        }
        unreachable!()
    }
}

/// A worker at its board, with the suit rows that it keeps.
#[derive(Drop)]
struct Helper<'b> {
    board: &'b Board,
    seat: WorkerSeat,
    cache: RowCache,
    ghost here: { seat.board ≡ board_name board.now } by { same_board _ _ },
}

impl<'b> Helper<'b> {
    fn new(board: &'b Board, seat: WorkerSeat, cache: RowCache) -> Helper<'b>
        requires { seat.board ≡ board_name board.now }
    {
        Helper { board, seat, cache }
    }

    /// Works until it knows of the stop and finds nothing ready.
    fn work<R: Wait>(self, rt: &R) {
        let Helper {
            board,
            mut seat,
            mut cache,
        } = self;
        for _ in rt.forever() {
            match seat.work_once(board, &mut NoGate, &mut cache) {
                Worked::Did(_) => {}
                Worked::Nothing => {
                    if seat.stopped(board) {
                        return;
                    }
                    thread::yield_now();
                }
            }
        }
    }
}

/// Players of two tables with these jobs, the first table first.
fn two_players<'b>(
    rt: &impl Abort,
    board: &'b Board,
    mut tables: Vec<TableSeat>,
    jobs: (&'b [Job], &'b [Job]),
) -> (Player<'b>, Player<'b>)
    requires { AreNewTables (board_name board.now) 2 tables.items }
{
    let (Some(second), Some(first)) = (tables.pop(), tables.pop()) else {
        panic!(rt; "no table")
    };
    let second = Player::new(board, second, jobs.1);
    (Player::new(board, first, jobs.0), second)
}

fn two_helpers<'b>(
    rt: &impl Abort,
    alloc: Global,
    board: &'b Board,
    mut workers: Vec<WorkerSeat>,
) -> (Helper<'b>, Helper<'b>)
    requires { AreNewWorkers (board_name board.now) workers.items }
{
    let (Some(second), Some(first)) = (workers.pop(), workers.pop()) else {
        panic!(rt; "no worker")
    };
    let second = Helper::new(board, second, a_cache(rt, alloc));
    (Helper::new(board, first, a_cache(rt, alloc)), second)
}

/// Starts a thread for each, and answers whether both were started.
fn start_both<'s, E, R: Threads + Wait + Sync + 's>(
    scope: &Scope<'s, E>,
    rt: &'s R,
    helpers: (Helper<'s>, Helper<'s>),
) -> bool {
    let (first, second) = helpers;
    scope.spawn(move || first.work(rt)).is_ok() && scope.spawn(move || second.work(rt)).is_ok()
}

/// What the two tables were given, each played in a thread of its own. The workers are stopped
/// when both have ended.
fn play_both<'s, E, R: Threads + Wait + Sync + 's>(
    scope: &Scope<'s, E>,
    rt: &'s R,
    alloc: Global,
    players: (Player<'s>, Player<'s>),
) -> Option<(Vec<Answer>, Vec<Answer>)> {
    let (first, second) = players;
    let first = scope.spawn(move || first.play(rt, alloc).ok()).ok()?;
    let second = scope.spawn(move || second.play(rt, alloc).ok()).ok()?;
    let (first, second) = (first.join(rt), second.join(rt));
    Some((first?, second?))
}

#[test]
fn two_tables_and_two_workers_in_threads(rt: HostRuntime) -> Result<(), Fail> {
    let alloc = rt.alloc();
    let (a, b) = (waits_a(&rt), shape_b(&rt));
    let Ok(parts) = Board::new(alloc, 2, 2, 2) else {
        panic!(rt; "no board")
    };
    let BoardParts {
        board,
        tables,
        workers,
        mut stop,
    } = parts;
    let board = &board;
    let jobs = (vec![in alloc; a, b, a]?, vec![in alloc; b, b, a, b]?);
    let lists = (jobs.0.as_slice(), jobs.1.as_slice());
    let players = two_players(&rt, board, tables, lists);
    let helpers = two_helpers(&rt, alloc, board, workers);
    let rt = &rt;
    let answers = thread::scope(
        thread::scope_env(),
        rt,
        move |scope| -> Option<(Vec<Answer>, Vec<Answer>)>
            requires { stop.board ≡ board_name board.now }
        {
            let started = start_both(scope, rt, helpers);
            let answers = if started {
                play_both(scope, rt, alloc, players)
            } else {
                None
            };
            stop.stop(board);
            answers
        },
    );
    let Some(answers) = answers else {
        panic!(*rt; "no answers")
    };
    let (first, second) = (judge(&a), judge(&b));
    holds(
        rt,
        answers.0.as_slice() == [first, second, first].as_slice(),
    );
    holds(
        rt,
        answers.1.as_slice() == [second, second, first, second].as_slice(),
    );
    Ok(())
}
