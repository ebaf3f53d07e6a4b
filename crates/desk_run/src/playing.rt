//! All tables, played in turn by one thread.
ghost use Rattle.std.specs.Prelude.{◌≡◌, ◌≤◌, ℕ, [], IfOk, length, map, reverse, vec_capacity};
ghost use Rattle.desk_run.specs.Parts.{AreNewTables};
ghost use Rattle.desk_run.specs.Played.{values};
ghost use Rattle.desk_run.specs.Players.{AreDone, job_lists};
ghost use Rattle.desk_run.specs.Runs.{AreValues};
ghost use Rattle.desk_run.specs.Sitting.{board_name};

use crate::board::Board;
use crate::player::{Player, Turn};
use crate::table_seat::TableSeat;
use crossbeam_utils::Backoff;
use desk_core::Answer;
use riichi_hand::Job;
use std::alloc::{AllocError, Global};
use std::sync::Wait;

/// A player for each table and its list of jobs, the last one first.
fn seat_all<'b>(
    alloc: Global,
    board: &'b Board,
    mut tables: Vec<TableSeat>,
    jobs: &'b [Vec<Job>],
) -> Result<Vec<Player<'b>>, AllocError>
    requires tables { (places : ℕ) × AreNewTables (board_name board.now) places tables.items }
    requires count { length tables.items ≡ length jobs.now }
    ensures { IfOk result (λ players. reverse (job_lists players.items)
        ≡ map (λ list. list.items) jobs.now) }
{
    let mut players = Vec::with_capacity(alloc, jobs.len())?;
    for table in (0..jobs.len()).rev() {
        let Some(seat) = tables.pop() else {
            unreachable!()
        };
        let player = Player::new(alloc, board, seat, jobs[table].as_slice())?;
        players.push_reserved(player);
    }
    Ok(players)
}

/// A turn of each player, and what all of them together came to.
fn play_round(players: &mut Vec<Player>) -> Result<Turn, AllocError>
    ensures lists { job_lists players.new.items ≡ job_lists players.old.items }
    ensures finished { IfOk result (λ round. round ≡ Turn.Finished
        → AreDone (length players.new.items) players.new.items) }
{
    let mut round = Turn::Finished;
    for number in 0..players.len() {
        let turn = players[number].turn()?;
        round = round.with(turn);
    }
    Ok(round)
}

/// What the players were given, that of the last player first.
fn answers_of(mut answers: Vec<Vec<Answer>>, mut players: Vec<Player>) -> Vec<Vec<Answer>>
    requires done { AreDone (length players.items) players.items }
    requires room { (answers.items ≡ []) × (length players.items ≤ vec_capacity answers) }
    ensures { map (λ given. given.items) result.items
        ≡ reverse (map values (job_lists players.entry.items)) }
{
    for _ in 0..players.len() {
        let Some(player) = players.pop() else {
            unreachable!()
        };
        answers.push_reserved(player.into_answers());
    }
    answers
}

/// Plays each table with its list of jobs, all of them in turn, until each has its answers. Where
/// none of them moves it backs off, as a thread does that waits for others.
pub(crate) fn play_all<R: Wait>(
    rt: &R,
    alloc: Global,
    board: &Board,
    tables: Vec<TableSeat>,
    jobs: &[Vec<Job>],
) -> Result<Vec<Vec<Answer>>, AllocError>
    requires tables { (places : ℕ) × AreNewTables (board_name board.now) places tables.items }
    requires count { length tables.items ≡ length jobs.now }
    ensures { IfOk result (λ answers. AreValues jobs.now answers.items) }
{
    let answers = Vec::with_capacity(alloc, jobs.len())?;
    let mut players = seat_all(alloc, board, tables, jobs)?;
    let backoff = Backoff::new();
    for _ in rt.forever() {
        match play_round(&mut players)? {
            Turn::Moved => backoff.reset(),
            Turn::Waited => backoff.snooze(),
            Turn::Finished => return Ok(answers_of(answers, players)),
        }
    }
    unreachable!()
}
