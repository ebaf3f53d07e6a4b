//! A table that plays a list of jobs.
ghost use Rattle.std.specs.Prelude.{◌≡◌, ◌<◌, ◌≤◌, ◌∷◌, ◌++◌, [], ℕ, true, IfOk, OnErr, List, length, vec_capacity};
ghost use Rattle.desk_core.specs.LaneState.{new_lane};
ghost use Rattle.desk_core.specs.declared.answer.Answer.{Answer};
ghost use Rattle.desk_run.specs.Played.{IsPlayed, values};
ghost use Rattle.desk_run.specs.Sitting.{board_name, same_board};

use crate::board::Board;
use crate::table_seat::TableSeat;
use desk_core::{Answer, Taken};
use riichi_hand::Job;
use riichi_score::WinAnswer;
use riichi_shape::{Accepts, ShapeAnswer};
use std::alloc::{AllocError, Global};

/// What a turn came to.
#[derive(Clone, Copy, Drop, PartialEq, Eq)]
pub(crate) enum Turn {
    /// Some job was submitted, or some piece fetched.
    Moved,
    /// All that is left is with the workers.
    Waited,
    /// All answers were given.
    Finished,
}

impl Turn {
    /// What two turns come to together.
    pub(crate) fn with(self, other: Turn) -> Turn
        ensures { result ≡ Turn.Finished → (self ≡ Turn.Finished) × (other ≡ Turn.Finished) }
    {
        match (self, other) {
            (Turn::Finished, Turn::Finished) => Turn::Finished,
            (Turn::Moved, _) | (_, Turn::Moved) => Turn::Moved,
            _ => Turn::Waited,
        }
    }
}

/// A table with its list of jobs, how many of them it has submitted, and the answers that it was
/// given.
#[derive(Drop)]
pub(crate) struct Player<'b> {
    board: &'b Board,
    seat: TableSeat,
    jobs: &'b [Job],
    next: usize,
    answers: Vec<Answer>,
    ghost here: { seat.board ≡ board_name board.now },
    ghost room: { length jobs.now ≤ vec_capacity answers },
    ghost played: { IsPlayed seat.lane jobs.now next answers.items },
}

/// Offers the next job where some place is free, and closes the table after the last one. Answers
/// how many have been submitted.
fn offer_next(
    board: &Board,
    seat: &mut TableSeat,
    jobs: &[Job],
    next: usize,
) -> Result<usize, AllocError>
    requires { seat.old.board ≡ board_name board.now }
    ensures board { seat.new.board ≡ seat.old.board }
    ensures played { IfOk result (λ n. (answers : List Answer)
        → IsPlayed seat.old.lane jobs.now next answers
        → IsPlayed seat.new.lane jobs.now n answers) }
    ensures err { OnErr result (seat.new ≡ seat.old) }
{
    if next >= jobs.len() {
        seat.close();
        return Ok(next);
    }
    if !seat.has_place() {
        return Ok(next);
    }
    match seat.submit(board, jobs[next]) {
        Ok(_) => Ok(next + 1),
        Err(_) => Err(AllocError),
    }
}

/// Adds an answer that there is room for.
fn add_answer(answers: &mut Vec<Answer>, answer: Answer)
    requires { length answers.old.items < vec_capacity answers.old }
    ensures items { answers.new.items ≡ answers.old.items ++ answer ∷ [] }
    ensures capacity { vec_capacity answers.new ≡ vec_capacity answers.old }
{
    // The checker finds the type of an answer within a `Vec` only where some value names its parts.
    let _none: Option<(WinAnswer, ShapeAnswer, Accepts)> = None;
    answers.push_reserved(answer);
}

/// Takes the next answer to the answers before it.
fn take_next(seat: &mut TableSeat, jobs: &[Job], _next: usize, answers: &mut Vec<Answer>) -> Turn
    requires played { IsPlayed seat.old.lane jobs.now _next answers.old.items }
    requires room { length jobs.now ≤ vec_capacity answers.old }
    ensures board { seat.new.board ≡ seat.old.board }
    ensures played { IsPlayed seat.new.lane jobs.now _next answers.new.items }
    ensures room { length jobs.now ≤ vec_capacity answers.new }
    ensures finished { result ≡ Turn.Finished → answers.new.items ≡ values jobs.now }
{
    match seat.take() {
        Taken::Answer { seq: _, answer } => {
            add_answer(answers, answer);
            Turn::Moved
        }
        Taken::Waiting => Turn::Waited,
        Taken::Finished => Turn::Finished,
    }
}

impl<'b> Player<'b> {
    /// A new table that has its list of jobs before it.
    pub(crate) fn new(
        alloc: Global,
        board: &'b Board,
        seat: TableSeat,
        jobs: &'b [Job],
    ) -> Result<Player<'b>, AllocError>
        requires here { seat.board ≡ board_name board.now }
        requires new { (table : ℕ) × (seat.lane ≡ new_lane table) }
        ensures { IfOk result (λ player. player.jobs.now ≡ jobs.now) }
    {
        let answers = Vec::with_capacity(alloc, jobs.len())?;
        Ok(Player {
            board,
            seat,
            jobs,
            next: 0,
            answers,
        })
    }

    /// Offers the next job, and answers whether there was one, and a place for it.
    fn offer(&mut self) -> Result<bool, AllocError>
        ensures { self.new.jobs ≡ self.old.jobs }
    {
        let next = offer_next(self.board, &mut self.seat, self.jobs, self.next)?;
        let offered = next > self.next;
        self.next = next;
        Ok(offered)
    }

    /// Offers jobs while there is a place for one more, and answers whether it offered any.
    fn offer_all(&mut self) -> Result<bool, AllocError>
        ensures { self.new.jobs ≡ self.old.jobs }
    {
        let before = self.next;
        for _ in before..=self.jobs.len() {
            if !self.offer()? {
                break;
            }
        }
        Ok(self.next > before)
    }

    /// Fetches the pieces that are done, and answers whether there was one.
    fn collect(&mut self) -> bool
        ensures { self.new.jobs ≡ self.old.jobs }
    {
        self.seat.collect(self.board) > 0
    }

    /// Takes the next answer.
    fn take(&mut self) -> Turn
        ensures jobs { self.new.jobs ≡ self.old.jobs }
        ensures finished { result ≡ Turn.Finished
            → self.new.answers.items ≡ values self.new.jobs.now }
    {
        take_next(&mut self.seat, self.jobs, self.next, &mut self.answers)
    }

    /// Takes answers until the next one has yet to come, and answers whether all were given.
    fn take_all(&mut self) -> bool
        ensures jobs { self.new.jobs ≡ self.old.jobs }
        ensures finished { result ≡ true → self.new.answers.items ≡ values self.new.jobs.now }
    {
        for _ in self.answers.len()..=self.jobs.len() {
            match self.take() {
                Turn::Moved => {}
                Turn::Waited => return false,
                Turn::Finished => return true,
            }
        }
        false
    }

    /// Offers what there is a place for, fetches what is done, and takes what has come: an answer comes with a piece that is
    /// fetched, and once all are there, the end does.
    pub(crate) fn turn(&mut self) -> Result<Turn, AllocError>
        ensures jobs { self.new.jobs ≡ self.old.jobs }
        ensures finished { IfOk result (λ turn. turn ≡ Turn.Finished
            → self.new.answers.items ≡ values self.new.jobs.now) }
    {
        let offered = self.offer_all()?;
        if self.answers.len() == self.jobs.len() {
            return Ok(Turn::Finished);
        }
        let fetched = self.collect();
        if fetched && self.take_all() {
            return Ok(Turn::Finished);
        }
        Ok(if offered || fetched {
            Turn::Moved
        } else {
            Turn::Waited
        })
    }

    /// The answers that it was given.
    pub(crate) fn into_answers(self) -> Vec<Answer>
        ensures { result.items ≡ self.entry.answers.items }
    {
        self.answers
    }
}
