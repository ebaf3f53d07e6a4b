ghost use Rattle.std.specs.Prelude.{◌≡◌};

use crate::answer::Answer;
use crate::judging::{judge, judge_with};
use crate::ticket::Ticket;
use riichi_hand::Job;
use riichi_shape::RowSource;
use std::marker::Model;

/// A ticket with a job and its answer, which by this type is the job's value.
#[derive(Drop)]
pub struct Piece {
    ticket: Ticket,
    job: Job,
    answer: Answer,
}

impl Model for Piece {
    ghost use Rattle.std.specs.Prelude.{◌≡◌};
    ghost use Rattle.desk_core.specs.Value.{value_of};
    ghost use Rattle.desk_core.specs.Ticketed.{Ticketed};

    ghost Value = { Ticketed };

    ghost view = { λ p. record { ticket = p.ticket; job = p.job } };

    ghost invariant = { λ p. p.answer ≡ value_of p.job };
}

impl Piece {
    ghost use Rattle.desk_core.specs.Value.{value_of};

    /// A job with its value.
    pub fn answered(ticket: Ticket, job: Job, answer: Answer) -> Piece
        requires { answer ≡ value_of job }
        ensures ticket { result.ticket ≡ ticket }
        ensures job { result.job ≡ job }
    {
        Piece {
            ticket,
            job,
            answer,
        }
    }

    /// Judges the job.
    pub fn score(ticket: Ticket, job: Job) -> Piece
        ensures ticket { result.ticket ≡ ticket }
        ensures job { result.job ≡ job }
    {
        let answer = judge(&job);
        Piece::answered(ticket, job, answer)
    }

    /// Judges the job, a shape by the rows of a source.
    pub fn score_with<R: RowSource>(source: &mut R, ticket: Ticket, job: Job) -> Piece
        ensures ticket { result.ticket ≡ ticket }
        ensures job { result.job ≡ job }
        ensures stays { source.new ≡ source.old }
    {
        let answer = judge_with(source, &job);
        Piece::answered(ticket, job, answer)
    }

    pub fn ticket(&self) -> Ticket
        ensures { result ≡ self.now.ticket }
    {
        self.ticket
    }

    pub fn job(&self) -> Job
        ensures { result ≡ self.now.job }
    {
        self.job
    }

    pub fn answer(&self) -> Answer
        ensures { result ≡ value_of self.now.job }
    {
        self.answer
    }
}
