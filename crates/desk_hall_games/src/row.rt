//! What a message comes to, as numbers.
ghost use Rattle.std.specs.Prelude.{◌≡◌, ◌+◌, ◌<◌};
ghost use Rattle.desk_hall_games.specs.Rows as spec;

use crate::position::GamePosition;
use desk_hall::{Decision, Judged};

/// What a message comes to, as numbers: 24 bytes.
#[repr(C)]
#[derive(Clone, Copy, Debug, PartialEq, Eq)]
pub struct JudgedRow {
    /// The number that the book gave to the next deal before the message; 0 where the text is no book's.
    pub next: u64,
    /// Where the deal of the number begins in the book's text, or would.
    pub place: u64,
    /// What it came to: 1 taken, 2 again, 3 another, 4 early, 5 refused, 6 gone, 7 withdrawn, 8 gone already, 9 not the last, 10 no
    /// deal; 0 where the text is no book's.
    pub verdict: u32,
    /// 0.
    pub nothing: u32,
}

impl JudgedRow {
    /// Of a text that is no book's.
    pub fn of_nothing() -> JudgedRow
        ensures { result ≡ spec.row_of_nothing }
    {
        JudgedRow {
            next: 0,
            place: 0,
            verdict: 0,
            nothing: 0,
        }
    }

    /// Of a message to a book whose deals begin at a place of its text.
    pub fn of(judged: &Judged<GamePosition>, deals_at: usize) -> JudgedRow
        requires { deals_at + judged.now.place < 18446744073709551616 }
        ensures { result ≡ spec.judged_row judged.now deals_at }
    {
        JudgedRow {
            next: judged.next,
            place: deals_at as u64 + judged.place as u64,
            verdict: verdict_of(&judged.decision),
            nothing: 0,
        }
    }
}

fn verdict_of(decision: &Decision<GamePosition>) -> u32
    ensures { result ≡ spec.verdict_of decision.now }
{
    match decision {
        Decision::Taken(_) => 1,
        Decision::Again(_) => 2,
        Decision::Another { .. } => 3,
        Decision::Early => 4,
        Decision::Refused => 5,
        Decision::Gone => 6,
        Decision::Withdrawn => 7,
        Decision::GoneAlready => 8,
        Decision::NotLast => 9,
        Decision::NoDeal => 10,
    }
}
