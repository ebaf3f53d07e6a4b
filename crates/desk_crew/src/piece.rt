//! One piece of a text and its answers.
ghost use Rattle.std.specs.Prelude.{◌≡◌, ◌<◌, ◌≤◌, ◌*◌, ◌^◌, [], None, length, IfOk};
ghost use Rattle.desk_crew.specs.Pieces.{AreCounted, HasAnswers, lines_between};

use desk_lines::{Responder, SuitMemo, Tally, answer_piece, ended_bytes};
use riichi_hand::Rules;
use std::alloc::{AllocError, Global};
use std::mem::swap;

/// Into so many pieces a text is cut: more than there are threads, so that one that is held up answers fewer.
pub(crate) const PIECES: usize = 64;

/// The bytes of each piece of a text.
pub(crate) fn piece_size(text: &[u8]) -> usize
    ensures { length text.now ≤ 64 * result }
{
    text.len().div_ceil(PIECES)
}

/// The answers to the lines that end in one piece of a text, and what these lines come to, or none where there was no memory for
/// them.
#[derive(Drop)]
pub(crate) struct Piece {
    /// Which piece it is, counted from 0.
    pub(crate) number: usize,
    pub(crate) answers: Vec<u8>,
    pub(crate) tally: Option<Tally>,
}

impl Piece {
    pub(crate) fn new(alloc: Global) -> Piece {
        Piece {
            number: 0,
            answers: Vec::new(alloc),
            tally: None,
        }
    }

    /// Answers the lines of a text that end in the piece of this number, where each has so many bytes.
    pub(crate) fn answer<A: Responder>(
        &mut self,
        rules: Rules,
        text: &[u8],
        size: usize,
        number: usize,
        rows: &mut SuitMemo,
    )
        requires { length text.now < 2 ^ 64 }
        ensures { HasAnswers A.may_tell rules text.now size self.new }
    {
        let from = number.saturating_mul(size).min(text.len());
        let to = number
            .saturating_add(1)
            .saturating_mul(size)
            .min(text.len());
        self.number = number;
        self.answers.clear();
        if from == to {
            self.tally = Some(Tally::of_none());
            return;
        }
        self.tally = self.answer_between::<A>(rules, text, from, to, rows).ok();
    }

    /// Gives its answers away for a room, and what its lines come to.
    pub(crate) fn take(&mut self, room: &mut Vec<u8>) -> Option<Tally>
        ensures tally { (result ≡ self.old.tally) × (self.new.tally ≡ None) }
        ensures answers { room.new ≡ self.old.answers }
    {
        swap(&mut self.answers, room);
        self.tally.take()
    }

    /// Answers the lines of a text that end between two places.
    fn answer_between<A: Responder>(
        &mut self,
        rules: Rules,
        text: &[u8],
        from: usize,
        to: usize,
        rows: &mut SuitMemo,
    ) -> Result<Tally, AllocError>
        requires order { (from ≤ to) × (to ≤ length text.now) }
        requires fits { length text.now < 2 ^ 64 }
        requires none { self.old.answers.items ≡ [] }
        ensures answers { IfOk result (AreCounted A.may_tell rules
            (lines_between text.now from to) self.new.answers.items) }
        ensures same { self.new.number ≡ self.old.number }
    {
        let begin = ended_bytes(&text[..from]);
        answer_piece::<A, SuitMemo>(rules, &text[begin..to], rows, &mut self.answers)
    }
}
