//! What one thread works with.
ghost use Rattle.std.specs.Prelude.{◌≡◌, ◌+◌, ◌<◌, ◌^◌, length, IfNone, IfSome};
ghost use Rattle.desk_crew.specs.Pieces.{AreCounted, HaveAnswers, IsWithout, edge, lines_between};

use crate::piece::{PIECES, Piece};
use desk_lines::{Responder, SuitMemo, Tally};
use riichi_hand::Rules;
use std::alloc::{AllocError, Global};
use std::sync::atomic::{AtomicUsize, Ordering};

/// What one thread works with: its rows of suits, which stay for the next round, and places for the pieces that it answers.
#[derive(Drop)]
pub(crate) struct Share {
    rows: SuitMemo,
    pub(crate) pieces: Vec<Piece>,
}

impl Share {
    /// With places for all pieces, since one thread may come to answer each.
    pub(crate) fn new(alloc: Global) -> Result<Share, AllocError> {
        let mut pieces = Vec::new(alloc);
        while pieces.len() < PIECES {
            pieces.push(Piece::new(alloc))?;
        }
        Ok(Share {
            rows: SuitMemo::new(alloc),
            pieces,
        })
    }

    /// Answers the pieces of a text whose numbers it is given, one after another, where each piece has so many bytes.
    pub(crate) fn answer<A: Responder>(
        &mut self,
        rules: Rules,
        text: &[u8],
        size: usize,
        next: &AtomicUsize,
    )
        requires { length text.now < 2 ^ 64 }
        ensures { HaveAnswers A.may_tell rules text.now size self.new }
    {
        for place in 0..self.pieces.len() {
            let number = next.fetch_add(1, Ordering::Relaxed);
            self.pieces[place].answer::<A>(rules, text, size, number, &mut self.rows);
        }
    }

    /// Gives the answers to the piece of a number away for a room, and what its lines come to, where that piece was answered here.
    pub(crate) fn take<A: Responder>(
        &mut self,
        rules: Rules,
        text: &[u8],
        size: usize,
        number: usize,
        room: &mut Vec<u8>,
    ) -> Option<Tally>
        requires { HaveAnswers A.may_tell rules text.now size self.old }
        ensures taken { IfSome result (AreCounted A.may_tell rules
            (lines_between text.now (edge text.now size number) (edge text.now size (number + 1)))
            room.new.items) }
        ensures none { IfNone result (IsWithout number self.old) }
        ensures left { HaveAnswers A.may_tell rules text.now size self.new }
    {
        for place in 0..self.pieces.len() {
            if self.pieces[place].number == number {
                return self.pieces[place].take(room);
            }
        }
        None
    }
}
