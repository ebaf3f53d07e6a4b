//! One round: a text whose lines are answered by many threads.
ghost use Rattle.std.specs.Prelude.{◌≡◌, ◌+◌, ◌<◌, ◌^◌, length, IfNone, IfSome};
ghost use Rattle.std.specs.List.{All};
ghost use Rattle.desk_crew.specs.Pieces.{AreCounted, HaveAnswers, IsWithout, edge, lines_between};
ghost use denote.Param.Send.{IsSync};

use crate::share::Share;
use desk_lines::{Responder, Tally};
use riichi_hand::Rules;
use std::sync::atomic::AtomicUsize;
use std::thread;
use std::thread::Threads;

/// A shorter text is not worth a thread.
const LEAST: usize = 16_384;

/// Has the pieces of a text answered by as many threads as there are shares, where each piece has so many bytes: each thread takes
/// the next one that none has taken. The calling thread does something else before it takes pieces, and gives what that gave.
pub(crate) fn answer_beside<A: Responder + Send + Sync, H: Threads + Sync, G: FnMut() -> B, B>(
    rt: &H,
    rules: Rules,
    text: &[u8],
    size: usize,
    next: &AtomicUsize,
    shares: &mut [Share],
    other: &mut G,
) -> B
    requires some { 0 < length shares.old }
    requires fits { length text.now < 2 ^ 64 }
    requires other { G.pre other.old }
    ensures other { G.step other.old result other.new }
    ensures answered { All (HaveAnswers A.may_tell rules text.now size) shares.new }
    ensures shares { length shares.new ≡ length shares.old }
{
    let (first, others) = shares.split_at_mut(1);
    let first = &mut first[0];
    if others.is_empty() {
        let told = other();
        first.answer::<A>(rules, text, size, next);
        return told;
    }
    if text.len() < LEAST {
        let told = answer_beside::<A, H, G, B>(rt, rules, text, size, next, others, other);
        first.answer::<A>(rules, text, size, next);
        return told;
    }
    let mut theirs = ||
        requires { length text.now < 2 ^ 64 }
        ensures { HaveAnswers A.may_tell rules text.entry.now size first.exit.now }
    { first.answer::<A>(rules, text, size, next) };
    let mut ours = || -> B
        requires { IsSync H.row × G.pre other.now × (0 < length others.now)
            × (length text.now < 2 ^ 64) }
        ensures { G.step other.entry.now result other.exit.now
            × All (HaveAnswers A.may_tell rules text.entry.now size) others.exit.now
            × (length others.exit.now ≡ length others.entry.now) }
    { answer_beside::<A, H, G, B>(rt, rules, text, size, next, others, other) };
    let (_, told) = thread::join_mut(rt, &mut theirs, &mut ours);
    told
}

/// Gives the answers to the piece of a number away for a room, and what its lines come to, from whatever share has it; none where
/// no share had memory for it.
pub(crate) fn take_piece<A: Responder>(
    rules: Rules,
    text: &[u8],
    size: usize,
    shares: &mut [Share],
    number: usize,
    room: &mut Vec<u8>,
) -> Option<Tally>
    requires { All (HaveAnswers A.may_tell rules text.now size) shares.old }
    ensures taken { IfSome result (AreCounted A.may_tell rules
        (lines_between text.now (edge text.now size number) (edge text.now size (number + 1)))
        room.new.items) }
    ensures none { IfNone result (All (IsWithout number) shares.old) }
    ensures left { All (HaveAnswers A.may_tell rules text.now size) shares.new }
{
    for place in 0..shares.len() {
        let taken = shares[place].take::<A>(rules, text, size, number, room);
        if taken.is_some() {
            return taken;
        }
    }
    None
}
