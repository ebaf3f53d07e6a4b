//! The lines of a text in memory, answered into a room.
ghost use Rattle.std.specs.Prelude.{◌≡◌, ◌+◌, ◌≤◌, ◌<◌, [], ◌++◌, true, false, length, take, drop, MatchOption};
ghost use Rattle.desk_lines.specs.Filling.{IsFirstLine, Fills};

use super::first_line::{cut_text, without_return};
use super::outbox::Outbox;
use super::responder::Responder;
use riichi_cuts::KeptCut;
use riichi_hand::Rules;
use riichi_shape::{KeptRow, KeptUpper, LentMemo};

/// So many rows of suits are kept for the next lines of a text, in the frame of the call, so many upper ranks, and so many
/// cuts of suits.
const KEPT_ROWS: usize = 1024;

const KEPT_UPPERS: usize = 16;

const KEPT_CUTS: usize = 256;

/// How many bytes of a text were answered, and how many bytes of the room the answers fill.
#[derive(Clone, Copy, Debug, PartialEq, Eq)]
pub struct Filled {
    pub taken: usize,
    pub filled: usize,
}

/// Answers the lines of a text from its start by the kind of answer `A`, as many as have room: each answer with a line feed
/// behind it, and nothing for a line that is no record. A line that would set a profile is a record like any other here.
#[tactic(auto, using(crate::proofs::AnswerLemmas::AreTold_last, crate::proofs::FillingLemmas::fill_by_facts, crate::proofs::TellingLemmas::text_of_more))]
pub fn fill_by<A: Responder>(rules: Rules, text: &[u8], room: &mut [u8]) -> Filled
    ensures { Fills A.may_tell rules
        text.now room.old room.new result.taken result.filled }
{
    let mut rows = [KeptRow::of_nothing(); KEPT_ROWS];
    let mut uppers = [KeptUpper::of_nothing(); KEPT_UPPERS];
    let mut cuts = [KeptCut::of_nothing(); KEPT_CUTS];
    let mut memo = LentMemo::new(&mut rows, &mut uppers, &mut cuts);
    let mut outbox = Outbox::new();
    let mut rest = text;
    let mut filled = 0;
    while let Some((line, after)) = next_line(rest) {
        outbox.clear();
        A::respond(rules, line, &mut outbox, &mut memo);
        let told = outbox.as_slice();
        if !put_at(room, filled, told) {
            return Filled {
                taken: text.len() - rest.len(),
                filled,
            };
        }
        filled += told.len();
        rest = after;
    }
    Filled {
        taken: text.len(),
        filled,
    }
}

/// The first line of a text, without its end, and what comes after it; none where there is no text.
#[tactic(auto, using(crate::proofs::FillingLemmas::first_ended, crate::proofs::FillingLemmas::first_last))]
pub fn next_line(text: &[u8]) -> Option<(&[u8], &[u8])>
    ensures { MatchOption result (text.now ≡ []) (λ cut. IsFirstLine text.now cut.0.now cut.1.now) }
{
    if text.is_empty() {
        return None;
    }
    match cut_text(text) {
        Some((bytes, after)) => Some((without_return(bytes), after)),
        None => Some((without_return(text), &text[text.len()..])),
    }
}

/// Puts a text behind what fills the front of a room, if it fits there: whether it did.
pub fn put_at(room: &mut [u8], filled: usize, text: &[u8]) -> bool
    ensures put { result ≡ true → (filled + length text.now ≤ length room.old)
        × (room.new ≡ (take filled room.old ++ text.now) ++ drop (filled + length text.now) room.old) }
    ensures left { result ≡ false
        → (length room.old < filled + length text.now) × (room.new ≡ room.old) }
{
    if filled > room.len() || text.len() > room.len() - filled {
        return false;
    }
    room[filled..filled + text.len()].copy_from_slice(text);
    true
}
