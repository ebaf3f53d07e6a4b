//! The text of a shape's answer.
ghost use Rattle.std.specs.Prelude.{ℕ, ◌≡◌, ◌+◌, ◌*◌, ◌<◌, ◌≤◌, ◌++◌, length, slice_index};
ghost use Rattle.std.specs.List.{flat_map};
ghost use Rattle.arrayvec.specs.ArrayString.{array_string_len};
ghost use Rattle.riichi_shape.specs.LiveCopies.{pairs_of};
ghost use Rattle.riichi_shape.specs.Text as spec;

use crate::accepts::Accepts;
use crate::discard::Discard;
use crate::discard_list::DiscardList;
use crate::live_list::LiveList;
use crate::shape_answer::ShapeAnswer;
use riichi_text::{ANSWER_ROOM, AnswerText, MOST_I8, MOST_U32, push_kind, push_number};
use riichi_tiles::KindSet;

/// Each kind as it stands before its live copies, in four bytes.
const KINDS: &str =
    " 1m: 2m: 3m: 4m: 5m: 6m: 7m: 8m: 9m: 1p: 2p: 3p: 4p: 5p: 6p: 7p: 8p: 9p: 1s: 2s: 3s: 4s: 5s: 6s: 7s: 8s: 9s: 1z: 2z: 3z: 4z: 5z: 6z: 7z:";

/// A number of live copies is one of these digits.
const DIGITS: &str = "01234";

/// The bytes of a kind with its live copies.
const MOST_PAIR: usize = " 1m:4".len();

const MOST_PAIRS: usize = 34 * MOST_PAIR;

/// The bytes of the longest list of accepted kinds.
pub const MOST_ACCEPTED: usize = " accepts".len() + MOST_PAIRS + " live ".len() + MOST_U32;

/// The bytes of the longest discard, with what the hand then accepts.
pub const MOST_DISCARD: usize = " discard 1m".len() + MOST_ACCEPTED;

/// Fourteen discards are longer than what one hand accepts.
const MOST_ACCEPTS: usize = 14 * MOST_DISCARD;

/// The bytes of the longest answer.
pub const MOST_SHAPE: usize = "shanten ".len() + MOST_I8 + MOST_ACCEPTS;

/// Writes a kind with its live copies.
#[inline(always)]
fn push_pair(text: &mut AnswerText, kind: usize, live: u8)
    requires room { array_string_len text.old + MOST_PAIR ≤ ANSWER_ROOM }
    requires kind { kind < 34 }
    requires live { live ≤ 4 }
    ensures bytes { text.new.bytes ≡ text.old.bytes ++ spec.pair_text (kind, live) }
    ensures len { array_string_len text.new ≡ array_string_len text.old + MOST_PAIR }
{
    text.push_str(&KINDS[4 * kind..4 * kind + 4]);
    text.push_str(&DIGITS[live as usize..live as usize + 1]);
}

/// Writes each kind that has live copies.
fn push_pairs(text: &mut AnswerText, copies: &[u8; 34])
    requires room { array_string_len text.old + MOST_PAIRS ≤ ANSWER_ROOM }
    requires few { (k : ℕ) → slice_index copies.now k ≤ 4 }
    ensures bytes { text.new.bytes
        ≡ text.old.bytes ++ flat_map spec.pair_text (pairs_of copies.now) }
    ensures len { array_string_len text.new ≤ array_string_len text.old + MOST_PAIRS }
{
    let live = KindSet::of(copies);
    let mut kind = live.first_from(0);
    while kind < 34 {
        push_pair(text, kind, copies[kind]);
        kind = live.first_from(kind + 1);
    }
}

/// Writes the kinds of a list, or a dash, and how many tiles are live in all.
#[tactic(auto, unfolding(crate::specs::Text::list_text))]
pub fn push_accepted(text: &mut AnswerText, list: &LiveList)
    requires { array_string_len text.old + MOST_ACCEPTED ≤ ANSWER_ROOM }
    ensures bytes { text.new.bytes ≡ text.old.bytes ++ spec.list_text list.now }
    ensures len { array_string_len text.new ≤ array_string_len text.old + MOST_ACCEPTED }
{
    let live = list.live();
    text.push_str(" accepts");
    if live == 0 {
        text.push_str(" -");
    } else {
        push_pairs(text, list.copies());
    }
    text.push_str(" live ");
    push_number(text, live);
}

/// Writes a discard, and what the hand then accepts.
#[tactic(auto, unfolding(crate::specs::Text::discard_text))]
pub fn push_discard(text: &mut AnswerText, discard: &Discard)
    requires { array_string_len text.old + MOST_DISCARD ≤ ANSWER_ROOM }
    ensures bytes { text.new.bytes ≡ text.old.bytes ++ spec.discard_text discard.now }
    ensures len { array_string_len text.new ≤ array_string_len text.old + MOST_DISCARD }
{
    text.push_str(" discard ");
    push_kind(text, discard.kind);
    push_accepted(text, &discard.accepted);
}

#[tactic(auto, using(riichi_text::proofs::Pieces::flat_map_get, riichi_text::proofs::Pieces::some_there))]
fn push_discards(text: &mut AnswerText, discards: &DiscardList)
    requires { array_string_len text.old + MOST_ACCEPTS ≤ ANSWER_ROOM }
    ensures { text.new.bytes ≡ text.old.bytes ++ flat_map spec.discard_text discards.now }
{
    for place in 0..discards.len() {
        if let Some(discard) = discards.get(place) {
            push_discard(text, &discard);
        }
    }
}

#[tactic(auto, unfolding(crate::specs::Text::accepts_text))]
fn push_accepts(text: &mut AnswerText, accepts: &Accepts)
    requires { array_string_len text.old + MOST_ACCEPTS ≤ ANSWER_ROOM }
    ensures { text.new.bytes ≡ text.old.bytes ++ spec.accepts_text accepts.now }
{
    match accepts {
        Accepts::Thirteen(accepted) => push_accepted(text, accepted),
        Accepts::Fourteen(discards) => push_discards(text, discards),
    }
}

/// The answer on one line, without the line's end.
pub fn shape_text(answer: &ShapeAnswer) -> AnswerText
    ensures { result.bytes ≡ spec.shape_text answer.now }
{
    let mut text = AnswerText::new();
    push_shape(&mut text, answer);
    text
}

/// Writes the answer behind a text, without the line's end. A text that is kept need not be made anew
/// for each answer.
#[tactic(auto, unfolding(crate::specs::Text::shape_text))]
pub fn push_shape(text: &mut AnswerText, answer: &ShapeAnswer)
    requires { array_string_len text.old + MOST_SHAPE ≤ ANSWER_ROOM }
    ensures { text.new.bytes ≡ text.old.bytes ++ spec.shape_text answer.now }
{
    text.push_str("shanten ");
    push_number(text, answer.shanten);
    push_accepts(text, &answer.accepts);
}
