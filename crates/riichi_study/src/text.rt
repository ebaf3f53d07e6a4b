//! The text of an answer, in pieces.
ghost use Rattle.std.specs.Prelude.{◌≡◌, ◌+◌, ◌≤◌, ◌++◌, codes};
ghost use Rattle.std.specs.List.{list_any};
ghost use Rattle.arrayvec.specs.ArrayString.{array_string_len};
ghost use Rattle.riichi_study.specs.Texts as spec;

use crate::prospect::Prospect;
use riichi_deeper::{Call, Outlook};
use riichi_shape::{
    Accepts, LiveList, MOST_ACCEPTED, MOST_DISCARD, MOST_SHAPE, ShapeAnswer, push_accepted,
    push_discard, push_shape,
};
use riichi_text::{ANSWER_ROOM, AnswerText, MOST_I8, MOST_MELD, MOST_U8, push_meld, push_number};
use riichi_tiles::{Kind, Meld};

const MOST_U16: usize = "65535".len();

const MOST_FIGURES: usize = " second ".len() + MOST_U16 + " good ".len() + MOST_U8;

/// The bytes of the longest shanten.
pub const MOST_SHANTEN: usize = "shanten ".len() + MOST_I8;

/// The bytes of what thirteen tiles accept, with their figures.
pub const MOST_HAND: usize = MOST_ACCEPTED + MOST_FIGURES;

/// The bytes of the longest discard, with its figures.
pub const MOST_PROSPECT: usize = MOST_DISCARD + MOST_FIGURES;

/// The bytes before the calls.
pub const MOST_CALLS: usize = "calls none".len();

/// The bytes of the longest call.
pub const MOST_CALL: usize = " ".len() + MOST_MELD + " ".len() + MOST_SHAPE;

/// Writes the shanten of a hand.
pub fn push_shanten(text: &mut AnswerText, shanten: i8)
    requires { array_string_len text.old + MOST_SHANTEN ≤ ANSWER_ROOM }
    ensures bytes { text.new.bytes ≡ text.old.bytes ++ spec.shanten_front shanten }
    ensures len { array_string_len text.new ≤ array_string_len text.old + MOST_SHANTEN }
{
    text.push_str("shanten ");
    push_number(text, shanten);
}

/// Writes what stands beyond the next step, where the hand isn't ready.
fn push_figures(text: &mut AnswerText, outlook: &Option<Outlook>)
    requires { array_string_len text.old + MOST_FIGURES ≤ ANSWER_ROOM }
    ensures bytes { text.new.bytes ≡ text.old.bytes ++ spec.figures_text outlook.now }
    ensures len { array_string_len text.new ≤ array_string_len text.old + MOST_FIGURES }
{
    if let Some(outlook) = outlook {
        text.push_str(" second ");
        push_number(text, outlook.second);
        text.push_str(" good ");
        push_number(text, outlook.good);
    }
}

/// Writes what thirteen tiles accept, with their figures.
pub fn push_hand(text: &mut AnswerText, accepted: &LiveList, outlook: &Option<Outlook>)
    requires { array_string_len text.old + MOST_HAND ≤ ANSWER_ROOM }
    ensures bytes { text.new.bytes ≡ text.old.bytes ++ spec.thirteen_text accepted.now outlook.now }
    ensures len { array_string_len text.new ≤ array_string_len text.old + MOST_HAND }
{
    push_accepted(text, accepted);
    push_figures(text, outlook);
}

/// Writes a discard of fourteen tiles: what the hand then accepts, and the figures of what is then left.
pub fn push_prospect(text: &mut AnswerText, prospect: &Prospect)
    requires { array_string_len text.old + MOST_PROSPECT ≤ ANSWER_ROOM }
    ensures bytes { text.new.bytes ≡ text.old.bytes ++ spec.prospect_text prospect.now }
    ensures len { array_string_len text.new ≤ array_string_len text.old + MOST_PROSPECT }
{
    push_discard(text, &prospect.discard);
    push_figures(text, &prospect.outlook);
}

/// Whether there is a call.
pub(crate) fn has_call(calls: &[Option<Call>]) -> bool
    ensures { result ≡ list_any spec.is_called calls.now }
{
    calls.iter().any(|call| call.is_some())
}

/// Writes what stands before the calls: that there is none, where there is none.
pub fn push_calls(text: &mut AnswerText, calls: &[Option<Call>])
    requires { array_string_len text.old + MOST_CALLS ≤ ANSWER_ROOM }
    ensures bytes { text.new.bytes
        ≡ text.old.bytes ++ (codes "calls" ++ spec.none_text calls.now) }
    ensures len { array_string_len text.new ≤ array_string_len text.old + MOST_CALLS }
{
    text.push_str("calls");
    if !has_call(calls) {
        text.push_str(" none");
    }
}

/// Writes a call that brings a hand of this shanten nearer, where there is one: how far it then is, and its best discards.
pub fn push_call(text: &mut AnswerText, shanten: i8, call: &Option<Call>)
    requires room { array_string_len text.old + MOST_CALL ≤ ANSWER_ROOM }
    requires shanten { spec.IsShanten shanten }
    ensures { text.new.bytes ≡ text.old.bytes ++ spec.call_text shanten call.now }
{
    if let Some(call) = call {
        text.push_str(" ");
        push_meld(text, &call.meld);
        text.push_str(" ");
        let answer = ShapeAnswer {
            shanten: shanten - 1,
            accepts: Accepts::Fourteen(call.discards),
        };
        push_shape(text, &answer);
    }
}

/// Writes a kong, where there is one: how far the hand then is, and what it accepts before it draws.
pub fn push_kong(text: &mut AnswerText, tile: Kind, answer: &Option<ShapeAnswer>)
    requires { array_string_len text.old + MOST_CALL ≤ ANSWER_ROOM }
    ensures { text.new.bytes ≡ text.old.bytes ++ spec.kong_text tile answer.now }
{
    if let Some(answer) = answer {
        text.push_str(" ");
        push_meld(text, &Meld::Kan(tile));
        text.push_str(" ");
        push_shape(text, answer);
    }
}
