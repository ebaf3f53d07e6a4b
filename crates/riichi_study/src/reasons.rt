//! An answer in words, in pieces: lines below it, each behind a line feed and two spaces.
ghost use Rattle.std.specs.Prelude.{◌≡◌, ◌+◌, ◌*◌, ◌<◌, ◌≤◌, ◌++◌, length, false};
ghost use Rattle.arrayvec.specs.ArrayString.{array_string_len};
ghost use Rattle.riichi_study.specs.Reasons as spec;

use crate::prospect::Prospect;
use crate::text::has_call;
use riichi_deeper::{Call, Outlook};
use riichi_shape::{Discard, DiscardList, ShapeAnswer};
use riichi_text::{
    ANSWER_ROOM, AnswerText, MOST_MELD, MOST_U8, MOST_U32, push_kind, push_meld, push_number,
};
use riichi_tiles::{Kind, Meld};

/// The bytes of the longest words behind a number.
const MOST_WORDS: usize = " draws of two tiles, one after the other, bring it two nearer; ".len();

const MOST_COUNTED: usize = MOST_U32 + MOST_WORDS;

const MOST_GOOD: usize = MOST_U8 + " of the ".len() + MOST_U32 + MOST_WORDS;

const MOST_OUTLOOK: usize = 2 * MOST_COUNTED + MOST_GOOD;

/// The bytes of the longest line of what stands beyond a step.
pub const MOST_REASON: usize = "\n  after 1m: ".len() + MOST_OUTLOOK;

const MOST_CHOICE: usize = " or ".len() + "1m (".len() + MOST_U32 + " live)".len();

const MOST_CHOICES: usize = 14 * MOST_CHOICE;

/// The bytes of the longest line of a call.
pub const MOST_CALL_REASON: usize = "\n  ".len() + MOST_MELD + ": then throw ".len() + MOST_CHOICES;

/// The bytes of the line of a kong.
pub const MOST_KONG_REASON: usize = "\n  ".len() + MOST_MELD + ": brings the hand no nearer".len();

/// The bytes of the line of no call.
pub const MOST_NONE_REASON: usize = "\n  no call brings the hand nearer".len();

/// Writes what fits one, or any other number.
fn push_form(text: &mut AnswerText, number: u32, one: &str, many: &str)
    requires short { (length one.now ≤ MOST_WORDS) × (length many.now ≤ MOST_WORDS) }
    requires room { array_string_len text.old + MOST_WORDS ≤ ANSWER_ROOM }
    ensures bytes { text.new.bytes
        ≡ text.old.bytes ++ spec.one_or_many number one.now many.now }
    ensures len { array_string_len text.new ≤ array_string_len text.old + MOST_WORDS }
{
    if number == 1 {
        text.push_str(one);
    } else {
        text.push_str(many);
    }
}

/// Writes a number, and what fits it.
fn push_counted(text: &mut AnswerText, number: u32, one: &str, many: &str)
    requires short { (length one.now ≤ MOST_WORDS) × (length many.now ≤ MOST_WORDS) }
    requires room { array_string_len text.old + MOST_COUNTED ≤ ANSWER_ROOM }
    ensures bytes { text.new.bytes
        ≡ text.old.bytes ++ spec.number_words number one.now many.now }
    ensures len { array_string_len text.new ≤ array_string_len text.old + MOST_COUNTED }
{
    push_number(text, number);
    push_form(text, number, one, many);
}

/// Writes by how many live copies the hand comes nearer.
fn push_nearer(text: &mut AnswerText, live: u32)
    requires { array_string_len text.old + MOST_COUNTED ≤ ANSWER_ROOM }
    ensures bytes { text.new.bytes ≡ text.old.bytes ++ spec.nearer_words live }
    ensures len { array_string_len text.new ≤ array_string_len text.old + MOST_COUNTED }
{
    push_counted(
        text,
        live,
        " live tile brings the hand nearer; ",
        " live tiles bring the hand nearer; ",
    );
}

/// Writes by how many draws of two tiles it comes two nearer.
fn push_second(text: &mut AnswerText, second: u16)
    requires { array_string_len text.old + MOST_COUNTED ≤ ANSWER_ROOM }
    ensures bytes { text.new.bytes ≡ text.old.bytes ++ spec.second_words second }
    ensures len { array_string_len text.new ≤ array_string_len text.old + MOST_COUNTED }
{
    push_counted(
        text,
        second as u32,
        " draw of two tiles, one after the other, brings it two nearer; ",
        " draws of two tiles, one after the other, bring it two nearer; ",
    );
}

/// Writes how many of the live copies leave a good wait.
#[tactic(auto, using(riichi_text::proofs::Pieces::pushed_four))]
fn push_good(text: &mut AnswerText, live: u32, good: u8)
    requires { array_string_len text.old + MOST_GOOD ≤ ANSWER_ROOM }
    ensures bytes { text.new.bytes ≡ text.old.bytes ++ spec.good_words live good }
    ensures len { array_string_len text.new ≤ array_string_len text.old + MOST_GOOD }
{
    push_number(text, good);
    text.push_str(" of the ");
    push_number(text, live);
    push_form(
        text,
        good as u32,
        " leaves five live tiles or more",
        " leave five live tiles or more",
    );
}

/// Writes what stands beyond the next step of a hand with so many live copies of what it accepts.
fn push_outlook(text: &mut AnswerText, live: u32, outlook: &Option<Outlook>)
    requires { array_string_len text.old + MOST_OUTLOOK ≤ ANSWER_ROOM }
    ensures bytes { text.new.bytes ≡ text.old.bytes ++ spec.outlook_words live outlook.now }
    ensures len { array_string_len text.new ≤ array_string_len text.old + MOST_OUTLOOK }
{
    match outlook {
        None => push_counted(text, live, " live tile wins", " live tiles win"),
        Some(outlook) => {
            push_nearer(text, live);
            push_second(text, outlook.second);
            push_good(text, live, outlook.good);
        }
    }
}

/// Writes the line of a hand of thirteen tiles with so many live copies of what it accepts.
pub fn push_hand_reason(text: &mut AnswerText, live: u32, outlook: &Option<Outlook>)
    requires { array_string_len text.old + MOST_REASON ≤ ANSWER_ROOM }
    ensures bytes { text.new.bytes ≡ text.old.bytes ++ spec.hand_reason live outlook.now }
    ensures len { array_string_len text.new ≤ array_string_len text.old + MOST_REASON }
{
    text.push_str("\n  ");
    push_outlook(text, live, outlook);
}

/// Writes the line of a discard of fourteen tiles.
pub fn push_prospect_reason(text: &mut AnswerText, prospect: &Prospect)
    requires { array_string_len text.old + MOST_REASON ≤ ANSWER_ROOM }
    ensures bytes { text.new.bytes ≡ text.old.bytes ++ spec.prospect_reason prospect.now }
    ensures len { array_string_len text.new ≤ array_string_len text.old + MOST_REASON }
{
    let live = prospect.discard.accepted.live();
    text.push_str("\n  after ");
    push_kind(text, prospect.discard.kind);
    text.push_str(": ");
    push_outlook(text, live, &prospect.outlook);
}

/// Writes what stands before the choice at a place of so many.
fn push_before(text: &mut AnswerText, place: usize, count: usize)
    requires place { place < count }
    requires room { array_string_len text.old + 4 ≤ ANSWER_ROOM }
    ensures bytes { text.new.bytes ≡ text.old.bytes ++ spec.before_place place count }
    ensures len { array_string_len text.new ≤ array_string_len text.old + 4 }
{
    if place == 0 {
        return;
    }
    if place + 1 == count {
        text.push_str(" or ");
    } else {
        text.push_str(", ");
    }
}

/// Writes the choice at a place of so many, behind a comma or `or`.
fn push_choice(text: &mut AnswerText, place: usize, count: usize, discard: &Discard)
    requires place { place < count }
    requires room { array_string_len text.old + MOST_CHOICE ≤ ANSWER_ROOM }
    ensures bytes { text.new.bytes
        ≡ text.old.bytes ++ (spec.before_place place count ++ spec.choice_text discard.now) }
    ensures len { array_string_len text.new ≤ array_string_len text.old + MOST_CHOICE }
{
    push_before(text, place, count);
    push_kind(text, discard.kind);
    text.push_str(" (");
    push_number(text, discard.accepted.live());
    text.push_str(" live)");
}

/// Writes what may be thrown, with the live copies that are then left.
fn push_choices(text: &mut AnswerText, discards: &DiscardList)
    requires { array_string_len text.old + MOST_CHOICES ≤ ANSWER_ROOM }
    ensures bytes { text.new.bytes ≡ text.old.bytes ++ spec.choices_from false discards.now }
    ensures len { array_string_len text.new ≤ array_string_len text.old + MOST_CHOICES }
{
    let count = discards.len();
    for place in 0..count {
        let Some(discard) = discards.get(place) else {
            unreachable!()
        };
        push_choice(text, place, count, &discard);
    }
}

/// Writes the line of a call, where there is one.
pub fn push_call_reason(text: &mut AnswerText, call: &Option<Call>)
    requires { array_string_len text.old + MOST_CALL_REASON ≤ ANSWER_ROOM }
    ensures bytes { text.new.bytes ≡ text.old.bytes ++ spec.call_reason call.now }
    ensures len { array_string_len text.new ≤ array_string_len text.old + MOST_CALL_REASON }
{
    if let Some(call) = call {
        text.push_str("\n  ");
        push_meld(text, &call.meld);
        text.push_str(": then throw ");
        push_choices(text, &call.discards);
    }
}

/// Writes the line of a kong, where there is one.
pub fn push_kong_reason(text: &mut AnswerText, tile: Kind, answer: &Option<ShapeAnswer>)
    requires { array_string_len text.old + MOST_KONG_REASON ≤ ANSWER_ROOM }
    ensures bytes { text.new.bytes ≡ text.old.bytes ++ spec.kong_reason tile answer.now }
    ensures len { array_string_len text.new ≤ array_string_len text.old + MOST_KONG_REASON }
{
    if let Some(_) = answer {
        text.push_str("\n  ");
        push_meld(text, &Meld::Kan(tile));
        text.push_str(": brings the hand no nearer");
    }
}

/// Writes the line of no call, where there is none.
pub fn push_none_reason(text: &mut AnswerText, calls: &[Option<Call>])
    requires { array_string_len text.old + MOST_NONE_REASON ≤ ANSWER_ROOM }
    ensures bytes { text.new.bytes ≡ text.old.bytes ++ spec.none_reason calls.now }
    ensures len { array_string_len text.new ≤ array_string_len text.old + MOST_NONE_REASON }
{
    if !has_call(calls) {
        text.push_str("\n  no call brings the hand nearer");
    }
}
