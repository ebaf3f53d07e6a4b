//! What a refusal means: what may stand at the fault, the key that is at fault, and its place in the line.
ghost use Rattle.std.specs.Prelude.{◌≡◌, ◌≤◌, IfSome, length, option_map};
ghost use Rattle.riichi_hand.specs.Refusals.{IsRefusalOf};
ghost use Rattle.riichi_refusals.specs.Meaning as spec;

use crate::words::{
    MOST_FAULT_WORDS, byte_words, entry_words, first_word_words, line_words, notation_words,
};
use riichi_hand::{Key, LineCode, LineFault, MOST_LINE, Place, Refusal, is_other_byte};

/// What may stand at the fault, in a few words that have neither quotes nor backslashes: those that [`crate::push_refusal_lines`]
/// writes.
#[tactic(auto, unfolding(crate::specs::Meaning::refusal_words, crate::specs::Meaning::code_words))]
pub fn refusal_words(line: &[u8], refusal: &Refusal<'_>) -> &'static str
    requires { IsRefusalOf line.now refusal.now }
    ensures value { result.now ≡ spec.refusal_words line.now refusal.now.fault }
    ensures short { length result.now ≤ MOST_FAULT_WORDS }
{
    match refusal.fault {
        LineFault::Line(LineCode::H1) => foreign_words(line),
        LineFault::Line(LineCode::H2) => first_word_words(refusal.word()),
        LineFault::Line(LineCode::H4) => entry_words(refusal.job, refusal.key),
        LineFault::Line(code) => line_words(code),
        LineFault::Notation(_, fault) => notation_words(fault.code),
    }
}

/// The name of the key that is at fault, or of the first that is missing; `hand` for the hand itself. None where the fault is of no
/// key.
#[tactic(auto, unfolding(crate::specs::Meaning::key_text))]
pub fn refusal_key(refusal: &Refusal<'_>) -> Option<&'static str>
    ensures value { option_map (λ key. key.now) result
        ≡ spec.key_text refusal.now.fault refusal.now.key }
    ensures short { IfSome result (λ key. length key.now ≤ Key.MOST_NAME) }
{
    match (refusal.key, refusal.fault) {
        (Some(key), _) => Some(key.name()),
        (None, LineFault::Line(LineCode::H3 | LineCode::H8) | LineFault::Notation(_, _)) => Some(
            "hand",
        ),
        (None, LineFault::Line(_)) => None,
    }
}

/// Where the word at fault stands in the line, or the byte that is no printable ASCII; none where the fault is of no one word, or the
/// line is too long.
#[tactic(auto, unfolding(crate::specs::Meaning::refusal_place))]
pub fn refusal_place(line: &[u8], refusal: &Refusal<'_>) -> Option<Place>
    requires { IsRefusalOf line.now refusal.now }
    ensures { result ≡ spec.refusal_place line.now refusal.now.fault }
{
    match refusal.fault {
        LineFault::Line(LineCode::H1) => foreign_place(line),
        _ => refusal.place(line),
    }
}

/// What a line is told that is too long, or has a byte that is no printable ASCII.
#[tactic(auto, unfolding(crate::specs::Meaning::foreign_words))]
fn foreign_words(line: &[u8]) -> &'static str
    ensures value { result.now ≡ spec.foreign_words line.now }
    ensures short { length result.now ≤ MOST_FAULT_WORDS }
{
    if line.len() > MOST_LINE {
        line_words(LineCode::H1)
    } else {
        byte_words(line, foreign_at(line).unwrap_or(0))
    }
}

#[tactic(auto, unfolding(crate::specs::Meaning::foreign_place))]
fn foreign_place(line: &[u8]) -> Option<Place>
    ensures { result ≡ spec.foreign_place line.now }
{
    if line.len() > MOST_LINE {
        return None;
    }
    let at = foreign_at(line)?;
    Some(Place { at, length: 1 })
}

/// The place of the first byte that is no printable ASCII.
pub(crate) fn foreign_at(line: &[u8]) -> Option<usize>
    ensures { result ≡ spec.foreign_at line.now }
{
    line.iter().position(|byte| is_other_byte(*byte))
}
