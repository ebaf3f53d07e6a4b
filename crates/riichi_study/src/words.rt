//! The words of a study line: those with a key of its own, and the others.
ghost use Rattle.std.specs.Prelude.{◌≡◌, ◌+◌, ◌*◌, ◌≤◌, [], ◌∷◌, ◌++◌, MatchOption, MatchResult, Ok, Err, length, option_map};
ghost use Rattle.riichi_hand.specs.Words.{words_of};
ghost use Rattle.riichi_study.specs.Words as spec;

use crate::key::StudyKey;
use crate::name::StudyName;
use arrayvec::ArrayVec;
use riichi_hand::{LineCode, LineFault, MOST_LINE, next_word};
use riichi_tiles::split_at_mark;

/// Room for a shape line of the words of a line: its job and the words behind it, a space before each.
pub(crate) const SHAPE_ROOM: usize = "shape".len() + 2 * MOST_LINE;

/// Room for a line.
pub(crate) type LineRoom = ArrayVec<u8, SHAPE_ROOM>;

/// The text behind the name of a key and `=`, where a word begins so.
#[tactic(auto, unfolding(crate::specs::Words::own_value))]
pub(crate) fn own_value(key: StudyKey, word: &[u8]) -> Option<&[u8]>
    ensures { option_map (λ value. value.now) result ≡ spec.own_value key word.now }
{
    let (name, value) = split_at_mark(word, b'=')?;
    if name == key.name().as_bytes() {
        Some(value)
    } else {
        None
    }
}

/// The first value of a key among the words of a text, and all that comes behind its word.
fn next_value(key: StudyKey, text: &[u8]) -> Option<(&[u8], &[u8])>
    ensures { let values = spec.own_values key (words_of text.now) in
        MatchOption result (values ≡ [])
        (λ found. values ≡ found.0.now ∷ spec.own_values key (words_of found.1.now)) }
{
    let mut rest = text;
    while let Some((word, after)) = next_word(rest) {
        if let Some(value) = own_value(key, word) {
            return Some((value, after));
        }
        rest = after;
    }
    None
}

/// The value of a key among the words of a text, or H5 where it stands there twice.
pub(crate) fn only_value(key: StudyKey, text: &[u8]) -> Result<Option<&[u8]>, LineFault>
    ensures { let only = spec.only_of (spec.own_values key (words_of text.now)) in MatchResult result
        (λ value. only ≡ Ok (option_map (λ text. text.now) value)) (λ fault. only ≡ Err fault) }
{
    let Some((value, after)) = next_value(key, text) else {
        return Ok(None);
    };
    if next_value(key, after).is_some() {
        return Err(LineFault::Line(LineCode::H5));
    }
    Ok(Some(value))
}

/// Writes the words of a text that are not of a study line's own, a space before each.
pub(crate) fn push_others(job: StudyName, text: &[u8], room: &mut LineRoom)
    requires { length room.old.items + 2 * length text.now ≤ SHAPE_ROOM }
    ensures { room.new.items ≡ room.old.items ++ spec.space_before_each (spec.shape_words job (words_of text.now)) }
{
    let mut rest = text;
    while let Some((word, after)) = next_word(rest) {
        if !job.is_own(word) {
            room.push(b' ');
            room.try_extend_from_slice(word).unwrap();
        }
        rest = after;
    }
}
