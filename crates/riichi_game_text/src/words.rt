//! The words of a line, one after another.
ghost use Rattle.std.specs.Prelude.{◌≡◌, ◌<◌, ◌∷◌, [], length, MatchOption};
ghost use Rattle.riichi_game_text.specs.Words as spec;

use riichi_hand::next_word;
use riichi_tiles::split_at_mark;

/// The first word of a text, and all that comes after it; none where there is no word before a note.
pub fn next_said(text: &[u8]) -> Option<(&[u8], &[u8])>
    ensures { MatchOption result (spec.said_in text.now ≡ [])
        (λ found. (spec.said_in text.now ≡ found.0.now ∷ spec.said_in found.1.now)
        × (length found.1.now < length text.now)) }
{
    let (word, rest) = next_word(text)?;
    if begins_note(word) {
        None
    } else {
        Some((word, rest))
    }
}

pub(crate) fn begins_note(word: &[u8]) -> bool
    ensures { result ≡ spec.begins_note word.now }
{
    match word {
        [] => false,
        [first, ..] => *first == b'#',
    }
}

pub(crate) fn has_equals(word: &[u8]) -> bool
    ensures { result ≡ spec.has_equals word.now }
{
    split_at_mark(word, b'=').is_some()
}

/// The first word with `=`, and all that comes after it.
pub(crate) fn next_rule_word(text: &[u8]) -> Option<(&[u8], &[u8])>
    ensures { MatchOption result (spec.rule_words (spec.said_in text.now) ≡ [])
        (λ found. (spec.rule_words (spec.said_in text.now)
        ≡ found.0.now ∷ spec.rule_words (spec.said_in found.1.now))
        × (length found.1.now < length text.now)) }
{
    let mut rest = text;
    while let Some((word, after)) = next_said(rest) {
        if has_equals(word) {
            return Some((word, after));
        }
        rest = after;
    }
    None
}

/// A text from its first word with `=` on.
pub(crate) fn from_rule_word(text: &[u8]) -> &[u8]
    ensures { spec.rule_words (spec.said_in result.now) ≡ spec.rule_words (spec.said_in text.now) }
{
    let mut rest = text;
    while let Some((word, after)) = next_said(rest) {
        if has_equals(word) {
            return rest;
        }
        rest = after;
    }
    rest
}

/// The first word without `=`, and all that comes after it.
pub(crate) fn next_name_word(text: &[u8]) -> Option<(&[u8], &[u8])>
    ensures { MatchOption result (spec.name_words (spec.said_in text.now) ≡ [])
        (λ found. (spec.name_words (spec.said_in text.now)
        ≡ found.0.now ∷ spec.name_words (spec.said_in found.1.now))
        × (length found.1.now < length text.now)) }
{
    let mut rest = text;
    while let Some((word, after)) = next_said(rest) {
        if !has_equals(word) {
            return Some((word, after));
        }
        rest = after;
    }
    None
}
