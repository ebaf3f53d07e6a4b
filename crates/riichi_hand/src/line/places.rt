//! The word and the key of a line at which a fault stands. A place is the text of the line from there on.
ghost use Rattle.std.specs.Prelude.{◌≡◌, ◌≤◌, length, option_map, count_by, drop};
ghost use Rattle.riichi_tiles.specs.Notation.{is_digit};
ghost use Rattle.riichi_hand.specs.Entries.{first_item};
ghost use Rattle.riichi_hand.specs.Parts.{parts_of};
ghost use Rattle.riichi_hand.specs.Words.{words_of, from_words};
ghost use Rattle.riichi_hand.specs.Places as spec;
ghost use Rattle.riichi_hand.specs.Places.{entry_from};
ghost use Rattle.riichi_hand.specs.Refusals.{key_at, missing_key};
ghost use Rattle.riichi_hand.specs.declared.fault.LineFault.TheVariants.{Line};

use super::cuts::{cut_word, next_word, without_spaces, word_of};
use super::key::Key;
use crate::fault::{LineCode, LineFault, TextName};
use riichi_tiles::is_digit;

/// From the word on at which the fault of a line stands, where it is one word. That of an entry is known.
pub(crate) fn fault_from<'a>(
    fault: &LineFault,
    line: &'a [u8],
    entry: Option<&'a [u8]>,
) -> Option<&'a [u8]>
    requires { let job = (parts_of (words_of line.now)).job in
        option_map (λ from. from.now) entry ≡ entry_from job fault.now (drop 2 (from_words line.now)) }
    ensures { option_map (λ from. from.now) result ≡ spec.fault_from fault.now line.now }
{
    match fault {
        LineFault::Line(code) => code_from(*code, line, entry),
        LineFault::Notation(name, _) => text_from(*name, line),
    }
}

/// The key at which the fault of a line stands, whose word begins here.
#[tactic(auto, unfolding(crate::specs::Refusals::key_at))]
pub(crate) fn key_at(fault: &LineFault, line: &[u8], from: Option<&[u8]>) -> Option<Key>
    requires { option_map (λ from. from.now) from ≡ spec.fault_from fault.now line.now }
    ensures { result ≡ key_at fault.now line.now }
{
    match fault {
        LineFault::Line(LineCode::H6) => missing_key(line),
        LineFault::Line(_) => Key::of_word(word_of(from?)),
        LineFault::Notation(name, _) => name.key(),
    }
}

/// The first key that a win must have and that no word gives.
#[tactic(auto, unfolding(crate::specs::Refusals::missing_key))]
fn missing_key(line: &[u8]) -> Option<Key>
    ensures { result ≡ missing_key line.now }
{
    if from_key(Key::On, 0, line).is_none() {
        Some(Key::On)
    } else if from_key(Key::By, 0, line).is_none() {
        Some(Key::By)
    } else if from_key(Key::Seat, 0, line).is_none() {
        Some(Key::Seat)
    } else if from_key(Key::Round, 0, line).is_none() {
        Some(Key::Round)
    } else {
        None
    }
}

#[tactic(auto, unfolding(crate::specs::Places::code_from))]
fn code_from<'a>(code: LineCode, line: &'a [u8], entry: Option<&'a [u8]>) -> Option<&'a [u8]>
    requires { let job = (parts_of (words_of line.now)).job in
        option_map (λ from. from.now) entry ≡ entry_from job (Line code) (drop 2 (from_words line.now)) }
    ensures { option_map (λ from. from.now) result ≡ spec.code_from code line.now }
{
    match code {
        LineCode::H1 | LineCode::H6 | LineCode::H9 | LineCode::H16 => None,
        LineCode::H2 => first_from(line),
        LineCode::H3 => hand_from(line),
        LineCode::H4 | LineCode::H5 => entry,
        LineCode::H7 => from_key(Key::Open, 0, line),
        LineCode::H8 => wrong_number(line),
        LineCode::H10 => from_key(Key::Riichi, 0, line),
        LineCode::H11 => or_other(from_key(Key::Ura, 0, line), from_key(Key::Flags, 0, line)),
        LineCode::H12 | LineCode::H13 | LineCode::H14 | LineCode::H15 => from_key(
            Key::Flags,
            0,
            line,
        ),
    }
}

/// From the word on with a text of tiles.
#[tactic(auto, unfolding(crate::specs::Places::text_from))]
fn text_from<'a>(name: TextName, line: &'a [u8]) -> Option<&'a [u8]>
    ensures { option_map (λ from. from.now) result ≡ spec.text_from name line.now }
{
    match name.key() {
        None => hand_from(line),
        Some(key) => from_key(key, 0, line),
    }
}

/// From the first word on.
fn first_from<'a>(line: &'a [u8]) -> Option<&'a [u8]>
    ensures { option_map (λ from. from.now) result ≡ first_item (from_words line.now) }
{
    let from = without_spaces(line);
    if from.is_empty() { None } else { Some(from) }
}

/// From the second word on.
fn hand_from<'a>(line: &'a [u8]) -> Option<&'a [u8]>
    ensures { option_map (λ from. from.now) result ≡ first_item (drop 1 (from_words line.now)) }
{
    let (_, rest) = next_word(line)?;
    first_from(rest)
}

/// From the first word of a key on that has at least so many digits.
pub fn from_key<'a>(key: Key, least: usize, line: &'a [u8]) -> Option<&'a [u8]>
    ensures { option_map (λ from. from.now) result ≡ spec.from_key key least line.now }
{
    let mut from = without_spaces(line);
    while !from.is_empty() {
        let (word, after) = cut_word(from);
        if has_digits(key, least, word) {
            return Some(from);
        }
        from = without_spaces(after);
    }
    None
}

fn has_digits(key: Key, least: usize, word: &[u8]) -> bool
    ensures { result ≡ spec.has_digits key least word.now }
{
    match Key::of_word(word) {
        Some(other) => key == other && least <= digits_in(word),
        None => false,
    }
}

/// How many digits a word has: each is a tile where it spells tiles.
fn digits_in(word: &[u8]) -> usize
    ensures { result ≡ count_by is_digit word.now }
{
    word.iter().filter(|byte| is_digit(**byte)).count()
}

/// Of `on`, `dora`, `ura` and the hand the first with a wrong number of tiles.
#[tactic(auto, unfolding(crate::specs::Places::wrong_number))]
fn wrong_number<'a>(line: &'a [u8]) -> Option<&'a [u8]>
    ensures { option_map (λ from. from.now) result ≡ spec.wrong_number line.now }
{
    let on = from_key(Key::On, 2, line);
    let dora = from_key(Key::Dora, 6, line);
    let ura = from_key(Key::Ura, 6, line);
    or_other(on, or_other(dora, or_other(ura, hand_from(line))))
}

/// The first of two, where it is there.
fn or_other<'a>(first: Option<&'a [u8]>, other: Option<&'a [u8]>) -> Option<&'a [u8]>
    ensures { option_map (λ from. from.now) result
        ≡ spec.or_other (option_map (λ from. from.now) first.entry) (option_map (λ from. from.now) other.entry) }
{
    match first {
        Some(from) => Some(from),
        None => other,
    }
}
