//! The note on a wrong number of tiles.
ghost use Rattle.std.specs.Prelude.{◌≡◌, ◌≤◌, ◌+◌, ◌++◌, [], None, IfNone, IfSome, length, option_map, unwrap_or};
ghost use Rattle.riichi_hand.specs.Words.{word_of};
ghost use Rattle.riichi_hints.specs.Numbers as spec;
ghost use Rattle.riichi_hints.specs.Numbers.{IsNumberNote};

use crate::mending::wanted_beside;
use crate::text::{PART, Part, add_all, add_count, add_number};
use crate::tiles::{Tile, copies_in, last_tile, tile_count};
use riichi_hand::{JobName, Key, Refusal, from_key, word_of};

/// How many tiles the word at fault has, and how many are wanted.
pub(crate) fn number_note(line: &[u8], refusal: &Refusal<'_>) -> Option<Part>
    ensures note { let word = option_map word_of (option_map (λ from. from.now) refusal.now.from) in
        IfSome result
        (λ note. IsNumberNote refusal.now.key refusal.now.job line.now (unwrap_or word []) note.items) }
    ensures none { IfNone result (option_map (λ from. from.now) refusal.now.from ≡ None) }
{
    let word = refusal.word()?;
    let mut note = Part::new();
    add_all(&mut note, subject_of(refusal.key));
    add_count(&mut note, " has ", tile_count(word), "tile");
    add_wanted(&mut note, line, refusal, word);
    Some(note)
}

/// A word without a key is the hand.
fn subject_of(key: Option<Key>) -> &'static [u8]
    ensures { result.now ≡ spec.subject key }
{
    match key {
        Some(key) => key.name().as_bytes(),
        None => b"hand",
    }
}

/// How many tiles are wanted of the word.
fn add_wanted(note: &mut Part, line: &[u8], refusal: &Refusal<'_>, word: &[u8])
    ensures { let text = spec.wanted_text refusal.now.key refusal.now.job line.now word.now in
        length note.old.items + length text ≤ PART → note.new.items ≡ note.old.items ++ text }
{
    match refusal.key {
        Some(key) => add_all(note, wanted_of(key)),
        None => add_hand_words(note, line, refusal.job, word),
    }
}

/// How many tiles a key wants.
fn wanted_of(key: Key) -> &'static [u8]
    ensures { result.now ≡ spec.wanted_of key }
{
    match key {
        Key::On => b": 1 wanted",
        _ => b": at most 5 wanted",
    }
}

/// The melds, and how many tiles are wanted beside them.
fn add_hand_words(note: &mut Part, line: &[u8], job: Option<JobName>, hand: &[u8])
    ensures { let text = spec.wanted_in_hand_text job line.now hand.now in
        length note.old.items + length text ≤ PART → note.new.items ≡ note.old.items ++ text }
{
    add_count(note, " and ", meld_count(line), "meld");
    add_all(note, b": ");
    add_number(note, wanted_in_hand(line));
    add_job_words(note, job, line, hand);
}

/// What follows the number of tiles that is wanted.
fn add_job_words(note: &mut Part, job: Option<JobName>, line: &[u8], hand: &[u8])
    ensures { let text = spec.job_text job line.now hand.now in
        length note.old.items + length text ≤ PART → note.new.items ≡ note.old.items ++ text }
{
    match job {
        Some(JobName::Shape) => {
            add_all(note, b" or ");
            add_number(note, wanted_in_hand(line) + 1);
            add_all(note, b" wanted");
        }
        Some(JobName::Win) => add_win_words(note, line, hand),
        _ => add_all(note, b" wanted"),
    }
}

/// The winning tile, which stands beside the hand and may have been counted in it.
fn add_win_words(note: &mut Part, line: &[u8], hand: &[u8])
    ensures { let text = spec.wanted_by_win_text line.now hand.now in
        length note.old.items + length text ≤ PART → note.new.items ≡ note.old.items ++ text }
{
    add_all(note, b" wanted beside the winning tile of on=");
    add_all(note, doubt_words(line, hand));
}

fn doubt_words(line: &[u8], hand: &[u8]) -> &'static [u8]
    ensures { result.now ≡ spec.doubt_text line.now hand.now }
{
    if may_have_counted(line, hand) {
        b"; it may have been counted in the hand too"
    } else {
        b""
    }
}

/// Whether a hand has one tile more than is wanted, and the winning tile is among them.
fn may_have_counted(line: &[u8], hand: &[u8]) -> bool
    ensures { result ≡ spec.may_have_counted line.now hand.now }
{
    match winning_tile(line) {
        Some(tile) => tile_count(hand) == wanted_in_hand(line) + 1 && copies_in(hand, tile) > 0,
        None => false,
    }
}

/// The tile of `on=`.
fn winning_tile(line: &[u8]) -> Option<Tile>
    ensures { result ≡ spec.winning_tile line.now }
{
    last_tile(word_of(from_key(Key::On, 0, line)?))
}

/// How many tiles are wanted in the hand of a line.
fn wanted_in_hand(line: &[u8]) -> usize
    ensures value { result ≡ spec.wanted_in_hand line.now }
    ensures most { result ≤ 13 }
{
    wanted_beside(meld_count(line))
}

/// How many melds a line spells.
fn meld_count(line: &[u8]) -> usize
    ensures { result ≡ spec.melds_on_line line.now }
{
    match from_key(Key::Open, 0, line) {
        Some(from) => word_of(from).iter().filter(|byte| **byte == b':').count(),
        None => 0,
    }
}
