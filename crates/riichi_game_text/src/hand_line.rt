//! A hand in a line of a game.
ghost use Rattle.std.specs.Prelude.{◌≡◌, ◌+◌, ◌<◌, ◌≤◌, ◌∷◌, ◌++◌, [], length, None, MatchOption, option_map};
ghost use Rattle.std.specs.List.{flat_map};
ghost use Rattle.arrayvec.specs.ArrayString.{array_string_len};
ghost use Rattle.riichi_hand.specs.Lines.{outcome_of};
ghost use Rattle.riichi_game_text.specs.Words.{said_in};
ghost use Rattle.riichi_game_text.specs.HandLines as spec;
ghost use Rattle.riichi_game_text.specs.HandLines.{behind_entries};

use crate::table_words::{key_of, value_of_word};
use crate::words::{has_equals, next_said};
use arrayvec::{ArrayString, ArrayVec};
use riichi_hand::{By, Job, LineCode, LineFault, MOST_LINE, Rules, WinRecord, Wind, read_line};

/// What a game knows of a hand.
#[derive(Clone, Copy)]
pub(crate) struct Known {
    pub(crate) by: By,
    pub(crate) seat: Wind,
    pub(crate) round: Wind,
    /// Whether the winner has bet, and the hand doesn't say so.
    pub(crate) bets: bool,
}

/// The bytes of the words that a game knows.
const MOST_KNOWN: usize = " by=tsumo seat=E round=E riichi=1".len();

/// The line of a win.
type HandLine = ArrayVec<u8, MOST_LINE>;

/// The record of a hand, or its first fault. The words of the hand are those with `=` with which the text behind it begins.
#[tactic(auto, unfolding(crate::specs::HandLines::hand_said))]
pub(crate) fn read_hand(
    rules: Rules,
    known: &Known,
    hand: &[u8],
    behind: &[u8],
) -> Result<WinRecord, LineFault>
    ensures { result
        ≡ spec.hand_said rules known.now hand.now (spec.words_with_equals (said_in behind.now)) }
{
    let read = read_win(rules, known, hand, behind);
    if has_known(behind) {
        Err(known_fault(&read))
    } else {
        read
    }
}

fn known_fault(read: &Result<WinRecord, LineFault>) -> LineFault
    ensures { result ≡ spec.known_fault read.now }
{
    match read {
        Err(LineFault::Line(LineCode::H1)) => LineFault::Line(LineCode::H1),
        Err(LineFault::Line(LineCode::H3)) => LineFault::Line(LineCode::H3),
        _ => LineFault::Line(LineCode::H4),
    }
}

/// What the line of a win says.
#[tactic(auto, using(crate::proofs::LongLines::long_line))]
fn read_win(rules: Rules, known: &Known, hand: &[u8], behind: &[u8]) -> Result<WinRecord, LineFault>
    ensures { result ≡ spec.won_by (outcome_of rules
        (spec.hand_line known.now hand.now (spec.words_with_equals (said_in behind.now)))) }
{
    let mut line = HandLine::new();
    if push_hand_line(&mut line, known, hand, behind).is_none() {
        return Err(LineFault::Line(LineCode::H1));
    }
    match read_line(rules, line.as_slice()) {
        Ok(Some(job)) => win_of_job(&job),
        Ok(None) => Err(LineFault::Line(LineCode::H2)),
        Err(fault) => Err(fault),
    }
}

fn win_of_job(job: &Job) -> Result<WinRecord, LineFault>
    ensures { result ≡ spec.win_of_job job.now }
{
    match job {
        Job::Win(win) => Ok(*win),
        _ => Err(LineFault::Line(LineCode::H2)),
    }
}

/// Writes the line of a win into an empty room. None where it is longer than a line may be.
#[tactic(auto, using(crate::proofs::LongLines::longer))]
fn push_hand_line(line: &mut HandLine, known: &Known, hand: &[u8], behind: &[u8]) -> Option<()>
    requires { line.old.items ≡ [] }
    ensures { let words = spec.words_with_equals (said_in behind.now) in
        let whole = spec.hand_line known.now hand.now words in
        MatchOption result (4096 < length whole) (λ _. line.new.items ≡ whole) }
{
    push(line, b"win ")?;
    push(line, hand)?;
    push(line, known_words(known).as_str().as_bytes())?;
    push_entries(line, behind)
}

/// Writes the words with `=` that come next, each behind a space.
#[tactic(auto, using(crate::proofs::LongLines::longer))]
fn push_entries(line: &mut HandLine, text: &[u8]) -> Option<()>
    ensures { let words = spec.words_with_equals (said_in text.now) in
        let whole = line.old.items ++ flat_map spec.spaced words in
        MatchOption result (4096 < length whole) (λ _. line.new.items ≡ whole) }
{
    let mut rest = text;
    while let Some((word, after)) = next_entry(rest) {
        push_spaced(line, word)?;
        rest = after;
    }
    Some(())
}

fn push_spaced(line: &mut HandLine, word: &[u8]) -> Option<()>
    ensures { MatchOption result (4096 < length (line.old.items ++ spec.spaced word.now))
        (λ _. line.new.items ≡ line.old.items ++ spec.spaced word.now) }
{
    push(line, b" ")?;
    push(line, word)
}

fn push(line: &mut HandLine, part: &[u8]) -> Option<()>
    ensures { MatchOption result (4096 < length (line.old.items ++ part.now))
        (λ _. line.new.items ≡ line.old.items ++ part.now) }
{
    match line.try_extend_from_slice(part) {
        Ok(()) => Some(()),
        Err(_) => None,
    }
}

/// The words that a game knows of a hand.
#[tactic(auto, unfolding(crate::specs::HandLines::known_words))]
fn known_words(known: &Known) -> ArrayString<MOST_KNOWN>
    ensures { result.bytes ≡ spec.known_words known.now }
{
    let mut text = ArrayString::new();
    text.push_str(won_by_word(known.by));
    text.push_str(" seat=");
    text.push_str(wind_word(known.seat));
    text.push_str(" round=");
    text.push_str(wind_word(known.round));
    text.push_str(riichi_word(known.bets));
    text
}

fn won_by_word(by: By) -> &'static str
    ensures value { result.now ≡ spec.won_by_word by }
    ensures short { length result.now ≤ 9 }
{
    match by {
        By::Ron => " by=ron",
        By::Tsumo => " by=tsumo",
    }
}

fn wind_word(wind: Wind) -> &'static str
    ensures value { result.now ≡ spec.wind_word wind }
    ensures short { length result.now ≤ 1 }
{
    match wind {
        Wind::East => "E",
        Wind::South => "S",
        Wind::West => "W",
        Wind::North => "N",
    }
}

fn riichi_word(bets: bool) -> &'static str
    ensures value { result.now ≡ spec.riichi_word bets }
    ensures short { length result.now ≤ 9 }
{
    if bets { " riichi=1" } else { "" }
}

/// The next word, where it has `=`, and all that comes after it.
pub(crate) fn next_entry(text: &[u8]) -> Option<(&[u8], &[u8])>
    ensures behind { MatchOption result (behind_entries (said_in text.now) ≡ said_in text.now)
        (λ found. behind_entries (said_in text.now) ≡ behind_entries (said_in found.1.now)) }
    ensures words { MatchOption result (spec.words_with_equals (said_in text.now) ≡ [])
        (λ found. (spec.words_with_equals (said_in text.now)
        ≡ found.0.now ∷ spec.words_with_equals (said_in found.1.now))
        × (length found.1.now < length text.now)) }
{
    let (word, rest) = next_said(text)?;
    if has_equals(word) {
        Some((word, rest))
    } else {
        None
    }
}

/// Whether a hand has a word that the game knows.
fn has_known(text: &[u8]) -> bool
    ensures { result ≡ spec.has_known (spec.words_with_equals (said_in text.now)) }
{
    let mut rest = text;
    while let Some((word, after)) = next_entry(rest) {
        if is_known(key_of(word)) {
            return true;
        }
        rest = after;
    }
    false
}

fn is_known(key: &[u8]) -> bool
    ensures { result ≡ spec.is_known key.now }
{
    key == b"by".as_slice()
        || key == b"seat".as_slice()
        || key == b"round".as_slice()
        || key == b"counters".as_slice()
        || key == b"sticks".as_slice()
}

/// The value of the first word of a hand with a key.
pub(crate) fn entry_value<'a>(text: &'a [u8], key: &[u8]) -> Option<&'a [u8]>
    ensures { option_map (λ value. value.now) result
        ≡ spec.entry_value key.now (said_in text.now) }
{
    let mut rest = text;
    while let Some((word, after)) = next_entry(rest) {
        if key_of(word) == key {
            return Some(value_of_word(word));
        }
        rest = after;
    }
    None
}
