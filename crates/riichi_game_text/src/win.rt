//! What a line says that a player wins.
ghost use Rattle.std.specs.Prelude.{◌≡◌, ◌≤◌, None, Some, MatchOption, option_map, length};
ghost use Rattle.riichi_tiles.specs.Melds.{cut_at};
ghost use Rattle.riichi_game_text.specs.Words.{said_in};
ghost use Rattle.riichi_game_text.specs.HandLines.{behind_entries};
ghost use Rattle.riichi_game_text.specs.Wins as spec;

use crate::forms::part_at;
use crate::hand_line::next_entry;
use crate::numbers::read_number;
use crate::value::{WrittenValue, written_value};
use crate::words::next_said;
use riichi_tiles::split_at_mark;

/// Who is liable, and for how many limits where that is said.
#[derive(Clone, Copy)]
pub(crate) struct WrittenLiable<'a> {
    pub(crate) name: &'a [u8],
    pub(crate) limits: Option<u32>,
}

/// What a player wins, as it is written.
#[derive(Clone, Copy)]
pub(crate) struct WrittenWin<'a> {
    pub(crate) name: &'a [u8],
    pub(crate) value: WrittenValue,
    /// The first word of the value.
    pub(crate) hand: &'a [u8],
    /// What stands behind it: the words of a hand, and more.
    pub(crate) words: &'a [u8],
    pub(crate) liable: Option<WrittenLiable<'a>>,
}

/// The value of a winner and who is liable, and what stands behind them. None where no value stands there.
#[tactic(auto, unfolding(crate::specs::Wins::win_at))]
pub(crate) fn win_at<'a>(name: &'a [u8], text: &'a [u8]) -> Option<(WrittenWin<'a>, &'a [u8])>
    ensures { let at = spec.win_at name.now (said_in text.now) in
        MatchOption result (at ≡ None)
        (λ found. at ≡ Some (spec.said_win found.0, said_in found.1.now)) }
{
    let (hand, words) = next_said(text)?;
    let value = written_value(hand)?;
    let (liable, rest) = part_at(b"liable", behind_value(value, words))?;
    let liable = liable_said(liable)?;
    let win = WrittenWin {
        name,
        value,
        hand,
        words,
        liable,
    };
    Some((win, rest))
}

/// What stands behind a value whose first word stands before this text.
fn behind_value(value: WrittenValue, text: &[u8]) -> &[u8]
    ensures { said_in result.now ≡ spec.behind_value value (said_in text.now) }
{
    match value {
        WrittenValue::Hand => behind_entries(text),
        _ => text,
    }
}

/// What stands behind the words with `=` that come next.
fn behind_entries(text: &[u8]) -> &[u8]
    ensures { said_in result.now ≡ behind_entries (said_in text.now) }
{
    let mut rest = text;
    while let Some((_, after)) = next_entry(rest) {
        rest = after;
    }
    rest
}

/// Who is liable by a word, where it is there. None where its number can't be.
#[tactic(auto, unfolding(crate::specs::Wins::liable_said))]
fn liable_said(word: Option<&[u8]>) -> Option<Option<WrittenLiable<'_>>>
    ensures { let said = spec.liable_said (option_map (λ word. word.now) word.entry) in
        MatchOption result (said ≡ None)
        (λ liable. said ≡ Some (option_map spec.said_liable liable)) }
{
    match word {
        None => Some(None),
        Some(word) => liable_word(word),
    }
}

fn liable_word(word: &[u8]) -> Option<Option<WrittenLiable<'_>>>
    ensures { let said = spec.liable_cut word.now (cut_at 58 word.now) in
        MatchOption result (said ≡ None)
        (λ liable. said ≡ Some (option_map spec.said_liable liable)) }
{
    match split_at_mark(word, b':') {
        None => Some(Some(WrittenLiable {
            name: word,
            limits: None,
        })),
        Some((name, limits)) => {
            let limits = read_number(limits)?;
            Some(Some(WrittenLiable {
                name,
                limits: Some(limits),
            }))
        }
    }
}
