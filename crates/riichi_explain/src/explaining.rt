//! The lines that follow an answer and say why it is what it is.
ghost use Rattle.std.specs.Prelude.{◌≡◌, ◌+◌, ◌*◌, ◌≤◌, ◌++◌, length};
ghost use Rattle.arrayvec.specs.ArrayString.{array_string_len};
ghost use Rattle.riichi_explain.specs.Explanation as spec;

use crate::missed::{MOST_MISSED, push_missed_lines};
use crate::notes::{MOST_NOTES, push_notes};
use crate::ranked::{MOST_READINGS, RankedReading};
use crate::reading_text::{MOST_READING_LINE, push_no_yaku};
use crate::room::{REASONS_ROOM, ReasonsText};
use crate::win::WinExplanation;
use crate::win_text::push_won_hand;
use riichi_hand::{MOST_RULES_WORDS, WinRecord, push_house_words};

/// The bytes of the longest lines that [`push_win_lines`] writes.
pub const MOST_WIN_LINES: usize = "  rules   ".len()
    + MOST_RULES_WORDS
    + "\n".len()
    + MOST_NOTES
    + MOST_REASONS;

/// A hand that is no win and waits for many kinds has the longest reasons.
const MOST_REASONS: usize = MOST_MISSED;

/// Which readings of a hand that scores are told.
#[derive(Clone, Copy)]
pub enum Shown {
    BestReading,
    EveryReading,
}

/// Writes the lines that say why a win is worth what it is: the rules where they are neither profile; a note where riichi has no
/// indicator, a robbed kong's tile is in the hand too, or somebody may be liable; and then those of a hand that scores, a line for
/// each reading without yaku, or how far a hand that is no win is from each form, and what it waits for.
pub fn push_win_lines(text: &mut ReasonsText, explanation: WinExplanation, win: &WinRecord)
    requires { array_string_len text.old + MOST_WIN_LINES ≤ REASONS_ROOM }
    ensures { text.new.bytes ≡ text.old.bytes ++ spec.win_lines explanation win.now }
{
    push_house_words(text, "  rules   ", win.rules(), "\n");
    push_notes(text, win);
    push_reasons(text, explanation, win);
}

fn push_reasons(text: &mut ReasonsText, explanation: WinExplanation, win: &WinRecord)
    requires { array_string_len text.old + MOST_REASONS ≤ REASONS_ROOM }
    ensures { text.new.bytes ≡ text.old.bytes ++ spec.reason_lines explanation win.now }
{
    match explanation {
        WinExplanation::Won(hand) => push_won_hand(text, &hand),
        WinExplanation::NoYaku(ranked) => push_no_yaku_lines(text, ranked.as_slice(), win),
        WinExplanation::NoWin(missed) => push_missed_lines(text, &missed),
    }
}

fn push_no_yaku_lines(text: &mut ReasonsText, ranked: &[RankedReading], win: &WinRecord)
    requires few { length ranked.now ≤ MOST_READINGS }
    requires room { array_string_len text.old + MOST_READINGS * MOST_READING_LINE ≤ REASONS_ROOM }
    ensures { text.new.bytes ≡ text.old.bytes ++ spec.no_yaku_lines ranked.now win.now }
{
    for one in ranked {
        push_no_yaku(text, &one.reading, win);
    }
}
