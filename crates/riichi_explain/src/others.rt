//! The lines of a reading beside the one that is shown.
ghost use Rattle.std.specs.Prelude.{◌≡◌, ◌+◌, ◌≤◌, ◌++◌};
ghost use Rattle.arrayvec.specs.ArrayString.{array_string_len};
ghost use Rattle.riichi_score.specs.Fu.{HasFourSets};
ghost use Rattle.riichi_explain.specs.Others as spec;

use crate::han::han_rows;
use crate::points_text::{MOST_GAIN_LINE, push_gain_line};
use crate::ranked::RankedReading;
use crate::reading_text::{MOST_READING_LINE, push_other_line};
use crate::room::{REASONS_ROOM, ReasonsText};
use crate::rows_text::{MOST_FU_LINE, MOST_HAN_LINE, push_han_line};
use crate::win::counted_fu;
use crate::win_text::push_fu_line_if;
use riichi_hand::WinRecord;
use riichi_score::Score;
use riichi_split::Reading;

/// The bytes of the longest lines of a reading.
pub const MOST_OTHER_READING: usize = MOST_READING_LINE
    + MOST_HAN_LINE
    + MOST_FU_LINE
    + MOST_GAIN_LINE;

/// Writes the lines of a reading of a win, unless it is the one that is shown: its yaku with their han, its fu and its gain, or
/// that it has no yaku.
pub fn push_other_reading(
    text: &mut ReasonsText,
    shown: &Reading,
    one: &RankedReading,
    win: &WinRecord,
)
    requires sets { HasFourSets one.now.reading win.now }
    requires room { array_string_len text.old + MOST_OTHER_READING ≤ REASONS_ROOM }
    ensures bytes { text.new.bytes
        ≡ text.old.bytes ++ spec.other_reading_text shown.now win.now one.now }
    ensures len { array_string_len text.new ≤ array_string_len text.old + MOST_OTHER_READING }
{
    if one.reading != *shown {
        push_ranked(text, &one.reading, &one.score, win);
    }
}

#[tactic(auto, unfolding(crate::specs::Others::ranked_text))]
fn push_ranked(text: &mut ReasonsText, reading: &Reading, score: &Option<Score>, win: &WinRecord)
    requires sets { HasFourSets reading.now win.now }
    requires room { array_string_len text.old + MOST_OTHER_READING ≤ REASONS_ROOM }
    ensures bytes { text.new.bytes
        ≡ text.old.bytes ++ spec.ranked_text win.now reading.now score.now }
    ensures len { array_string_len text.new ≤ array_string_len text.old + MOST_OTHER_READING }
{
    match score {
        None => push_other_line(text, ": no yaku", reading, win),
        Some(score) => push_scored(text, reading, score, win),
    }
}

/// Writes what a reading is worth, and why.
#[tactic(auto, unfolding(crate::specs::Others::scored_text))]
fn push_scored(text: &mut ReasonsText, reading: &Reading, score: &Score, win: &WinRecord)
    requires sets { HasFourSets reading.now win.now }
    requires room { array_string_len text.old + MOST_OTHER_READING ≤ REASONS_ROOM }
    ensures bytes { text.new.bytes
        ≡ text.old.bytes ++ spec.scored_text reading.now score.now win.now }
    ensures len { array_string_len text.new ≤ array_string_len text.old + MOST_OTHER_READING }
{
    let yakuman = score.yaku.is_yakuman();
    push_other_line(text, "", reading, win);
    push_han_line(
        text,
        yakuman,
        score.han,
        han_rows(score.yaku, win).as_slice(),
    );
    push_fu_line_if(
        text,
        yakuman,
        counted_fu(yakuman, reading, win).as_slice(),
        score.fu,
    );
    push_gain_line(text, score.gain, win.sticks());
}
