//! Cells of a row: texts that fill so many columns.
ghost use Rattle.std.specs.Prelude.{◌≡◌, ◌+◌, ◌≤◌, ◌++◌, true, false, length, MatchOption};
ghost use Rattle.arrayvec.specs.ArrayString.{array_string_len};
ghost use Rattle.riichi_game_sheet.specs.Cells as spec;

use arrayvec::ArrayString;
use riichi_text::{ANSWER_ROOM, AnswerText};
use std::str;
use unicode_width::UnicodeWidthStr;

/// The bytes of the longest text that is told in a cell.
pub(crate) const MOST_TOLD: usize = 150;

/// What stands at the end of a text that is cut.
const ELLIPSIS: &str = "…";

/// The bytes of the ellipsis.
pub(crate) const MOST_ELLIPSIS: usize = ELLIPSIS.len();

/// The bytes of the longest text that is cut.
const MOST_CUT: usize = MOST_TOLD + MOST_ELLIPSIS;

/// A text that is cut.
type Cut = ArrayString<MOST_CUT>;

/// Writes a text at the left end of so many columns, with a space behind it at least.
#[tactic(auto, unfolding(crate::specs::Cells::left_cell))]
pub(crate) fn push_left(text: &mut AnswerText, columns: usize, told: &str)
    requires room { array_string_len text.old + columns + length told.now + MOST_ELLIPSIS
        ≤ ANSWER_ROOM }
    requires short { length told.now ≤ MOST_TOLD }
    ensures bytes { text.new.bytes ≡ text.old.bytes ++ spec.left_cell columns told.now }
    ensures len { array_string_len text.new
        ≤ array_string_len text.old + columns + length told.now + MOST_ELLIPSIS }
{
    let told = cut(columns.saturating_sub(1), told);
    text.push_str(told.as_str());
    push_spaces(text, columns.saturating_sub(told.as_str().width()));
}

/// Writes a text at the right end of so many columns, with a space before it at least.
#[tactic(auto, unfolding(crate::specs::Cells::right_cell))]
pub(crate) fn push_right(text: &mut AnswerText, columns: usize, told: &str)
    requires room { array_string_len text.old + columns + length told.now + MOST_ELLIPSIS
        ≤ ANSWER_ROOM }
    requires short { length told.now ≤ MOST_TOLD }
    ensures bytes { text.new.bytes ≡ text.old.bytes ++ spec.right_cell columns told.now }
    ensures len { array_string_len text.new
        ≤ array_string_len text.old + columns + length told.now + MOST_ELLIPSIS }
{
    let told = cut(columns.saturating_sub(1), told);
    push_spaces(text, columns.saturating_sub(told.as_str().width()));
    text.push_str(told.as_str());
}

/// Writes so many spaces.
fn push_spaces(text: &mut AnswerText, count: usize)
    requires { array_string_len text.old + count ≤ ANSWER_ROOM }
    ensures bytes { text.new.bytes ≡ text.old.bytes ++ spec.spaces count }
    ensures len { array_string_len text.new ≡ array_string_len text.old + count }
{
    for _place in 0..count {
        text.push_str(" ");
    }
}

/// A text within so many columns: where it is wider its front, and an ellipsis.
#[tactic(auto, unfolding(crate::specs::Cells::cut))]
fn cut(columns: usize, text: &str) -> Cut
    requires { length text.now ≤ MOST_TOLD }
    ensures bytes { result.bytes ≡ spec.cut columns text.now }
    ensures len { array_string_len result ≤ length text.now + MOST_ELLIPSIS }
{
    let mut cut = Cut::new();
    if text.width() <= columns {
        cut.push_str(text);
    } else {
        cut.push_str(front(columns.saturating_sub(1), text));
        cut.push_str(ELLIPSIS);
    }
    cut
}

/// The longest beginning of a text that takes so many columns at most.
#[tactic(auto, using(crate::proofs::Fronts::front_fits, crate::proofs::Fronts::front_shorter, crate::proofs::Fronts::front_none))]
fn front(columns: usize, text: &str) -> &str
    ensures value { result.now ≡ spec.front columns text.now }
    ensures short { length result.now ≤ length text.now }
{
    let bytes = text.as_bytes();
    let mut len = bytes.len();
    while len > 0 {
        if let Some(front) = fitting(columns, &bytes[..len]) {
            return front;
        }
        len -= 1;
    }
    ""
}

/// The text of some bytes, where they are one and it takes so many columns at most.
#[tactic(auto, using(riichi_game_text::proofs::TextLemmas::utf8_tests), unfolding(crate::specs::Cells::fits_in))]
fn fitting(columns: usize, bytes: &[u8]) -> Option<&str>
    ensures { MatchOption result (spec.fits_in columns bytes.now ≡ false)
        (λ text. (spec.fits_in columns bytes.now ≡ true) × (text.now ≡ bytes.now)) }
{
    match str::from_utf8(bytes) {
        Ok(text) if text.width() <= columns => Some(text),
        _ => None,
    }
}
