//! The text of a win's explanation.
ghost use Rattle.std.specs.Prelude.{◌≡◌, ◌+◌, ◌≤◌, ◌++◌, length};
ghost use Rattle.arrayvec.specs.ArrayString.{array_string_len};
ghost use Rattle.riichi_explain.specs.Text as spec;

use crate::fu::{FuRow, MOST_FU_ROWS};
use crate::points_text::{
    MOST_BASE_LINE, MOST_GAIN_LINE, MOST_PAY_LINE, push_base_line, push_gain_line, push_pay_line,
};
use crate::reading_text::{MOST_READING_LINE, push_reading_line};
use crate::room::{REASONS_ROOM, ReasonsText};
use crate::rows_text::{
    MOST_DORA_LINE, MOST_FU_LINE, MOST_HAN_LINE, push_dora_line_if, push_fu_line, push_han_line,
};
use crate::win::WonHand;

/// The bytes of the longest lines of a hand that scores.
pub const MOST_WON_HAND: usize = MOST_READING_LINE
    + MOST_HAN_LINE
    + MOST_DORA_LINE
    + MOST_FU_LINE
    + MOST_BASE_LINE
    + MOST_PAY_LINE
    + MOST_GAIN_LINE;

/// The lines of a hand that scores, each after two spaces and ended by a line feed: the reading, the
/// han, the dora, the fu, the base points, who pays, and the gain.
pub fn won_hand_text(hand: &WonHand) -> ReasonsText
    ensures { result.bytes ≡ spec.won_hand_text hand.now }
{
    let mut text = ReasonsText::new();
    push_won_hand(&mut text, hand);
    text
}

/// Writes these lines behind a text. A text that is kept need not be made anew for each hand.
#[tactic(auto, unfolding(crate::specs::Text::won_hand_text))]
pub fn push_won_hand(text: &mut ReasonsText, hand: &WonHand)
    requires { array_string_len text.old + MOST_WON_HAND ≤ REASONS_ROOM }
    ensures { text.new.bytes ≡ text.old.bytes ++ spec.won_hand_text hand.now }
{
    let yakuman = hand.score.yaku.is_yakuman();
    push_reading_line(text, &hand.reading, &hand.win);
    push_han_line(text, yakuman, hand.score.han, hand.han.as_slice());
    push_dora_line_if(text, hand.dora.as_slice());
    push_fu_line_if(text, yakuman, hand.fu.as_slice(), hand.score.fu);
    push_base_line(text, &hand.base, hand.score.han, hand.score.fu);
    push_pay_line(text, hand.payers.as_slice());
    push_gain_line(text, hand.score.gain, hand.win.sticks());
}

/// A yakuman counts no fu.
#[tactic(auto, unfolding(crate::specs::Text::fu_line_if))]
pub(crate) fn push_fu_line_if(text: &mut ReasonsText, yakuman: bool, rows: &[FuRow], fu: u8)
    requires few { length rows.now ≤ MOST_FU_ROWS }
    requires room { array_string_len text.old + MOST_FU_LINE ≤ REASONS_ROOM }
    ensures bytes { text.new.bytes ≡ text.old.bytes ++ spec.fu_line_if yakuman rows.now fu }
    ensures len { array_string_len text.new ≤ array_string_len text.old + MOST_FU_LINE }
{
    if !yakuman {
        push_fu_line(text, rows, fu);
    }
}
