//! What a hand is worth, in words.
ghost use Rattle.std.specs.Prelude.{◌≡◌, ◌+◌, ◌≤◌, ◌++◌};
ghost use Rattle.arrayvec.specs.ArrayString.{array_string_len};
ghost use Rattle.riichi_game_reasons.specs.ValueLines as spec;

use riichi_game_text::{MOST_NAME, Name, WonValue};
use riichi_score::{MOST_WIN, best, push_win};
use riichi_text::{ANSWER_ROOM, AnswerText, MOST_U8, push_number};

const MOST_HAN_AND_FU: usize = MOST_U8 + " han ".len() + MOST_U8 + " fu".len();

/// The bytes of the longest line of a value.
pub const MOST_VALUE: usize = "  ".len() + MOST_NAME + "'s hand: ".len() + MOST_WIN;

/// Writes what the hand of a player of this name is worth, without the line's end: han and fu, or the answer to the same win where
/// neither counters nor sticks lie, with its yaku.
pub fn push_value(text: &mut AnswerText, name: &Name, value: &WonValue)
    requires { array_string_len text.old + MOST_VALUE ≤ ANSWER_ROOM }
    ensures { text.new.bytes ≡ text.old.bytes ++ spec.value_line name.now.bytes value.now }
{
    text.push_str("  ");
    text.push_str(name.as_str());
    text.push_str("'s hand: ");
    match value {
        WonValue::Counted { han, fu } => push_han_and_fu(text, *han, *fu),
        WonValue::Hand(hand) => push_win(text, &best(hand)),
    }
}

fn push_han_and_fu(text: &mut AnswerText, han: u8, fu: u8)
    requires { array_string_len text.old + MOST_HAN_AND_FU ≤ ANSWER_ROOM }
    ensures { text.new.bytes ≡ text.old.bytes ++ spec.han_and_fu_words han fu }
{
    push_number(text, han);
    text.push_str(" han ");
    push_number(text, fu);
    text.push_str(" fu");
}
