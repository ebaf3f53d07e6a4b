//! Numbers in a text, and commas.
ghost use Rattle.std.specs.Prelude.{◌≡◌, ◌+◌, ◌<◌, ◌≤◌, ◌++◌, length, decimal};
ghost use Rattle.arrayvec.specs.ArrayString.{array_string_len};
ghost use Rattle.desk_json.specs.Parts as spec;

use crate::text::{JSON_ROOM, JsonText};
use riichi_text::{MOST_U32, push_number};

/// A number behind the text before it, as a name with its colon.
pub(crate) fn push_after(text: &mut JsonText, before: &str, number: u32)
    requires { array_string_len text.old + length before.now + MOST_U32 ≤ JSON_ROOM }
    ensures bytes { text.new.bytes ≡ text.old.bytes ++ before.now ++ decimal number }
    ensures len { array_string_len text.new
        ≤ array_string_len text.old + length before.now + MOST_U32 }
{
    text.push_str(before);
    push_number(text, number);
}

/// A comma, where something stands before.
pub(crate) fn push_comma_if(text: &mut JsonText, later: bool)
    requires { array_string_len text.old + 1 ≤ JSON_ROOM }
    ensures bytes { text.new.bytes ≡ text.old.bytes ++ spec.comma_if later }
    ensures len { array_string_len text.new ≤ array_string_len text.old + 1 }
{
    if later {
        text.push_str(",");
    }
}

/// A number of one digit.
#[tactic(auto, using(std::proofs::lemmas::Fmt::decimal_digit))]
pub(crate) fn push_digit(text: &mut JsonText, digit: u8)
    requires room { array_string_len text.old + 1 ≤ JSON_ROOM }
    requires one { digit < 10 }
    ensures bytes { text.new.bytes ≡ text.old.bytes ++ decimal digit }
    ensures len { array_string_len text.new ≡ array_string_len text.old + 1 }
{
    text.push((b'0' + digit) as char);
}
