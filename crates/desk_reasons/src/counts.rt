//! Numbers behind a text.
ghost use Rattle.std.specs.Prelude.{◌≡◌, ◌≤◌, ◌+◌, ◌++◌, length};
ghost use Rattle.arrayvec.specs.ArrayString.{array_string_len};
ghost use Rattle.desk_reasons.specs.Parts as spec;

use desk_json::{JSON_ROOM, JsonText};
use riichi_text::{MOST_U8, MOST_U32, push_number};

/// A number behind the text before it, as a name with its colon.
#[tactic(auto, unfolding(crate::specs::Parts::count_json))]
pub(crate) fn push_count(text: &mut JsonText, before: &str, count: u32)
    requires { array_string_len text.old + length before.now + MOST_U32 ≤ JSON_ROOM }
    ensures bytes { text.new.bytes ≡ text.old.bytes ++ spec.count_json before.now count }
    ensures len { array_string_len text.new
        ≤ array_string_len text.old + length before.now + MOST_U32 }
{
    text.push_str(before);
    push_number(text, count);
}

/// The same for a number of at most three digits.
#[tactic(auto, unfolding(crate::specs::Parts::count_json))]
pub(crate) fn push_small(text: &mut JsonText, before: &str, count: u8)
    requires { array_string_len text.old + length before.now + MOST_U8 ≤ JSON_ROOM }
    ensures bytes { text.new.bytes ≡ text.old.bytes ++ spec.count_json before.now count }
    ensures len { array_string_len text.new
        ≤ array_string_len text.old + length before.now + MOST_U8 }
{
    text.push_str(before);
    push_number(text, count);
}
