//! What earns han, dora or fu.
ghost use Rattle.std.specs.Prelude.{◌≡◌, ◌≤◌, ◌+◌, ◌++◌, length};
ghost use Rattle.arrayvec.specs.ArrayString.{array_string_len};
ghost use Rattle.desk_reasons.specs.Parts as spec;

use desk_json::{JSON_ROOM, JsonText};

/// The bytes beside the words and the name.
pub(crate) const MOST_PART: usize = "{\"part\":\"".len() + "\"".len() + MOST_JAPANESE_MEMBER;

const MOST_JAPANESE_MEMBER: usize = ",\"japanese\":\"".len() + "\"".len();

/// What earns something, in words, and its Japanese name where it has one. The object is left open.
#[tactic(auto, unfolding(crate::specs::Parts::part_json))]
pub(crate) fn push_part(text: &mut JsonText, words: &str, japanese: &str)
    requires { array_string_len text.old + MOST_PART + length words.now + length japanese.now
        ≤ JSON_ROOM }
    ensures bytes { text.new.bytes ≡ text.old.bytes ++ spec.part_json words.now japanese.now }
    ensures len { array_string_len text.new
        ≤ array_string_len text.old + MOST_PART + length words.now + length japanese.now }
{
    text.push_str("{\"part\":\"");
    text.push_str(words);
    text.push_str("\"");
    push_japanese(text, japanese);
}

#[tactic(auto, unfolding(crate::specs::Parts::japanese_json))]
fn push_japanese(text: &mut JsonText, japanese: &str)
    requires { array_string_len text.old + MOST_JAPANESE_MEMBER + length japanese.now ≤ JSON_ROOM }
    ensures bytes { text.new.bytes ≡ text.old.bytes ++ spec.japanese_json japanese.now }
    ensures len { array_string_len text.new
        ≤ array_string_len text.old + MOST_JAPANESE_MEMBER + length japanese.now }
{
    if !japanese.is_empty() {
        text.push_str(",\"japanese\":\"");
        text.push_str(japanese);
        text.push_str("\"");
    }
}
