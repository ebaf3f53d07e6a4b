//! Values behind the names of their members: numbers, and names as strings.
ghost use Rattle.std.specs.Prelude.{◌≡◌, ◌+◌, ◌≤◌, ◌++◌, decimal, length};
ghost use Rattle.arrayvec.specs.ArrayString.{array_string_len};
ghost use Rattle.riichi_game_text.specs.Answers.{signed_text};
ghost use Rattle.riichi_game_json.specs.Strings as spec;

use riichi_game_text::{MOST_NAME, Name};
use riichi_text::{ANSWER_ROOM, AnswerText, MOST_U32, push_number};

pub(crate) const MOST_I64: usize = "-9223372036854775808".len();

/// The bytes of the longest character, in UTF-8 or with a backslash before it.
const MOST_CHARACTER: usize = 4;

/// The bytes of the longest name, of which each byte may be a character.
const MOST_ESCAPED: usize = MOST_NAME * MOST_CHARACTER;

/// The bytes of the longest name as a string.
pub(crate) const MOST_QUOTED: usize = "\"".len() + MOST_ESCAPED + "\"".len();

/// Writes a number behind a text, as the name of its member.
pub(crate) fn push_natural(text: &mut AnswerText, before: &str, number: u32)
    requires { array_string_len text.old + length before.now + MOST_U32 ≤ ANSWER_ROOM }
    ensures bytes { text.new.bytes ≡ text.old.bytes ++ (before.now ++ decimal number) }
    ensures len { array_string_len text.new
        ≤ array_string_len text.old + length before.now + MOST_U32 }
{
    text.push_str(before);
    push_number(text, number);
}

/// Writes points behind a text, with a minus sign where they are less than 0.
#[tactic(auto, unfolding(riichi_game_text::specs::Answers::signed_text))]
pub(crate) fn push_signed(text: &mut AnswerText, before: &str, points: i64)
    requires { array_string_len text.old + length before.now + MOST_I64 ≤ ANSWER_ROOM }
    ensures bytes { text.new.bytes ≡ text.old.bytes ++ (before.now ++ signed_text points) }
    ensures len { array_string_len text.new
        ≤ array_string_len text.old + length before.now + MOST_I64 }
{
    text.push_str(before);
    push_number(text, points);
}

/// Writes a name as a string behind a text.
pub(crate) fn push_quoted(text: &mut AnswerText, before: &str, name: &Name)
    requires { array_string_len text.old + length before.now + MOST_QUOTED ≤ ANSWER_ROOM }
    ensures bytes { text.new.bytes ≡ text.old.bytes ++ (before.now ++ spec.quoted name.now.bytes) }
    ensures len { array_string_len text.new
        ≤ array_string_len text.old + length before.now + MOST_QUOTED }
{
    text.push_str(before);
    text.push_str("\"");
    push_escaped(text, name.as_str());
    text.push_str("\"");
}

/// Writes a name, with a backslash before each quotation mark and each backslash of it.
#[tactic(auto, using(std::proofs::lemmas::Str::chars_from_encodes))]
fn push_escaped(text: &mut AnswerText, name: &str)
    requires short { length name.now ≤ MOST_NAME }
    requires room { array_string_len text.old + MOST_ESCAPED ≤ ANSWER_ROOM }
    ensures bytes { text.new.bytes ≡ text.old.bytes ++ spec.escaped name.now }
    ensures len { array_string_len text.new ≤ array_string_len text.old + MOST_ESCAPED }
{
    for character in name.chars() {
        push_character(text, character);
    }
}

fn push_character(text: &mut AnswerText, character: char)
    requires { array_string_len text.old + MOST_CHARACTER ≤ ANSWER_ROOM }
    ensures bytes { text.new.bytes ≡ text.old.bytes ++ spec.escaped_character character }
    ensures len { array_string_len text.new ≤ array_string_len text.old + MOST_CHARACTER }
{
    match character {
        '"' => text.push_str("\\\""),
        '\\' => text.push_str("\\\\"),
        _ => text.push_str(character.encode_utf8(&mut [0; MOST_CHARACTER])),
    }
}
