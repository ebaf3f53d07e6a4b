//! Why a line is refused.
ghost use Rattle.std.specs.Prelude.{◌≡◌, ◌≤◌, ◌+◌, ◌++◌, IfSome, length, option_map};
ghost use Rattle.arrayvec.specs.ArrayString.{array_string_len};
ghost use Rattle.riichi_hand.specs.Refusals.{IsRefusalOf};
ghost use Rattle.desk_json.specs.Parts as parts;
ghost use Rattle.desk_json.specs.Text as spec;

use crate::text::{JSON_ROOM, JsonText};
use riichi_hand::{Key, LineFault, Place, Refusal, line_code_text, name_text, notation_code_text};
use riichi_refusals::{MOST_FAULT_WORDS, refusal_key, refusal_place, refusal_words};
use riichi_text::{MOST_U64, push_number};

/// The bytes of the longest refusal.
pub const MOST_REFUSAL: usize = MOST_CODE + MOST_KEY_MEMBER + MOST_PLACE + MOST_WORDS;

/// The bytes of the longest code of a refusal.
pub const MOST_CODE: usize = "{\"answer\":\"refused\",\"code\":\"N1".len()
    + "\",\"text\":\"".len()
    + Key::MOST_NAME
    + "\",\"place\":".len()
    + MOST_U64;

const MOST_KEY_MEMBER: usize = ",\"key\":\"".len() + Key::MOST_NAME + "\"".len();

const MOST_PLACE: usize = ",\"at\":".len() + MOST_U64 + ",\"length\":".len() + MOST_U64;

const MOST_WORDS: usize = ",\"words\":\"".len() + MOST_FAULT_WORDS + "\"}".len();

/// The refusal of a line as one object, without the line's end.
pub fn refusal_text(line: &[u8], refusal: &Refusal<'_>) -> JsonText
    requires { IsRefusalOf line.now refusal.now }
    ensures { result.bytes ≡ spec.refusal_json line.now refusal.now.fault }
{
    let mut text = JsonText::new();
    push_refusal(&mut text, line, refusal);
    text
}

/// Writes the refusal of a line behind a text, without the line's end: its code, the key and the place of the line that are at
/// fault, and what may stand there.
#[tactic(auto, using(riichi_text::proofs::Pieces::pushed_four, crate::proofs::Refusals::refusal_written), unfolding(crate::specs::Parts::refusal_parts))]
pub fn push_refusal(text: &mut JsonText, line: &[u8], refusal: &Refusal<'_>)
    requires room { array_string_len text.old + MOST_REFUSAL ≤ JSON_ROOM }
    requires refusal { IsRefusalOf line.now refusal.now }
    ensures { text.new.bytes ≡ text.old.bytes ++ spec.refusal_json line.now refusal.now.fault }
{
    push_code(text, &refusal.fault);
    push_key(text, refusal_key(refusal));
    push_place(text, refusal_place(line, refusal));
    push_words(text, refusal_words(line, refusal));
}

/// Writes the beginning of a refusal's object: the code, and for a text of tiles its name and the place in it. The brace that ends it
/// is left to write.
#[tactic(auto, unfolding(crate::specs::Parts::code_json))]
pub fn push_code(text: &mut JsonText, fault: &LineFault)
    requires { array_string_len text.old + MOST_CODE ≤ JSON_ROOM }
    ensures bytes { text.new.bytes ≡ text.old.bytes ++ parts.code_json fault.now }
    ensures len { array_string_len text.new ≤ array_string_len text.old + MOST_CODE }
{
    text.push_str("{\"answer\":\"refused\",\"code\":\"");
    match fault {
        LineFault::Line(code) => {
            text.push_str(line_code_text(*code));
            text.push_str("\"");
        }
        LineFault::Notation(name, fault) => {
            text.push_str(notation_code_text(fault.code));
            text.push_str("\",\"text\":\"");
            text.push_str(name_text(*name));
            text.push_str("\",\"place\":");
            push_number(text, fault.place);
        }
    }
}

#[tactic(auto, unfolding(crate::specs::Parts::key_json))]
fn push_key(text: &mut JsonText, key: Option<&str>)
    requires room { array_string_len text.old + MOST_KEY_MEMBER ≤ JSON_ROOM }
    requires short { IfSome key (λ key. length key.now ≤ Key.MOST_NAME) }
    ensures bytes { text.new.bytes
        ≡ text.old.bytes ++ parts.key_json (option_map (λ key. key.now) key.entry) }
    ensures len { array_string_len text.new ≤ array_string_len text.old + MOST_KEY_MEMBER }
{
    if let Some(key) = key {
        text.push_str(",\"key\":\"");
        text.push_str(key);
        text.push_str("\"");
    }
}

#[tactic(auto, unfolding(crate::specs::Parts::place_json))]
fn push_place(text: &mut JsonText, place: Option<Place>)
    requires { array_string_len text.old + MOST_PLACE ≤ JSON_ROOM }
    ensures bytes { text.new.bytes ≡ text.old.bytes ++ parts.place_json place }
    ensures len { array_string_len text.new ≤ array_string_len text.old + MOST_PLACE }
{
    if let Some(place) = place {
        text.push_str(",\"at\":");
        push_number(text, place.at);
        text.push_str(",\"length\":");
        push_number(text, place.length);
    }
}

/// What may stand at the fault, and the brace that ends the object.
#[tactic(auto, unfolding(crate::specs::Parts::words_json))]
fn push_words(text: &mut JsonText, words: &str)
    requires room { array_string_len text.old + MOST_WORDS ≤ JSON_ROOM }
    requires short { length words.now ≤ MOST_FAULT_WORDS }
    ensures { text.new.bytes ≡ text.old.bytes ++ parts.words_json words.now }
{
    text.push_str(",\"words\":\"");
    text.push_str(words);
    text.push_str("\"}");
}
