//! The text of an answer.
ghost use Rattle.std.specs.Prelude.{◌≡◌, ◌≤◌, ◌+◌, ◌++◌};
ghost use Rattle.arrayvec.specs.ArrayString.{array_string_len};
ghost use Rattle.desk_json.specs.Text as spec;

use crate::shape::{MOST_SHAPE, push_shape};
use crate::waits::push_waits;
use crate::win::push_win;
use arrayvec::ArrayString;
use desk_core::Answer;
use riichi_hand::Rules;

/// The bytes of the room of JSON, as the header of the static library promises them to its callers. The longest answer, of a
/// shape, has fewer.
pub const JSON_ROOM: usize = 12288;

/// Room for any answer as JSON.
pub type JsonText = ArrayString<JSON_ROOM>;

/// The bytes of the longest answer, of a shape.
pub const MOST_ANSWER: usize = MOST_SHAPE;

/// The answer under these rules as one object, without the line's end.
pub fn answer_text(rules: Rules, answer: &Answer) -> JsonText
    ensures { result.bytes ≡ spec.answer_json rules answer.now }
{
    let mut text = JsonText::new();
    push_answer(&mut text, rules, answer);
    text
}

/// Writes the answer under these rules behind a text, without the line's end: that of a win names the rules where they are neither
/// profile. A text that is kept need not be made anew for each answer.
#[tactic(auto, using(crate::proofs::Pieces::waits_written, crate::proofs::Pieces::shape_written))]
pub fn push_answer(text: &mut JsonText, rules: Rules, answer: &Answer)
    requires { array_string_len text.old + MOST_ANSWER ≤ JSON_ROOM }
    ensures { text.new.bytes ≡ text.old.bytes ++ spec.answer_json rules answer.now }
{
    match answer {
        Answer::Win(win) => push_win(text, rules, win),
        Answer::Waits(kinds) => push_waits(text, kinds),
        Answer::Shape(shape) => push_shape(text, shape),
    }
}
