ghost use Rattle.std.specs.Prelude.{◌≡◌, ◌≤◌, ◌+◌, ◌++◌};
ghost use Rattle.arrayvec.specs.ArrayString.{array_string_len};
ghost use Rattle.desk_core.specs.AnswerText as spec;

use crate::answer::Answer;
use riichi_score::push_win;
use riichi_shape::{MOST_SHAPE, push_shape};
use riichi_split::push_waits;
use riichi_text::{ANSWER_ROOM, AnswerText};

/// The answer on one line, without the line's end.
pub fn answer_text(answer: &Answer) -> AnswerText
    ensures { result.bytes ≡ spec.answer_text answer.now }
{
    let mut text = AnswerText::new();
    push_answer(&mut text, answer);
    text
}

/// Writes the answer behind a text, without the line's end. A text that is kept need not be made anew
/// for each answer.
#[tactic(auto, unfolding(crate::specs::AnswerText::answer_text))]
pub fn push_answer(text: &mut AnswerText, answer: &Answer)
    requires { array_string_len text.old + MOST_SHAPE ≤ ANSWER_ROOM }
    ensures { text.new.bytes ≡ text.old.bytes ++ spec.answer_text answer.now }
{
    match answer {
        Answer::Win(win) => push_win(text, win),
        Answer::Waits(kinds) => push_waits(text, *kinds),
        Answer::Shape(shape) => push_shape(text, shape),
    }
}
