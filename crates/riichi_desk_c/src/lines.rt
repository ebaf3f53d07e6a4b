//! The lines of a text, many by one call.
ghost use Rattle.riichi_explain.specs.declared.explaining.Shown.TheVariants.{BestReading};
ghost use Rattle.desk_lines.specs.Explained.{IsExplained};
ghost use Rattle.desk_lines.specs.JsonLine.{json_of};
ghost use Rattle.desk_lines.specs.LineAnswer.{IsBy, answer_of};
ghost use Rattle.desk_lines.specs.Reasoned.{IsReasoned};
ghost use Rattle.riichi_desk_c.specs.ManyLines.{FillsUnder};

use crate::rules_numbered;
use desk_lines::{Explained, Objects, Plain, Reasoned, Responder, fill_by};

/// Answers the lines of a text from its start, as many as have room, each answer with a line feed behind it, under the profile
/// of this number: the bytes that the answers fill. `taken` is set to the bytes of the text that are answered, always whole
/// lines; a call with the rest of the text goes on. Under a number that is no profile's nothing is answered.
#[unsafe(no_mangle)]
pub extern "C" fn riichi_answer_lines(
    rules: u32,
    text: &[u8],
    room: &mut [u8],
    taken: &mut usize,
) -> usize
    ensures { FillsUnder (IsBy answer_of)
        rules text.now room.old room.new taken.new result }
{
    fill_under::<Plain>(rules, text, room, taken)
}

/// The same, each answer as an object of JSON.
#[unsafe(no_mangle)]
pub extern "C" fn riichi_json_lines(
    rules: u32,
    text: &[u8],
    room: &mut [u8],
    taken: &mut usize,
) -> usize
    ensures { FillsUnder (IsBy json_of)
        rules text.now room.old room.new taken.new result }
{
    fill_under::<Objects>(rules, text, room, taken)
}

/// The same, and behind each answer the lines that explain it.
#[unsafe(no_mangle)]
pub extern "C" fn riichi_explain_lines(
    rules: u32,
    text: &[u8],
    room: &mut [u8],
    taken: &mut usize,
) -> usize
    ensures { FillsUnder (IsExplained BestReading)
        rules text.now room.old room.new taken.new result }
{
    fill_under::<Explained>(rules, text, room, taken)
}

/// The same as `riichi_json_lines`, and each win with its reasons, as `riichi_explain_json` answers it.
#[unsafe(no_mangle)]
pub extern "C" fn riichi_explain_json_lines(
    rules: u32,
    text: &[u8],
    room: &mut [u8],
    taken: &mut usize,
) -> usize
    ensures { FillsUnder IsReasoned rules text.now room.old room.new taken.new result }
{
    fill_under::<Reasoned>(rules, text, room, taken)
}

/// The same by any kind of answer.
fn fill_under<A: Responder>(rules: u32, text: &[u8], room: &mut [u8], taken: &mut usize) -> usize
    ensures { FillsUnder A.may_tell rules text.now room.old room.new taken.new result }
{
    match rules_numbered(rules) {
        Some(rules) => {
            let done = fill_by::<A>(rules, text, room);
            *taken = done.taken;
            done.filled
        }
        None => {
            *taken = 0;
            0
        }
    }
}
