//! The first rows of a sheet.
ghost use Rattle.std.specs.Prelude.{◌≡◌, ◌+◌, ◌≤◌, ◌++◌, length};
ghost use Rattle.arrayvec.specs.ArrayString.{array_string_len};
ghost use Rattle.riichi_game_text.specs.GameLines.{said_by};
ghost use Rattle.riichi_game_sheet.specs.Begun as spec;

use crate::rows::{MOST_ROW, Written, push_names, push_row};
use arrayvec::ArrayString;
use riichi_game_text::GameLine;
use riichi_table::ByPlayer;
use riichi_text::{ANSWER_ROOM, AnswerText, MOST_U32, push_number};

/// The bytes of the longest first rows.
pub const MOST_BEGUN: usize = MOST_ROW + "\n".len() + MOST_ROW;

/// The bytes of the longest words of a number that the line `game` says.
const MOST_SAID: usize = "session ".len() + MOST_U32;

/// Writes the first rows of a sheet: the names, and below them the points that each begins with; beside these session and table of a
/// tournament, where they are said.
pub fn push_begun(text: &mut AnswerText, line: &GameLine)
    requires { array_string_len text.old + MOST_BEGUN ≤ ANSWER_ROOM }
    ensures bytes { text.new.bytes ≡ text.old.bytes ++ spec.begun_rows (said_by line.now) }
    ensures len { array_string_len text.new ≤ array_string_len text.old + MOST_BEGUN }
{
    let session = said("session ", line.session);
    let table = said("table ", line.at);
    let starts = ByPlayer::all(i64::from(line.rules.start));
    push_names(text, "deal", session.as_str(), &line.names);
    text.push_str("\n");
    push_row(text, "start", table.as_str(), Written::Points, &starts);
}

/// A number behind a word, where it is said.
fn said(word: &str, number: Option<u32>) -> ArrayString<MOST_SAID>
    requires { length word.now ≤ 8 }
    ensures { result.bytes ≡ spec.said_text word.now number }
{
    let mut said = ArrayString::new();
    if let Some(number) = number {
        said.push_str(word);
        push_number(&mut said, number);
    }
    said
}
