//! The answer to the line that begins a game.
ghost use Rattle.std.specs.Prelude.{◌≡◌, ◌+◌, ◌≤◌, ◌++◌, length};
ghost use Rattle.arrayvec.specs.ArrayString.{array_string_len};
ghost use Rattle.riichi_table.specs.Players.{of_player};
ghost use Rattle.riichi_game_text.specs.GameLines.{said_by};
ghost use Rattle.riichi_game_text.specs.Names.{names_in};
ghost use Rattle.riichi_game_json.specs.Begun as spec;
ghost use Rattle.riichi_game_json.specs.Strings.{four_values, quoted};

use crate::states::MOST_MARKS;
use crate::values::{MOST_QUOTED, push_natural, push_quoted};
use riichi_game_text::{GameLine, Names};
use riichi_table::Player;
use riichi_text::{ANSWER_ROOM, AnswerText, MOST_U32};

const MOST_NAMES: usize = MOST_MARKS + 4 * MOST_QUOTED;

const MOST_SAID: usize = ",\"session\":".len() + MOST_U32;

/// The bytes of the longest answer to the line that begins a game.
pub const MOST_BEGUN: usize = "\"answer\":\"game\",\"names\":".len()
    + MOST_NAMES
    + ",\"start\":".len()
    + MOST_U32
    + MOST_SAID
    + MOST_SAID
    + "}".len();

/// Writes the answer to the line that begins a game: the names, the points that each begins with, and session and table of a
/// tournament where they are said.
pub fn push_begun(text: &mut AnswerText, line: &GameLine)
    requires { array_string_len text.old + MOST_BEGUN ≤ ANSWER_ROOM }
    ensures bytes { text.new.bytes ≡ text.old.bytes ++ spec.begun_members (said_by line.now) }
    ensures len { array_string_len text.new ≤ array_string_len text.old + MOST_BEGUN }
{
    text.push_str("\"answer\":\"game\",\"names\":");
    push_names(text, &line.names);
    push_natural(text, ",\"start\":", line.rules.start);
    push_said(text, ",\"session\":", line.session);
    push_said(text, ",\"at\":", line.at);
    text.push_str("}");
}

fn push_names(text: &mut AnswerText, names: &Names)
    requires { array_string_len text.old + MOST_NAMES ≤ ANSWER_ROOM }
    ensures bytes { text.new.bytes ≡ text.old.bytes
        ++ four_values (λ player. quoted (of_player (names_in names.now) player)) }
    ensures len { array_string_len text.new ≤ array_string_len text.old + MOST_NAMES }
{
    push_quoted(text, "[", &names.get(Player::First));
    push_quoted(text, ",", &names.get(Player::Second));
    push_quoted(text, ",", &names.get(Player::Third));
    push_quoted(text, ",", &names.get(Player::Fourth));
    text.push_str("]");
}

/// Writes a number behind the name of its member, where it is said.
fn push_said(text: &mut AnswerText, name: &str, number: Option<u32>)
    requires room { array_string_len text.old + MOST_SAID ≤ ANSWER_ROOM }
    requires short { length name.now ≤ 11 }
    ensures bytes { text.new.bytes ≡ text.old.bytes ++ spec.number_member name.now number }
    ensures len { array_string_len text.new ≤ array_string_len text.old + MOST_SAID }
{
    if let Some(number) = number {
        push_natural(text, name, number);
    }
}
