//! States of a game as members of an object.
ghost use Rattle.std.specs.Prelude.{◌≡◌, ◌+◌, ◌≤◌, ◌++◌, length};
ghost use Rattle.arrayvec.specs.ArrayString.{array_string_len};
ghost use Rattle.riichi_table.specs.Players.{of_player};
ghost use Rattle.riichi_places.specs.Places.{seat_number};
ghost use Rattle.riichi_game_text.specs.Answers.{signed_text};
ghost use Rattle.riichi_game_text.specs.Answers as answers;
ghost use Rattle.riichi_game_json.specs.States as spec;

use crate::values::{MOST_I64, push_natural, push_signed};
use riichi_hand::Wind;
use riichi_table::{ByPlayer, GameState, Player};
use riichi_text::{ANSWER_ROOM, AnswerText, MOST_U32};

/// The bytes of the marks of a list of four.
pub(crate) const MOST_MARKS: usize = "[,,,]".len();

const MOST_ROUND: usize = "\"round\":\"south\",\"dealer\":".len() + MOST_U32;

pub(crate) const MOST_TABLE: usize = MOST_ROUND
    + ",\"counters\":".len()
    + MOST_U32
    + ",\"sticks\":".len()
    + MOST_U32;

/// The bytes of the longest points of the four, behind the name of their member.
pub(crate) const MOST_FOUR: usize = ",\"changes\":".len() + MOST_MARKS + 4 * MOST_I64;

/// The bytes of the longest state.
pub const MOST_STANDS: usize = "\"answer\":\"stands\",".len() + MOST_TABLE + MOST_FOUR + "}".len();

/// Writes the state of a game that isn't over, or that a line took it back to.
pub fn push_stands(text: &mut AnswerText, state: &GameState)
    requires { array_string_len text.old + MOST_STANDS ≤ ANSWER_ROOM }
    ensures bytes { text.new.bytes ≡ text.old.bytes ++ spec.stands_members state.now }
    ensures len { array_string_len text.new ≤ array_string_len text.old + MOST_STANDS }
{
    text.push_str("\"answer\":\"stands\",");
    push_table(text, state);
    push_four(text, ",\"points\":", &state.points.widened());
    text.push_str("}");
}

fn round_text(round: Wind) -> &'static str
    ensures value { result.now ≡ answers.round_text round }
    ensures short { length result.now ≤ 5 }
{
    match round {
        Wind::East => "east",
        Wind::South => "south",
        Wind::West => "west",
        Wind::North => "north",
    }
}

/// The number of a player, from 0.
pub(crate) fn player_index(player: Player) -> u32
    ensures { result ≡ seat_number player }
{
    match player {
        Player::First => 0,
        Player::Second => 1,
        Player::Third => 2,
        Player::Fourth => 3,
    }
}

/// Writes round, dealer, counters and sticks.
pub(crate) fn push_table(text: &mut AnswerText, state: &GameState)
    requires { array_string_len text.old + MOST_TABLE ≤ ANSWER_ROOM }
    ensures bytes { text.new.bytes ≡ text.old.bytes ++ spec.table_members state.now }
    ensures len { array_string_len text.new ≤ array_string_len text.old + MOST_TABLE }
{
    push_round(text, state);
    push_natural(text, ",\"counters\":", u32::from(state.counters));
    push_natural(text, ",\"sticks\":", u32::from(state.sticks));
}

/// Writes round and dealer.
fn push_round(text: &mut AnswerText, state: &GameState)
    requires { array_string_len text.old + MOST_ROUND ≤ ANSWER_ROOM }
    ensures bytes { text.new.bytes ≡ text.old.bytes ++ spec.round_members state.now }
    ensures len { array_string_len text.new ≤ array_string_len text.old + MOST_ROUND }
{
    text.push_str("\"round\":\"");
    text.push_str(round_text(state.round));
    push_natural(text, "\",\"dealer\":", player_index(state.dealer));
}

/// Writes points of each player behind the name of the member.
pub(crate) fn push_four(text: &mut AnswerText, name: &str, points: &ByPlayer<i64>)
    requires room { array_string_len text.old + MOST_FOUR ≤ ANSWER_ROOM }
    requires short { length name.now ≤ 11 }
    ensures bytes { text.new.bytes ≡ text.old.bytes ++ spec.four_points name.now points.now }
    ensures len { array_string_len text.new ≤ array_string_len text.old + MOST_FOUR }
{
    text.push_str(name);
    push_of(text, "[", points, Player::First);
    push_of(text, ",", points, Player::Second);
    push_of(text, ",", points, Player::Third);
    push_of(text, ",", points, Player::Fourth);
    text.push_str("]");
}

/// Writes points of a player behind a text.
fn push_of(text: &mut AnswerText, before: &str, points: &ByPlayer<i64>, player: Player)
    requires { array_string_len text.old + length before.now + MOST_I64 ≤ ANSWER_ROOM }
    ensures bytes { text.new.bytes
        ≡ text.old.bytes ++ (before.now ++ signed_text (of_player points.now player)) }
    ensures len { array_string_len text.new
        ≤ array_string_len text.old + length before.now + MOST_I64 }
{
    push_signed(text, before, points.get(player));
}
