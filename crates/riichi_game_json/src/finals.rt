//! The end of a game that is over.
ghost use Rattle.std.specs.Prelude.{◌≡◌, ◌+◌, ◌≤◌, ◌++◌, length};
ghost use Rattle.arrayvec.specs.ArrayString.{array_string_len};
ghost use Rattle.riichi_table.specs.Players.{of_player};
ghost use Rattle.riichi_game_text.specs.Names.{names_in};
ghost use Rattle.riichi_game_json.specs.Finals as spec;
ghost use Rattle.riichi_game_json.specs.Strings.{four_values};

use crate::states::MOST_MARKS;
use crate::values::{MOST_I64, MOST_QUOTED, push_natural, push_quoted, push_signed};
use riichi_game_text::{Name, Names};
use riichi_places::FinalPoints;
use riichi_table::{ByPlayer, Player};
use riichi_text::{ANSWER_ROOM, AnswerText, MOST_U32};

const MOST_PLACE: usize = "{\"name\":".len() + MOST_QUOTED + ",\"place\":".len() + MOST_U32;

const MOST_HELD: usize = ",\"points\":".len() + MOST_I64 + ",\"bonus\":".len() + MOST_I64;

const MOST_PENALTY: usize = ",\"penalty\":".len() + MOST_U32;

const MOST_TOTAL: usize = ",\"total\":".len() + MOST_I64;

const MOST_FINAL: usize = MOST_PLACE + MOST_HELD + MOST_PENALTY + MOST_TOTAL + "}".len();

const MOST_PLAYERS: usize = MOST_MARKS + 4 * MOST_FINAL;

/// The bytes of the longest end of a game.
pub const MOST_OVER: usize = "\"answer\":\"over\",\"left\":".len()
    + MOST_U32
    + ",\"players\":".len()
    + MOST_PLAYERS
    + "}".len();

/// Writes the end of a game that is over: the sticks that lie, and what each player has, by the numbers of the players.
pub fn push_over(text: &mut AnswerText, names: &Names, sticks: u8, finals: &ByPlayer<FinalPoints>)
    requires { array_string_len text.old + MOST_OVER ≤ ANSWER_ROOM }
    ensures bytes { text.new.bytes
        ≡ text.old.bytes ++ spec.over_members (names_in names.now) sticks finals.now }
    ensures len { array_string_len text.new ≤ array_string_len text.old + MOST_OVER }
{
    push_natural(text, "\"answer\":\"over\",\"left\":", u32::from(sticks));
    text.push_str(",\"players\":");
    push_players(text, names, finals);
    text.push_str("}");
}

fn push_players(text: &mut AnswerText, names: &Names, finals: &ByPlayer<FinalPoints>)
    requires { array_string_len text.old + MOST_PLAYERS ≤ ANSWER_ROOM }
    ensures bytes { text.new.bytes ≡ text.old.bytes ++ four_values (λ player.
        spec.final_json (of_player (names_in names.now) player) (of_player finals.now player)) }
    ensures len { array_string_len text.new ≤ array_string_len text.old + MOST_PLAYERS }
{
    push_listed(text, "[", &names.get(Player::First), &finals.first);
    push_listed(text, ",", &names.get(Player::Second), &finals.second);
    push_listed(text, ",", &names.get(Player::Third), &finals.third);
    push_listed(text, ",", &names.get(Player::Fourth), &finals.fourth);
    text.push_str("]");
}

/// Writes what a player has at the end, behind a mark of the list.
fn push_listed(text: &mut AnswerText, mark: &str, name: &Name, of: &FinalPoints)
    requires room { array_string_len text.old + 1 + MOST_FINAL ≤ ANSWER_ROOM }
    requires short { length mark.now ≤ 1 }
    ensures bytes { text.new.bytes
        ≡ text.old.bytes ++ (mark.now ++ spec.final_json name.now.bytes of.now) }
    ensures len { array_string_len text.new ≤ array_string_len text.old + 1 + MOST_FINAL }
{
    text.push_str(mark);
    push_final(text, name, of);
}

/// Writes what a player has at the end.
#[tactic(auto, unfolding(crate::specs::Finals::final_json))]
fn push_final(text: &mut AnswerText, name: &Name, of: &FinalPoints)
    requires { array_string_len text.old + MOST_FINAL ≤ ANSWER_ROOM }
    ensures bytes { text.new.bytes ≡ text.old.bytes ++ spec.final_json name.now.bytes of.now }
    ensures len { array_string_len text.new ≤ array_string_len text.old + MOST_FINAL }
{
    push_place(text, name, of);
    push_held(text, of);
    push_penalty(text, of);
    push_total(text, of);
    text.push_str("}");
}

/// Writes the name and the place.
#[tactic(auto, unfolding(crate::specs::Finals::final_place_members))]
fn push_place(text: &mut AnswerText, name: &Name, of: &FinalPoints)
    requires { array_string_len text.old + MOST_PLACE ≤ ANSWER_ROOM }
    ensures bytes { text.new.bytes
        ≡ text.old.bytes ++ spec.final_place_members name.now.bytes of.now }
    ensures len { array_string_len text.new ≤ array_string_len text.old + MOST_PLACE }
{
    push_quoted(text, "{\"name\":", name);
    push_natural(text, ",\"place\":", u32::from(of.place));
}

/// Writes the points and the bonus.
#[tactic(auto, unfolding(crate::specs::Finals::held_members))]
fn push_held(text: &mut AnswerText, of: &FinalPoints)
    requires { array_string_len text.old + MOST_HELD ≤ ANSWER_ROOM }
    ensures bytes { text.new.bytes ≡ text.old.bytes ++ spec.held_members of.now }
    ensures len { array_string_len text.new ≤ array_string_len text.old + MOST_HELD }
{
    push_signed(text, ",\"points\":", of.points);
    push_signed(text, ",\"bonus\":", of.bonus);
}

#[tactic(auto, unfolding(crate::specs::Finals::penalty_member))]
fn push_penalty(text: &mut AnswerText, of: &FinalPoints)
    requires { array_string_len text.old + MOST_PENALTY ≤ ANSWER_ROOM }
    ensures bytes { text.new.bytes ≡ text.old.bytes ++ spec.penalty_member of.now }
    ensures len { array_string_len text.new ≤ array_string_len text.old + MOST_PENALTY }
{
    push_natural(text, ",\"penalty\":", of.penalty);
}

/// Writes the final points.
#[tactic(auto, unfolding(crate::specs::Finals::total_member))]
fn push_total(text: &mut AnswerText, of: &FinalPoints)
    requires { array_string_len text.old + MOST_TOTAL ≤ ANSWER_ROOM }
    ensures bytes { text.new.bytes ≡ text.old.bytes ++ spec.total_member of.now }
    ensures len { array_string_len text.new ≤ array_string_len text.old + MOST_TOTAL }
{
    push_signed(text, ",\"total\":", of.total);
}
