//! The texts of the answers to a game.
ghost use Rattle.std.specs.Prelude.{◌≡◌, ◌+◌, ◌≤◌, ◌++◌, ◌-ℤ◌, length, codes};
ghost use Rattle.arrayvec.specs.ArrayString.{array_string_len};
ghost use Rattle.riichi_table.specs.Players.{of_player};
ghost use Rattle.riichi_game_text.specs.Names.{names_in};
ghost use Rattle.riichi_game_text.specs.Answers as spec;

use crate::name::{MOST_NAME, Name, Names};
use riichi_hand::Wind;
use riichi_table::{ByPlayer, GameState, Player};
use riichi_text::{ANSWER_ROOM, AnswerText, MOST_U8, MOST_U32, push_number};

/// The bytes of the longest number of points of a player, with the sign of a change.
const MOST_CHANGE: usize = "+".len() + "-9223372036854775808".len();

const MOST_POINTS: usize = "-2147483648".len();

/// The bytes of the longest answer to the line `game`.
pub const MOST_BEGUN: usize = "game".len()
    + 4 * (" ".len() + MOST_NAME)
    + " start ".len()
    + MOST_U32;

const MOST_TABLE: usize = "south".len()
    + " ".len()
    + MOST_U8
    + " counters ".len()
    + MOST_U8
    + " sticks ".len()
    + MOST_U8;

const MOST_CHANGES: usize = " changes".len() + 4 * (" ".len() + MOST_CHANGE);

const MOST_POINTS_OF_ALL: usize = " points".len() + 4 * (" ".len() + MOST_POINTS);

/// The bytes of the longest answer to a deal.
pub const MOST_DEAL: usize = MOST_TABLE + MOST_CHANGES + MOST_POINTS_OF_ALL;

/// The bytes of the longest state.
pub const MOST_STANDS: usize = "stands ".len() + MOST_TABLE + MOST_POINTS_OF_ALL;

/// The bytes of the longest answer to a penalty.
pub const MOST_PENALTY: usize = "penalty ".len() + MOST_NAME + " ".len() + MOST_U32;

/// Writes the answer to the line `game`, without the line's end.
pub fn push_begun(text: &mut AnswerText, names: &Names, start: u32)
    requires { array_string_len text.old + MOST_BEGUN ≤ ANSWER_ROOM }
    ensures bytes { text.new.bytes
        ≡ text.old.bytes ++ spec.begun_text (names_in names.now) start }
    ensures len { array_string_len text.new ≤ array_string_len text.old + MOST_BEGUN }
{
    text.push_str("game");
    push_spaced(text, &names.names.first);
    push_spaced(text, &names.names.second);
    push_spaced(text, &names.names.third);
    push_spaced(text, &names.names.fourth);
    text.push_str(" start ");
    push_number(text, start);
}

/// Writes a name behind a space.
fn push_spaced(text: &mut AnswerText, name: &Name)
    requires { array_string_len text.old + 1 + MOST_NAME ≤ ANSWER_ROOM }
    ensures bytes { text.new.bytes ≡ text.old.bytes ++ (codes " " ++ name.now.bytes) }
    ensures len { array_string_len text.new ≤ array_string_len text.old + 1 + MOST_NAME }
{
    text.push_str(" ");
    text.push_str(name.as_str());
}

fn round_text(round: Wind) -> &'static str
    ensures value { result.now ≡ spec.round_text round }
    ensures short { length result.now ≤ 5 }
{
    match round {
        Wind::East => "east",
        Wind::South => "south",
        Wind::West => "west",
        Wind::North => "north",
    }
}

fn player_number(player: Player) -> u8
    ensures { result ≡ spec.player_number player }
{
    match player {
        Player::First => 1,
        Player::Second => 2,
        Player::Third => 3,
        Player::Fourth => 4,
    }
}

/// Writes round, dealer, counters and sticks.
fn push_table(text: &mut AnswerText, state: &GameState)
    requires { array_string_len text.old + MOST_TABLE ≤ ANSWER_ROOM }
    ensures bytes { text.new.bytes ≡ text.old.bytes ++ spec.table_text state.now }
    ensures len { array_string_len text.new ≤ array_string_len text.old + MOST_TABLE }
{
    text.push_str(round_text(state.round));
    text.push_str(" ");
    push_number(text, player_number(state.dealer));
    text.push_str(" counters ");
    push_number(text, state.counters);
    text.push_str(" sticks ");
    push_number(text, state.sticks);
}

/// What the points of each player change.
pub fn point_changes(before: &ByPlayer<i32>, after: &ByPlayer<i32>) -> ByPlayer<i64>
    ensures { result ≡ spec.point_changes before.now after.now }
{
    ByPlayer {
        first: point_change(before, after, Player::First),
        second: point_change(before, after, Player::Second),
        third: point_change(before, after, Player::Third),
        fourth: point_change(before, after, Player::Fourth),
    }
}

fn point_change(before: &ByPlayer<i32>, after: &ByPlayer<i32>, player: Player) -> i64
    ensures { result ≡ of_player after.now player -ℤ of_player before.now player }
{
    i64::from(after.get(player)) - i64::from(before.get(player))
}

/// Writes what a player's points change, behind a space.
fn push_points_change(
    text: &mut AnswerText,
    before: &ByPlayer<i32>,
    after: &ByPlayer<i32>,
    player: Player,
)
    requires { array_string_len text.old + 1 + MOST_CHANGE ≤ ANSWER_ROOM }
    ensures bytes { text.new.bytes ≡ text.old.bytes ++ (codes " "
        ++ spec.points_change_text (of_player after.now player -ℤ of_player before.now player)) }
    ensures len { array_string_len text.new ≤ array_string_len text.old + 1 + MOST_CHANGE }
{
    text.push_str(" ");
    push_signed(
        text,
        i64::from(after.get(player)) - i64::from(before.get(player)),
    );
}

/// Writes a change with its sign.
#[tactic(auto, unfolding(crate::specs::Answers::points_change_text))]
fn push_signed(text: &mut AnswerText, change: i64)
    requires { array_string_len text.old + MOST_CHANGE ≤ ANSWER_ROOM }
    ensures bytes { text.new.bytes ≡ text.old.bytes ++ spec.points_change_text change }
    ensures len { array_string_len text.new ≤ array_string_len text.old + MOST_CHANGE }
{
    if change > 0 {
        text.push_str("+");
    }
    push_number(text, change);
}

fn push_changes(text: &mut AnswerText, before: &ByPlayer<i32>, after: &ByPlayer<i32>)
    requires { array_string_len text.old + MOST_CHANGES ≤ ANSWER_ROOM }
    ensures bytes { text.new.bytes ≡ text.old.bytes ++ spec.changes_text before.now after.now }
    ensures len { array_string_len text.new ≤ array_string_len text.old + MOST_CHANGES }
{
    text.push_str(" changes");
    push_points_change(text, before, after, Player::First);
    push_points_change(text, before, after, Player::Second);
    push_points_change(text, before, after, Player::Third);
    push_points_change(text, before, after, Player::Fourth);
}

/// Writes a player's points behind a space.
#[tactic(auto, unfolding(crate::specs::Answers::signed_text))]
fn push_held(text: &mut AnswerText, points: &ByPlayer<i32>, player: Player)
    requires { array_string_len text.old + 1 + MOST_POINTS ≤ ANSWER_ROOM }
    ensures bytes { text.new.bytes
        ≡ text.old.bytes ++ (codes " " ++ spec.signed_text (of_player points.now player)) }
    ensures len { array_string_len text.new ≤ array_string_len text.old + 1 + MOST_POINTS }
{
    text.push_str(" ");
    push_number(text, points.get(player));
}

fn push_points(text: &mut AnswerText, points: &ByPlayer<i32>)
    requires { array_string_len text.old + MOST_POINTS_OF_ALL ≤ ANSWER_ROOM }
    ensures bytes { text.new.bytes ≡ text.old.bytes ++ spec.points_text points.now }
    ensures len { array_string_len text.new ≤ array_string_len text.old + MOST_POINTS_OF_ALL }
{
    text.push_str(" points");
    push_held(text, points, Player::First);
    push_held(text, points, Player::Second);
    push_held(text, points, Player::Third);
    push_held(text, points, Player::Fourth);
}

/// Writes the answer to a deal, a dead hand or a written state, without the line's end: the state before it, and the points after it.
pub fn push_deal(text: &mut AnswerText, before: &GameState, after: &ByPlayer<i32>)
    requires { array_string_len text.old + MOST_DEAL ≤ ANSWER_ROOM }
    ensures bytes { text.new.bytes ≡ text.old.bytes ++ spec.deal_text before.now after.now }
    ensures len { array_string_len text.new ≤ array_string_len text.old + MOST_DEAL }
{
    push_table(text, before);
    push_changes(text, &before.points, after);
    push_points(text, after);
}

/// Writes the state of a game that isn't over, as it can be typed, without the line's end.
pub fn push_stands(text: &mut AnswerText, state: &GameState)
    requires { array_string_len text.old + MOST_STANDS ≤ ANSWER_ROOM }
    ensures bytes { text.new.bytes ≡ text.old.bytes ++ spec.stands_text state.now }
    ensures len { array_string_len text.new ≤ array_string_len text.old + MOST_STANDS }
{
    text.push_str("stands ");
    push_table(text, state);
    push_points(text, &state.points);
}

/// Writes the answer to a penalty, without the line's end.
pub fn push_penalty(text: &mut AnswerText, name: &Name, points: u32)
    requires { array_string_len text.old + MOST_PENALTY ≤ ANSWER_ROOM }
    ensures bytes { text.new.bytes ≡ text.old.bytes ++ spec.penalty_text name.now.bytes points }
    ensures len { array_string_len text.new ≤ array_string_len text.old + MOST_PENALTY }
{
    text.push_str("penalty ");
    text.push_str(name.as_str());
    text.push_str(" ");
    push_number(text, points);
}
