//! The last rows of a sheet: places and final points, and lines to be signed.
ghost use Rattle.std.specs.Prelude.{◌≡◌, ◌+◌, ◌*◌, ◌≤◌, ◌++◌, length};
ghost use Rattle.arrayvec.specs.ArrayString.{array_string_len};
ghost use Rattle.riichi_table.specs.Players.{of_player};
ghost use Rattle.riichi_game_text.specs.Names.{names_in};
ghost use Rattle.riichi_game_sheet.specs.Ends as spec;

use crate::cells::{MOST_ELLIPSIS, MOST_TOLD, push_left};
use crate::rows::{MOST_LABEL, MOST_ROW, Written, push_row};
use arrayvec::ArrayString;
use riichi_game_text::{MOST_NAME, Names};
use riichi_places::FinalPoints;
use riichi_table::{ByPlayer, Player};
use riichi_text::{ANSWER_ROOM, AnswerText, MOST_U8, push_number};

/// The columns of a name that is signed for: those of a row without the line to sign on.
const SIGNED: usize = 40;

/// The line to sign on.
const SIGNED_ON: &str = "________________________________________";

const MOST_LEFT: usize = "sticks left: ".len() + MOST_U8;

const MOST_ENDED: usize = MOST_ROW + "\n".len();

const MOST_SIGNATURE: usize = "\n".len() + SIGNED + MOST_NAME + MOST_ELLIPSIS + SIGNED_ON.len();

/// The bytes of the longest end of a game.
pub const MOST_OVER: usize = 5 * MOST_ENDED + 4 * MOST_SIGNATURE + 3 * "\n".len();

/// What the final points of a player are made of, and the place.
#[derive(Clone, Copy, Debug, PartialEq, Eq)]
pub(crate) enum Part {
    /// The points with the sticks of the end.
    Points,
    Bonus,
    Penalty,
    /// The final points.
    Total,
    Place,
}

/// Writes the end of a game that is over: the points with the sticks of the end, what the final points are made of, the places, and a
/// line for each player to sign.
pub fn push_over(text: &mut AnswerText, names: &Names, sticks: u8, finals: &ByPlayer<FinalPoints>)
    requires { array_string_len text.old + MOST_OVER ≤ ANSWER_ROOM }
    ensures bytes { text.new.bytes
        ≡ text.old.bytes ++ spec.over_rows (names_in names.now) sticks finals.now }
    ensures len { array_string_len text.new ≤ array_string_len text.old + MOST_OVER }
{
    push_final_rows(text, sticks, finals);
    push_signature(text, names, Player::First);
    text.push_str("\n");
    push_signature(text, names, Player::Second);
    text.push_str("\n");
    push_signature(text, names, Player::Third);
    text.push_str("\n");
    push_signature(text, names, Player::Fourth);
}

#[tactic(auto, unfolding(crate::specs::Ends::final_rows))]
fn push_final_rows(text: &mut AnswerText, sticks: u8, finals: &ByPlayer<FinalPoints>)
    requires { array_string_len text.old + 5 * MOST_ENDED ≤ ANSWER_ROOM }
    ensures bytes { text.new.bytes ≡ text.old.bytes ++ spec.final_rows sticks finals.now }
    ensures len { array_string_len text.new ≤ array_string_len text.old + 5 * MOST_ENDED }
{
    let left = sticks_left(sticks);
    push_ended(
        text,
        "end",
        left.as_str(),
        Written::Points,
        finals,
        Part::Points,
    );
    push_ended(text, "bonus", "", Written::Thousands, finals, Part::Bonus);
    push_ended(text, "penalty", "", Written::Points, finals, Part::Penalty);
    push_ended(text, "total", "", Written::Thousands, finals, Part::Total);
    push_ended(text, "place", "", Written::Points, finals, Part::Place);
}

/// How many sticks lie, where some do.
fn sticks_left(sticks: u8) -> ArrayString<MOST_LEFT>
    ensures { result.bytes ≡ spec.sticks_left sticks }
{
    let mut left = ArrayString::new();
    if sticks > 0 {
        left.push_str("sticks left: ");
        push_number(&mut left, sticks);
    }
    left
}

/// Writes a part for each of the four as a row, and its line feed.
#[tactic(auto, unfolding(crate::specs::Ends::ended_row))]
fn push_ended(
    text: &mut AnswerText,
    label: &str,
    told: &str,
    written: Written,
    finals: &ByPlayer<FinalPoints>,
    part: Part,
)
    requires room { array_string_len text.old + MOST_ENDED ≤ ANSWER_ROOM }
    requires label { length label.now ≤ MOST_LABEL }
    requires told { length told.now ≤ MOST_TOLD }
    ensures bytes { text.new.bytes
        ≡ text.old.bytes ++ spec.ended_row label.now told.now written finals.now part }
    ensures len { array_string_len text.new ≤ array_string_len text.old + MOST_ENDED }
{
    push_row(text, label, told, written, &parts(finals, part));
    text.push_str("\n");
}

/// A part for each of the four.
fn parts(finals: &ByPlayer<FinalPoints>, part: Part) -> ByPlayer<i64>
    ensures { result ≡ spec.parts finals.now part }
{
    ByPlayer {
        first: part_of(&finals.first, part),
        second: part_of(&finals.second, part),
        third: part_of(&finals.third, part),
        fourth: part_of(&finals.fourth, part),
    }
}

fn part_of(of: &FinalPoints, part: Part) -> i64
    ensures { result ≡ spec.part_shown of.now part }
{
    match part {
        Part::Points => of.points,
        Part::Bonus => of.bonus,
        Part::Penalty => i64::from(of.penalty),
        Part::Total => of.total,
        Part::Place => i64::from(of.place),
    }
}

/// Writes the name of a player and the line to sign on, below an empty row.
#[tactic(auto, unfolding(crate::specs::Ends::signature))]
fn push_signature(text: &mut AnswerText, names: &Names, player: Player)
    requires { array_string_len text.old + MOST_SIGNATURE ≤ ANSWER_ROOM }
    ensures bytes { text.new.bytes
        ≡ text.old.bytes ++ spec.signature (of_player (names_in names.now) player) }
    ensures len { array_string_len text.new ≤ array_string_len text.old + MOST_SIGNATURE }
{
    text.push_str("\n");
    push_left(text, SIGNED, names.get(player).as_str());
    text.push_str(SIGNED_ON);
}
