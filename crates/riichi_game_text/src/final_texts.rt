//! The texts of the end of a game.
ghost use Rattle.std.specs.Prelude.{◌≡◌, ◌+◌, ◌*◌, ◌≤◌, ◌++◌};
ghost use Rattle.arrayvec.specs.ArrayString.{array_string_len};
ghost use Rattle.riichi_game_text.specs.Names.{names_in};
ghost use Rattle.riichi_game_text.specs.Answers.{signed_text};
ghost use Rattle.riichi_game_text.specs.FinalTexts as spec;

use crate::name::{MOST_NAME, Name, Names};
use riichi_places::FinalPoints;
use riichi_table::ByPlayer;
use riichi_text::{ANSWER_ROOM, AnswerText, MOST_U8, MOST_U32, MOST_U64, push_number};

const MOST_I64: usize = "-9223372036854775808".len();

const MOST_THOUSANDS: usize = "-".len() + MOST_U64 + ".".len() + MOST_U64;

const MOST_PLACE: usize = "final ".len()
    + MOST_U8
    + " ".len()
    + MOST_NAME
    + " points ".len()
    + MOST_I64;

const MOST_TOTAL: usize = " bonus ".len()
    + MOST_THOUSANDS
    + " penalty ".len()
    + MOST_U32
    + " total ".len()
    + MOST_THOUSANDS;

/// The bytes of the longest line of a player.
pub const MOST_FINAL: usize = MOST_PLACE + MOST_TOTAL;

/// The bytes of the lines of the players who have a place, with the ends of those before them.
const MOST_PLACED: usize = 4 * ("\n".len() + MOST_FINAL);

const MOST_LEFT: usize = "\nleft ".len() + MOST_U8;

/// The bytes of the longest end of a game.
pub const MOST_OVER: usize = "over".len() + MOST_LEFT + 4 * MOST_PLACED;

/// Writes the end of a game that is over, without the end of its last line: a line for the sticks that lie, and a line for each
/// player, by place and then first seat.
pub fn push_over(text: &mut AnswerText, names: &Names, sticks: u8, finals: &ByPlayer<FinalPoints>)
    requires { array_string_len text.old + MOST_OVER ≤ ANSWER_ROOM }
    ensures bytes { text.new.bytes
        ≡ text.old.bytes ++ spec.over_text (names_in names.now) sticks finals.now }
    ensures len { array_string_len text.new ≤ array_string_len text.old + MOST_OVER }
{
    text.push_str("over");
    push_sticks_left(text, sticks);
    push_placed(text, names, finals, 1);
    push_placed(text, names, finals, 2);
    push_placed(text, names, finals, 3);
    push_placed(text, names, finals, 4);
}

#[tactic(auto, unfolding(crate::specs::FinalTexts::sticks_left_text))]
fn push_sticks_left(text: &mut AnswerText, sticks: u8)
    requires { array_string_len text.old + MOST_LEFT ≤ ANSWER_ROOM }
    ensures bytes { text.new.bytes ≡ text.old.bytes ++ spec.sticks_left_text sticks }
    ensures len { array_string_len text.new ≤ array_string_len text.old + MOST_LEFT }
{
    if sticks > 0 {
        text.push_str("\nleft ");
        push_number(text, sticks);
    }
}

/// Writes the lines of the players who have a place.
#[tactic(auto, unfolding(crate::specs::FinalTexts::placed_text))]
fn push_placed(text: &mut AnswerText, names: &Names, finals: &ByPlayer<FinalPoints>, place: u8)
    requires { array_string_len text.old + MOST_PLACED ≤ ANSWER_ROOM }
    ensures bytes { text.new.bytes
        ≡ text.old.bytes ++ spec.placed_text (names_in names.now) finals.now place }
    ensures len { array_string_len text.new ≤ array_string_len text.old + MOST_PLACED }
{
    push_if_placed(text, &names.names.first, &finals.first, place);
    push_if_placed(text, &names.names.second, &finals.second, place);
    push_if_placed(text, &names.names.third, &finals.third, place);
    push_if_placed(text, &names.names.fourth, &finals.fourth, place);
}

#[tactic(auto, unfolding(crate::specs::FinalTexts::line_if_placed))]
fn push_if_placed(text: &mut AnswerText, name: &Name, of: &FinalPoints, place: u8)
    requires { array_string_len text.old + 1 + MOST_FINAL ≤ ANSWER_ROOM }
    ensures bytes { text.new.bytes
        ≡ text.old.bytes ++ spec.line_if_placed place name.now.bytes of.now }
    ensures len { array_string_len text.new ≤ array_string_len text.old + 1 + MOST_FINAL }
{
    if of.place == place {
        text.push_str("\n");
        push_final(text, name, of);
    }
}

/// Writes the line of a player, without its end.
fn push_final(text: &mut AnswerText, name: &Name, of: &FinalPoints)
    requires { array_string_len text.old + MOST_FINAL ≤ ANSWER_ROOM }
    ensures bytes { text.new.bytes ≡ text.old.bytes ++ spec.final_text name.now.bytes of.now }
    ensures len { array_string_len text.new ≤ array_string_len text.old + MOST_FINAL }
{
    push_place_part(text, name, of);
    push_total(text, of);
}

/// Writes the place, the name and the points.
#[tactic(auto, unfolding(crate::specs::FinalTexts::place_part_text))]
fn push_place_part(text: &mut AnswerText, name: &Name, of: &FinalPoints)
    requires { array_string_len text.old + MOST_PLACE ≤ ANSWER_ROOM }
    ensures bytes { text.new.bytes ≡ text.old.bytes ++ spec.place_part_text name.now.bytes of.now }
    ensures len { array_string_len text.new ≤ array_string_len text.old + MOST_PLACE }
{
    text.push_str("final ");
    push_number(text, of.place);
    text.push_str(" ");
    text.push_str(name.as_str());
    text.push_str(" points ");
    push_points(text, of.points);
}

#[tactic(auto, unfolding(crate::specs::Answers::signed_text))]
fn push_points(text: &mut AnswerText, points: i64)
    requires { array_string_len text.old + MOST_I64 ≤ ANSWER_ROOM }
    ensures bytes { text.new.bytes ≡ text.old.bytes ++ signed_text points }
    ensures len { array_string_len text.new ≤ array_string_len text.old + MOST_I64 }
{
    push_number(text, points);
}

/// Writes the bonus, the penalty and the final points.
#[tactic(auto, unfolding(crate::specs::FinalTexts::total_text))]
fn push_total(text: &mut AnswerText, of: &FinalPoints)
    requires { array_string_len text.old + MOST_TOTAL ≤ ANSWER_ROOM }
    ensures bytes { text.new.bytes ≡ text.old.bytes ++ spec.total_text of.now }
    ensures len { array_string_len text.new ≤ array_string_len text.old + MOST_TOTAL }
{
    text.push_str(" bonus ");
    push_thousands(text, of.bonus);
    text.push_str(" penalty ");
    push_number(text, of.penalty);
    text.push_str(" total ");
    push_thousands(text, of.total);
}

/// Writes points as thousands with one decimal, with a sign but for none.
#[tactic(auto, unfolding(crate::specs::FinalTexts::thousands_text))]
fn push_thousands(text: &mut AnswerText, points: i64)
    requires { array_string_len text.old + MOST_THOUSANDS ≤ ANSWER_ROOM }
    ensures bytes { text.new.bytes ≡ text.old.bytes ++ spec.thousands_text points }
    ensures len { array_string_len text.new ≤ array_string_len text.old + MOST_THOUSANDS }
{
    if points < 0 {
        text.push_str("-");
    } else if points > 0 {
        text.push_str("+");
    }
    let points = points.unsigned_abs();
    push_number(text, points / 1000);
    text.push_str(".");
    push_number(text, points % 1000 / 100);
}
