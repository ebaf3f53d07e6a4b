//! How the final points are made, in words.
ghost use Rattle.std.specs.Prelude.{◌≡◌, ◌+◌, ◌*◌, ◌≤◌, ◌++◌, ◌≤ℤ◌, pos, negsuc};
ghost use Rattle.arrayvec.specs.ArrayString.{array_string_len};
ghost use Rattle.riichi_places.specs.Bonuses.{place_bonus, returned};
ghost use Rattle.riichi_game_text.specs.Answers.{signed_text, points_change_text};
ghost use Rattle.riichi_game_text.specs.Names.{names_in};
ghost use Rattle.riichi_game_reasons.specs.FinalSums as spec;

use crate::end_words::push_name_if;
use riichi_game_text::{MOST_NAME, Name, Names};
use riichi_places::FinalPoints;
use riichi_table::{ByPlayer, Player, TableRules};
use riichi_text::{ANSWER_ROOM, AnswerText, MOST_U8, MOST_U32, push_number};

/// The bytes of the longest amount with its sign.
const MOST_AMOUNT: usize = "+".len() + "-9223372036854775808".len();

const MOST_PLACES: usize = 4 * (" ".len() + MOST_U8);

const MOST_SHARERS: usize = 4 * (" ".len() + MOST_NAME);

const MOST_BONUSES: usize = 4 * (" ".len() + MOST_AMOUNT);

/// The bytes of the longest line of a place that several have, with its end.
const MOST_SHARED: usize = "  places".len()
    + MOST_PLACES
    + " shared by".len()
    + MOST_SHARERS
    + ":".len()
    + MOST_BONUSES
    + " in ".len()
    + MOST_U8
    + " parts\n".len();

const MOST_OVER_RETURN: usize = ": (".len() + MOST_AMOUNT + " - ".len() + MOST_U32;

const MOST_WITH_BONUS: usize = ") + bonus ".len()
    + MOST_AMOUNT
    + " - penalty ".len()
    + MOST_U32
    + " = ".len()
    + MOST_AMOUNT;

/// The bytes of the longest line of a player.
const MOST_SUM: usize = "  ".len() + MOST_NAME + MOST_OVER_RETURN + MOST_WITH_BONUS;

const MOST_SUMS: usize = 4 * MOST_SUM + 3 * "\n".len();

/// The bytes of all that is said of final points.
pub const MOST_FINAL_REASONS: usize = 4 * MOST_SHARED + MOST_SUMS;

/// Writes how the final points are made, without the end of the last line: a line for each place that several share, and one for each
/// player by the first seat.
pub fn push_final_reasons(
    text: &mut AnswerText,
    names: &Names,
    rules: &TableRules,
    finals: &ByPlayer<FinalPoints>,
)
    requires { array_string_len text.old + MOST_FINAL_REASONS ≤ ANSWER_ROOM }
    ensures bytes { text.new.bytes
        ≡ text.old.bytes ++ spec.final_reasons (names_in names.now) rules.now finals.now }
    ensures len { array_string_len text.new ≤ array_string_len text.old + MOST_FINAL_REASONS }
{
    push_all_shared(text, names, rules, finals);
    push_sums(text, names, rules.returns, finals);
}

/// Writes a line for each place that several have.
#[tactic(auto, unfolding(crate::specs::FinalSums::shared_lines))]
fn push_all_shared(
    text: &mut AnswerText,
    names: &Names,
    rules: &TableRules,
    finals: &ByPlayer<FinalPoints>,
)
    requires { array_string_len text.old + 4 * MOST_SHARED ≤ ANSWER_ROOM }
    ensures bytes { text.new.bytes
        ≡ text.old.bytes ++ spec.shared_lines (names_in names.now) rules.now finals.now }
    ensures len { array_string_len text.new ≤ array_string_len text.old + 4 * MOST_SHARED }
{
    push_if_shared(text, names, rules, finals, 1);
    push_if_shared(text, names, rules, finals, 2);
    push_if_shared(text, names, rules, finals, 3);
    push_if_shared(text, names, rules, finals, 4);
}

/// Writes how the final points of each player add up, without the end of the last line.
#[tactic(auto, unfolding(crate::specs::FinalSums::sum_lines))]
fn push_sums(text: &mut AnswerText, names: &Names, returns: u32, finals: &ByPlayer<FinalPoints>)
    requires { array_string_len text.old + MOST_SUMS ≤ ANSWER_ROOM }
    ensures bytes { text.new.bytes
        ≡ text.old.bytes ++ spec.sum_lines (names_in names.now) returns finals.now }
    ensures len { array_string_len text.new ≤ array_string_len text.old + MOST_SUMS }
{
    push_sum(text, &names.get(Player::First), returns, &finals.first);
    text.push_str("\n");
    push_sum(text, &names.get(Player::Second), returns, &finals.second);
    text.push_str("\n");
    push_sum(text, &names.get(Player::Third), returns, &finals.third);
    text.push_str("\n");
    push_sum(text, &names.get(Player::Fourth), returns, &finals.fourth);
}

/// Writes the line of a place, where several have it.
#[tactic(auto, unfolding(crate::specs::FinalSums::shared_if))]
fn push_if_shared(
    text: &mut AnswerText,
    names: &Names,
    rules: &TableRules,
    finals: &ByPlayer<FinalPoints>,
    place: u8,
)
    requires room { array_string_len text.old + MOST_SHARED ≤ ANSWER_ROOM }
    requires place { place ≤ 4 }
    ensures bytes { text.new.bytes
        ≡ text.old.bytes ++ spec.shared_if (names_in names.now) rules.now finals.now place }
    ensures len { array_string_len text.new ≤ array_string_len text.old + MOST_SHARED }
{
    let number = sharers_at(finals, place);
    if number > 1 {
        push_shared(text, names, rules, finals, place, number);
    }
}

/// How many have a place.
fn sharers_at(finals: &ByPlayer<FinalPoints>, place: u8) -> u8
    ensures value { result ≡ spec.sharers_at finals.now place }
    ensures most { result ≤ 4 }
{
    let sharers = ByPlayer {
        first: finals.first.place == place,
        second: finals.second.place == place,
        third: finals.third.place == place,
        fourth: finals.fourth.place == place,
    };
    sharers.count()
}

/// Writes who share the bonuses of which places.
fn push_shared(
    text: &mut AnswerText,
    names: &Names,
    rules: &TableRules,
    finals: &ByPlayer<FinalPoints>,
    place: u8,
    number: u8,
)
    requires room { array_string_len text.old + MOST_SHARED ≤ ANSWER_ROOM }
    requires place { place ≤ 4 }
    requires number { number ≤ 4 }
    ensures bytes { text.new.bytes
        ≡ text.old.bytes ++ spec.shared_line (names_in names.now) rules.now finals.now place number }
    ensures len { array_string_len text.new ≤ array_string_len text.old + MOST_SHARED }
{
    text.push_str("  places");
    push_places(text, place, number);
    text.push_str(" shared by");
    push_sharers(text, names, finals, place);
    text.push_str(":");
    push_bonuses(text, rules, place, number);
    text.push_str(" in ");
    push_number(text, number);
    text.push_str(" parts\n");
}

/// Writes so many places from the first one on.
fn push_places(text: &mut AnswerText, first: u8, number: u8)
    requires room { array_string_len text.old + MOST_PLACES ≤ ANSWER_ROOM }
    requires place { first ≤ 4 }
    requires number { number ≤ 4 }
    ensures bytes { text.new.bytes ≡ text.old.bytes ++ spec.places_words first number }
    ensures len { array_string_len text.new ≤ array_string_len text.old + MOST_PLACES }
{
    push_place_if(text, is_taken_by(first, number, 1), 1);
    push_place_if(text, is_taken_by(first, number, 2), 2);
    push_place_if(text, is_taken_by(first, number, 3), 3);
    push_place_if(text, is_taken_by(first, number, 4), 4);
}

/// Whether a place is one of so many from the first one on.
fn is_taken_by(first: u8, number: u8, place: u8) -> bool
    requires first { first ≤ 4 }
    requires number { number ≤ 4 }
    ensures { result ≡ spec.is_taken_by first number place }
{
    first <= place && place < first + number
}

fn push_place_if(text: &mut AnswerText, holds: bool, place: u8)
    requires { array_string_len text.old + 1 + MOST_U8 ≤ ANSWER_ROOM }
    ensures bytes { text.new.bytes ≡ text.old.bytes ++ spec.place_if holds place }
    ensures len { array_string_len text.new ≤ array_string_len text.old + 1 + MOST_U8 }
{
    if holds {
        text.push_str(" ");
        push_number(text, place);
    }
}

/// Writes the names of those who have a place.
fn push_sharers(text: &mut AnswerText, names: &Names, finals: &ByPlayer<FinalPoints>, place: u8)
    requires { array_string_len text.old + MOST_SHARERS ≤ ANSWER_ROOM }
    ensures bytes { text.new.bytes
        ≡ text.old.bytes ++ spec.sharer_names (names_in names.now) finals.now place }
    ensures len { array_string_len text.new ≤ array_string_len text.old + MOST_SHARERS }
{
    push_name_if(text, finals.first.place == place, &names.get(Player::First));
    push_name_if(
        text,
        finals.second.place == place,
        &names.get(Player::Second),
    );
    push_name_if(text, finals.third.place == place, &names.get(Player::Third));
    push_name_if(
        text,
        finals.fourth.place == place,
        &names.get(Player::Fourth),
    );
}

/// Writes the bonuses of so many places from the first one on.
fn push_bonuses(text: &mut AnswerText, rules: &TableRules, first: u8, number: u8)
    requires room { array_string_len text.old + MOST_BONUSES ≤ ANSWER_ROOM }
    requires place { first ≤ 4 }
    requires number { number ≤ 4 }
    ensures bytes { text.new.bytes ≡ text.old.bytes ++ spec.bonuses_words rules.now first number }
    ensures len { array_string_len text.new ≤ array_string_len text.old + MOST_BONUSES }
{
    push_bonus_if(text, rules, is_taken_by(first, number, 1), 1);
    push_bonus_if(text, rules, is_taken_by(first, number, 2), 2);
    push_bonus_if(text, rules, is_taken_by(first, number, 3), 3);
    push_bonus_if(text, rules, is_taken_by(first, number, 4), 4);
}

fn push_bonus_if(text: &mut AnswerText, rules: &TableRules, holds: bool, place: u8)
    requires { array_string_len text.old + 1 + MOST_AMOUNT ≤ ANSWER_ROOM }
    ensures bytes { text.new.bytes ≡ text.old.bytes ++ spec.bonus_if rules.now holds place }
    ensures len { array_string_len text.new ≤ array_string_len text.old + 1 + MOST_AMOUNT }
{
    if holds {
        text.push_str(" ");
        push_gain(text, bonus_at(rules, place));
    }
}

/// Writes an amount with its sign.
#[tactic(auto, unfolding(riichi_game_text::specs::Answers::points_change_text))]
fn push_gain(text: &mut AnswerText, points: i64)
    requires { array_string_len text.old + MOST_AMOUNT ≤ ANSWER_ROOM }
    ensures bytes { text.new.bytes ≡ text.old.bytes ++ points_change_text points }
    ensures len { array_string_len text.new ≤ array_string_len text.old + MOST_AMOUNT }
{
    if points > 0 {
        text.push_str("+");
    }
    push_number(text, points);
}

/// The bonus of a place.
#[tactic(auto, unfolding(riichi_places::specs::Bonuses::place_bonus))]
fn bonus_at(rules: &TableRules, place: u8) -> i64
    ensures { result ≡ place_bonus rules.now place }
{
    let uma = &rules.uma;
    match place {
        1 => i64::from(uma.first) + beyond_start(rules),
        2 => i64::from(uma.second),
        3 => i64::from(uma.third),
        _ => i64::from(uma.fourth),
    }
}

/// What the four return beyond what they started with.
fn beyond_start(rules: &TableRules) -> i64
    ensures value { result ≡ returned rules.now }
    ensures least { negsuc 17179869183 ≤ℤ result }
    ensures most { result ≤ℤ pos 17179869184 }
{
    // (the numbers of rules that are read whole are known to be in their range)
    let TableRules { start, returns, .. } = *rules;
    4 * i64::from(returns) - 4 * i64::from(start)
}

/// Writes how the final points of a player add up, without the line's end.
#[tactic(auto, unfolding(crate::specs::FinalSums::sum_line))]
fn push_sum(text: &mut AnswerText, name: &Name, returns: u32, of: &FinalPoints)
    requires { array_string_len text.old + MOST_SUM ≤ ANSWER_ROOM }
    ensures bytes { text.new.bytes
        ≡ text.old.bytes ++ spec.sum_line name.now.bytes returns of.now }
    ensures len { array_string_len text.new ≤ array_string_len text.old + MOST_SUM }
{
    text.push_str("  ");
    text.push_str(name.as_str());
    push_over_return(text, of.points, returns);
    push_with_bonus(text, of);
}

/// Writes the bonus, the penalty and the total behind these.
fn push_with_bonus(text: &mut AnswerText, of: &FinalPoints)
    requires { array_string_len text.old + MOST_WITH_BONUS ≤ ANSWER_ROOM }
    ensures bytes { text.new.bytes ≡ text.old.bytes ++ spec.with_bonus of.now }
    ensures len { array_string_len text.new ≤ array_string_len text.old + MOST_WITH_BONUS }
{
    text.push_str(") + bonus ");
    push_amount(text, of.bonus);
    text.push_str(" - penalty ");
    push_number(text, of.penalty);
    text.push_str(" = ");
    push_amount(text, of.total);
}

/// Writes the points of a player less the return.
fn push_over_return(text: &mut AnswerText, points: i64, returns: u32)
    requires { array_string_len text.old + MOST_OVER_RETURN ≤ ANSWER_ROOM }
    ensures bytes { text.new.bytes ≡ text.old.bytes ++ spec.over_return points returns }
    ensures len { array_string_len text.new ≤ array_string_len text.old + MOST_OVER_RETURN }
{
    text.push_str(": (");
    push_amount(text, points);
    text.push_str(" - ");
    push_number(text, returns);
}

#[tactic(auto, unfolding(riichi_game_text::specs::Answers::signed_text))]
fn push_amount(text: &mut AnswerText, points: i64)
    requires { array_string_len text.old + MOST_AMOUNT ≤ ANSWER_ROOM }
    ensures bytes { text.new.bytes ≡ text.old.bytes ++ signed_text points }
    ensures len { array_string_len text.new ≤ array_string_len text.old + MOST_AMOUNT }
{
    push_number(text, points);
}
