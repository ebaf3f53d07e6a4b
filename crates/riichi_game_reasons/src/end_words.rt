//! Why a game is over, in words.
ghost use Rattle.std.specs.Prelude.{◌≡◌, ◌+◌, ◌*◌, ◌≤◌, ◌++◌, length};
ghost use Rattle.arrayvec.specs.ArrayString.{array_string_len};
ghost use Rattle.riichi_game_text.specs.Names.{names_in};
ghost use Rattle.riichi_game_reasons.specs.EndReasons as spec;

use crate::ends::EndReason;
use riichi_game_text::{MOST_NAME, Name, Names};
use riichi_table::{ByPlayer, Player, TableRules};
use riichi_text::{ANSWER_ROOM, AnswerText, MOST_U32, push_number};

/// The bytes of the names of the four, each behind a space.
const MOST_NAMES: usize = 4 * (" ".len() + MOST_NAME);

const MOST_ENOUGH: usize = MOST_NAMES + " with ".len() + MOST_U32 + " or more".len();

const MOST_WORDS: usize = MOST_ENOUGH + " deals last, stays and is ahead".len();

/// The bytes of the longest line that says why a game is over.
pub const MOST_END_REASON: usize = "  over:".len() + MOST_WORDS;

/// Writes why a game is over, without the line's end, with the points of the four then.
pub fn push_end_reason(
    text: &mut AnswerText,
    names: &Names,
    rules: &TableRules,
    points: &ByPlayer<i32>,
    reason: EndReason,
)
    requires { array_string_len text.old + MOST_END_REASON ≤ ANSWER_ROOM }
    ensures bytes { text.new.bytes
        ≡ text.old.bytes ++ spec.end_line (names_in names.now) rules.now points.now reason }
    ensures len { array_string_len text.new ≤ array_string_len text.old + MOST_END_REASON }
{
    text.push_str("  over:");
    match reason {
        EndReason::Said => text.push_str(" end was said"),
        EndReason::Bust => {
            push_below_zero(text, names, points);
            text.push_str(" with less than 0");
        }
        EndReason::Enough => push_enough(text, names, points, rules.extra),
        EndReason::Stopped => push_stopped(text, &names.get(Player::Fourth)),
        EndReason::Played => text.push_str(" the last round is played"),
    }
}

/// Writes that the last dealer stops.
fn push_stopped(text: &mut AnswerText, name: &Name)
    requires { array_string_len text.old + MOST_WORDS ≤ ANSWER_ROOM }
    ensures bytes { text.new.bytes ≡ text.old.bytes ++ spec.stopped_words name.now.bytes }
    ensures len { array_string_len text.new ≤ array_string_len text.old + MOST_WORDS }
{
    text.push_str(" ");
    text.push_str(name.as_str());
    text.push_str(" deals last, stays and is ahead");
}

/// Writes the names of those with less than 0.
fn push_below_zero(text: &mut AnswerText, names: &Names, points: &ByPlayer<i32>)
    requires { array_string_len text.old + MOST_NAMES ≤ ANSWER_ROOM }
    ensures bytes { text.new.bytes
        ≡ text.old.bytes ++ spec.below_zero (names_in names.now) points.now }
    ensures len { array_string_len text.new ≤ array_string_len text.old + MOST_NAMES }
{
    push_negative(text, names, points, Player::First);
    push_negative(text, names, points, Player::Second);
    push_negative(text, names, points, Player::Third);
    push_negative(text, names, points, Player::Fourth);
}

/// Writes the name of a player with less than 0.
fn push_negative(text: &mut AnswerText, names: &Names, points: &ByPlayer<i32>, player: Player)
    requires { array_string_len text.old + 1 + MOST_NAME ≤ ANSWER_ROOM }
    ensures bytes { text.new.bytes
        ≡ text.old.bytes ++ spec.if_negative (names_in names.now) points.now player }
    ensures len { array_string_len text.new ≤ array_string_len text.old + 1 + MOST_NAME }
{
    push_name_if(text, is_negative(points.get(player)), &names.get(player));
}

#[tactic(auto, unfolding(crate::specs::EndReasons::is_negative))]
fn is_negative(points: i32) -> bool
    ensures { result ≡ spec.is_negative points }
{
    points < 0
}

/// Writes who has the points for which no round more is played.
fn push_enough(text: &mut AnswerText, names: &Names, points: &ByPlayer<i32>, extra: Option<u32>)
    requires { array_string_len text.old + MOST_ENOUGH ≤ ANSWER_ROOM }
    ensures bytes { text.new.bytes
        ≡ text.old.bytes ++ spec.enough_words (names_in names.now) points.now extra }
    ensures len { array_string_len text.new ≤ array_string_len text.old + MOST_ENOUGH }
{
    if let Some(most) = extra {
        push_with_so_many(text, names, points, most);
        text.push_str(" with ");
        push_number(text, most);
        text.push_str(" or more");
    }
}

/// Writes the names of those with so many points or more.
fn push_with_so_many(text: &mut AnswerText, names: &Names, points: &ByPlayer<i32>, most: u32)
    requires { array_string_len text.old + MOST_NAMES ≤ ANSWER_ROOM }
    ensures bytes { text.new.bytes
        ≡ text.old.bytes ++ spec.with_so_many (names_in names.now) points.now most }
    ensures len { array_string_len text.new ≤ array_string_len text.old + MOST_NAMES }
{
    push_at_least(text, names, points, most, Player::First);
    push_at_least(text, names, points, most, Player::Second);
    push_at_least(text, names, points, most, Player::Third);
    push_at_least(text, names, points, most, Player::Fourth);
}

/// Writes the name of a player with so many points or more.
fn push_at_least(
    text: &mut AnswerText,
    names: &Names,
    points: &ByPlayer<i32>,
    least: u32,
    player: Player,
)
    requires { array_string_len text.old + 1 + MOST_NAME ≤ ANSWER_ROOM }
    ensures bytes { text.new.bytes
        ≡ text.old.bytes ++ spec.if_at_least (names_in names.now) points.now least player }
    ensures len { array_string_len text.new ≤ array_string_len text.old + 1 + MOST_NAME }
{
    push_name_if(
        text,
        is_at_least(points.get(player), least),
        &names.get(player),
    );
}

#[tactic(auto, unfolding(crate::specs::EndReasons::is_at_least))]
fn is_at_least(points: i32, least: u32) -> bool
    ensures { result ≡ spec.is_at_least least points }
{
    i64::from(least) <= i64::from(points)
}

/// Writes a name behind a space, where something holds of the player.
#[tactic(auto, unfolding(crate::specs::EndReasons::name_if))]
pub(crate) fn push_name_if(text: &mut AnswerText, holds: bool, name: &Name)
    requires { array_string_len text.old + 1 + MOST_NAME ≤ ANSWER_ROOM }
    ensures bytes { text.new.bytes ≡ text.old.bytes ++ spec.name_if holds name.now.bytes }
    ensures len { array_string_len text.new ≤ array_string_len text.old + 1 + MOST_NAME }
{
    if holds {
        text.push_str(" ");
        text.push_str(name.as_str());
    }
}
