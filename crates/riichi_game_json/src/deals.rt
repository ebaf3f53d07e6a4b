//! The answers to outcomes.
ghost use Rattle.std.specs.Prelude.{◌≡◌, ◌+◌, ◌≤◌, ◌++◌, length};
ghost use Rattle.arrayvec.specs.ArrayString.{array_string_len};
ghost use Rattle.riichi_settle.specs.Settled.{moves_of};
ghost use Rattle.riichi_game_json.specs.Deals as spec;
ghost use Rattle.riichi_game_json.specs.MoveValues.{moves_json};

use crate::moves::{MOST_LISTED_MOVE, push_moves};
use crate::states::{MOST_FOUR, MOST_TABLE, player_index, push_four, push_table};
use crate::values::push_natural;
use riichi_game::Progress;
use riichi_game_reasons::{EndReason, end_reason};
use riichi_game_text::point_changes;
use riichi_settle::moves_of;
use riichi_table::{GameState, Outcome, Player, TableRules};
use riichi_text::{ANSWER_ROOM, AnswerText, MOST_U32};

/// No outcome is told by more moves: four bets; of each of four winners half a yakuman from two players, the rest and the counters;
/// four own bets and the other sticks.
const MOST_TOLD: usize = 25;

const MOST_HEAD: usize = "\"answer\":\"deal\",\"outcome\":\"penalty\",".len();

const MOST_MOVES: usize = ",\"moves\":[]".len() + MOST_TOLD * MOST_LISTED_MOVE;

const MOST_WHY_OVER: usize = ",\"over\":\"stopped\"".len();

const MOST_PENALTY: usize = "\"answer\":\"penalty\",\"player\":".len()
    + MOST_U32
    + ",\"points\":".len()
    + MOST_U32
    + "}".len();

/// The bytes of the longest answer to an outcome, a deal.
pub const MOST_OUTCOME: usize = MOST_HEAD
    + MOST_TABLE
    + MOST_FOUR
    + MOST_FOUR
    + MOST_MOVES
    + MOST_WHY_OVER
    + "}".len();

/// Writes the answer to an outcome, by how far the game had come before it and has come after it.
pub fn push_outcome(
    text: &mut AnswerText,
    rules: &TableRules,
    before: &Progress,
    after: &Progress,
    outcome: &Outcome,
)
    requires { array_string_len text.old + MOST_OUTCOME ≤ ANSWER_ROOM }
    ensures bytes { text.new.bytes ≡ text.old.bytes
        ++ spec.outcome_members rules.now before.now after.now outcome.now }
    ensures len { array_string_len text.new ≤ array_string_len text.old + MOST_OUTCOME }
{
    match outcome {
        Outcome::Penalty { player, points } => push_penalty(text, *player, *points),
        Outcome::End => text.push_str("\"answer\":\"end\"}"),
        _ => push_deal(text, rules, before, after, outcome),
    }
}

fn push_penalty(text: &mut AnswerText, player: Player, points: u32)
    requires { array_string_len text.old + MOST_PENALTY ≤ ANSWER_ROOM }
    ensures bytes { text.new.bytes ≡ text.old.bytes ++ spec.penalty_members player points }
    ensures len { array_string_len text.new ≤ array_string_len text.old + MOST_PENALTY }
{
    push_natural(
        text,
        "\"answer\":\"penalty\",\"player\":",
        player_index(player),
    );
    push_natural(text, ",\"points\":", points);
    text.push_str("}");
}

fn push_deal(
    text: &mut AnswerText,
    rules: &TableRules,
    before: &Progress,
    after: &Progress,
    outcome: &Outcome,
)
    requires { array_string_len text.old + MOST_OUTCOME ≤ ANSWER_ROOM }
    ensures bytes { text.new.bytes ≡ text.old.bytes
        ++ spec.deal_members rules.now before.now after.now outcome.now }
    ensures len { array_string_len text.new ≤ array_string_len text.old + MOST_OUTCOME }
{
    push_head(text, outcome);
    push_table(text, &before.state);
    let changes = point_changes(&before.state.points, &after.state.points);
    push_four(text, ",\"changes\":", &changes);
    push_four(text, ",\"points\":", &after.state.points.widened());
    push_all_moves(text, rules, &before.state, outcome);
    push_why_over(text, rules, before, after, outcome);
    text.push_str("}");
}

/// Writes what sort of deal it is.
fn push_head(text: &mut AnswerText, outcome: &Outcome)
    requires { array_string_len text.old + MOST_HEAD ≤ ANSWER_ROOM }
    ensures bytes { text.new.bytes ≡ text.old.bytes ++ spec.head_members outcome.now }
    ensures len { array_string_len text.new ≤ array_string_len text.old + MOST_HEAD }
{
    text.push_str("\"answer\":\"deal\",\"outcome\":\"");
    text.push_str(outcome_word(outcome));
    text.push_str("\",");
}

/// The word that a line of the outcome begins with.
fn outcome_word(outcome: &Outcome) -> &'static str
    ensures value { result.now ≡ spec.outcome_word outcome.now }
    ensures short { length result.now ≤ 7 }
{
    match outcome {
        Outcome::Ron { .. } => "ron",
        Outcome::Tsumo { .. } => "tsumo",
        Outcome::Draw { .. } => "draw",
        Outcome::Abort { .. } => "abort",
        Outcome::Chombo { .. } => "chombo",
        Outcome::Penalty { .. } => "penalty",
        Outcome::Stands { .. } => "stands",
        Outcome::End => "end",
    }
}

/// Writes what the outcome moves.
#[tactic(auto, using(crate::proofs::FewMoves::few_moves))]
fn push_all_moves(text: &mut AnswerText, rules: &TableRules, state: &GameState, outcome: &Outcome)
    requires { array_string_len text.old + MOST_MOVES ≤ ANSWER_ROOM }
    ensures bytes { text.new.bytes ≡ text.old.bytes
        ++ spec.moves_member rules.now state.now outcome.now }
    ensures len { array_string_len text.new ≤ array_string_len text.old + MOST_MOVES }
{
    let moves = moves_of(state, rules, outcome);
    text.push_str(",\"moves\":[");
    push_moves(text, state.counters, outcome, moves.as_slice());
    text.push_str("]");
}

/// Writes why the game is over, where the outcome ended it.
fn push_why_over(
    text: &mut AnswerText,
    rules: &TableRules,
    before: &Progress,
    after: &Progress,
    outcome: &Outcome,
)
    requires { array_string_len text.old + MOST_WHY_OVER ≤ ANSWER_ROOM }
    ensures bytes { text.new.bytes ≡ text.old.bytes
        ++ spec.over_member rules.now before.now after.now outcome.now }
    ensures len { array_string_len text.new ≤ array_string_len text.old + MOST_WHY_OVER }
{
    if after.is_over && !before.is_over {
        text.push_str(",\"over\":\"");
        text.push_str(end_word(end_reason(rules, &before.state, &after.state, outcome)));
        text.push_str("\"");
    }
}

fn end_word(reason: EndReason) -> &'static str
    ensures value { result.now ≡ spec.end_word reason }
    ensures short { length result.now ≤ 7 }
{
    match reason {
        EndReason::Said => "end",
        EndReason::Bust => "bust",
        EndReason::Enough => "enough",
        EndReason::Stopped => "stopped",
        EndReason::Played => "played",
    }
}
