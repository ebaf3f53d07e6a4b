//! What stands below the answer to a deal and says why it is so.
ghost use Rattle.std.specs.Prelude.{◌≡◌, ◌+◌, ◌*◌, ◌≤◌, ◌∷◌, [], ◌++◌, length};
ghost use Rattle.desk_lines.specs.Outbox.{HasRoomForText};
ghost use Rattle.desk_games.specs.Below as spec;
ghost use Rattle.desk_games.specs.Pending.{pending, HasRoomBelow};

use crate::form::GamesForm;
use desk_lines::Outbox;
use riichi_game::Progress;
use riichi_game_reasons::{
    MOST_END_REASON, MOST_MOVE, end_reason, push_end_reason, push_move, push_value,
};
use riichi_game_text::{Names, WonValue, won_values};
use riichi_settle::{MOST_MOVES, Move, moves_of};
use riichi_table::{ByPlayer, Outcome, Player, TableRules};
use riichi_text::{ANSWER_ROOM, AnswerText};

/// A step of a game: an outcome, how far the game has come before it and after it, and the line that says it.
#[derive(Clone, Copy)]
pub(crate) struct Step<'a> {
    pub(crate) names: &'a Names,
    pub(crate) rules: &'a TableRules,
    pub(crate) before: &'a Progress,
    pub(crate) after: &'a Progress,
    pub(crate) outcome: &'a Outcome,
    pub(crate) line: &'a [u8],
}

/// The bytes of an outbox.
const OUTBOX_ROOM: usize = 65_536;

/// The bytes of an answer's line.
const MOST_ANSWER_LINE: usize = ANSWER_ROOM + "\n".len();

/// The bytes of the longest line of a move, with the end of the line before it.
const MOST_MOVED: usize = "\n".len() + MOST_MOVE;

const MOST_ENDED: usize = "\n".len() + MOST_END_REASON;

/// The bytes of the lines of what the hands are worth, each within the room of an answer, and the first behind the end of a line.
const MOST_VALUES: usize = 4 * MOST_ANSWER_LINE;

/// The bytes of all that stands below the answer to a deal.
pub(crate) const MOST_BELOW: usize = MOST_VALUES + MOST_MOVES * MOST_MOVED + MOST_ENDED;

/// Puts what stands in the room of texts as a line, and begins the next one there.
#[tactic(auto, using(crate::proofs::PendingLemmas::line_put))]
pub(crate) fn next_line(outbox: &mut Outbox)
    requires { HasRoomForText outbox.old }
    ensures pending { pending outbox.new ≡ pending outbox.old ++ 10 ∷ [] }
    ensures empty { outbox.new.text.bytes ≡ [] }
{
    outbox.put_text();
    outbox.text.clear();
}

/// Puts what stands below the answer to a deal. The last line stays in the room of texts, as the answer does.
pub(crate) fn put_below(form: GamesForm, step: &Step<'_>, outbox: &mut Outbox)
    requires { HasRoomBelow MOST_BELOW outbox.old }
    ensures pending { pending outbox.new
        ≡ pending outbox.old ++ spec.below_deal form (spec.step_in step.now) }
    ensures room { HasRoomForText outbox.new }
{
    if form.is_explained() {
        put_reasons(step, outbox);
    }
}

/// Puts what the hands are worth, what the deal moves, and why the game is over, where the deal ended it.
fn put_reasons(step: &Step<'_>, outbox: &mut Outbox)
    requires { HasRoomBelow MOST_BELOW outbox.old }
    ensures pending { pending outbox.new
        ≡ pending outbox.old ++ spec.deal_reasons (spec.step_in step.now) }
    ensures room { HasRoomForText outbox.new }
{
    let values = won_values(step.names, step.rules, &step.before.state, step.line);
    put_values(step, &values, outbox);
    let moves = moves_of(&step.before.state, step.rules, step.outcome);
    put_moves(step, moves.as_slice(), outbox);
    put_over(step, outbox);
}

/// Puts a line for each who has a value by han and fu or by a hand.
fn put_values(step: &Step<'_>, values: &ByPlayer<Option<WonValue>>, outbox: &mut Outbox)
    requires { HasRoomBelow MOST_VALUES outbox.old }
    ensures pending { pending outbox.new
        ≡ pending outbox.old ++ spec.values_below (spec.step_in step.now) values.now }
    ensures room { length (pending outbox.new) ≤ length (pending outbox.old) + MOST_VALUES }
{
    put_value(step, values, Player::First, outbox);
    put_value(step, values, Player::Second, outbox);
    put_value(step, values, Player::Third, outbox);
    put_value(step, values, Player::Fourth, outbox);
}

/// Puts a line for what the hand of a player is worth.
#[tactic(auto, using(crate::proofs::PendingLemmas::line_begun))]
fn put_value(
    step: &Step<'_>,
    values: &ByPlayer<Option<WonValue>>,
    player: Player,
    outbox: &mut Outbox,
)
    requires { HasRoomForText outbox.old }
    ensures pending { pending outbox.new
        ≡ pending outbox.old ++ spec.player_value (spec.step_in step.now) values.now player }
    ensures room { length (pending outbox.new) ≤ length (pending outbox.old) + MOST_ANSWER_LINE }
{
    if let Some(value) = values.get(player) {
        next_line(outbox);
        let mut line = AnswerText::new();
        push_value(&mut line, &step.names.get(player), &value);
        outbox.text.push_str(line.as_str());
    }
}

/// Puts a line for each move.
fn put_moves(step: &Step<'_>, moves: &[Move], outbox: &mut Outbox)
    requires { HasRoomBelow (length moves.now * MOST_MOVED) outbox.old }
    ensures pending { pending outbox.new
        ≡ pending outbox.old ++ spec.moves_below (spec.step_in step.now) moves.now }
    ensures room { length (pending outbox.new)
        ≤ length (pending outbox.old) + length moves.now * MOST_MOVED }
{
    for moved in moves {
        put_move(step, moved, outbox);
    }
}

#[tactic(auto, using(crate::proofs::PendingLemmas::line_begun))]
fn put_move(step: &Step<'_>, moved: &Move, outbox: &mut Outbox)
    requires { HasRoomForText outbox.old }
    ensures pending { pending outbox.new
        ≡ pending outbox.old ++ spec.move_below (spec.step_in step.now) moved.now }
    ensures room { length (pending outbox.new) ≤ length (pending outbox.old) + MOST_MOVED }
{
    next_line(outbox);
    push_move(
        &mut outbox.text,
        step.names,
        step.before.state.counters,
        step.outcome,
        moved,
    );
}

/// Puts why the game is over, where the deal ended it.
fn put_over(step: &Step<'_>, outbox: &mut Outbox)
    requires { HasRoomBelow MOST_ENDED outbox.old }
    ensures pending { pending outbox.new
        ≡ pending outbox.old ++ spec.end_below (spec.step_in step.now) }
    ensures room { HasRoomForText outbox.new }
{
    if step.after.is_over && !step.before.is_over {
        next_line(outbox);
        let before = &step.before.state;
        let after = &step.after.state;
        let reason = end_reason(step.rules, before, after, step.outcome);
        push_end_reason(
            &mut outbox.text,
            step.names,
            step.rules,
            &after.points,
            reason,
        );
    }
}
