//! The list of what an outcome moves.
ghost use Rattle.std.specs.Prelude.{◌≡◌, ◌≤◌, ◌++◌, length, []};
ghost use Rattle.riichi_settle.specs.Settled as spec;

use crate::draws::{push_chombo, push_draw};
use crate::moved::{Moves, Taking, push_bets, push_taken};
use crate::rons::{push_ron, push_sticks_won};
use crate::tsumos::push_tsumo;
use crate::winning::as_played;
use arrayvec::ArrayVec;
use riichi_table::{ByPlayer, GameState, Outcome, TableRules};

/// What an outcome moves, in order: the bets, what is paid to each player in turn of their numbers, the sticks. A penalty, a
/// written state and the end move nothing. What no rules allow is listed as if they did: ask first whether it is refused.
#[tactic(auto, unfolding(crate::specs::Settled::moves_of))]
pub fn moves_of(state: &GameState, rules: &TableRules, outcome: &Outcome) -> Moves
    ensures { result.items ≡ spec.moves_of state.now rules.now outcome.now }
{
    let mut moves = ArrayVec::new();
    push_played(&mut moves, state, rules, &as_played(rules, outcome));
    moves
}

/// Puts what an outcome moves that is played so into an empty list.
#[tactic(auto, unfolding(crate::specs::Settled::moves_as_played))]
pub(crate) fn push_played(
    moves: &mut Moves,
    state: &GameState,
    rules: &TableRules,
    outcome: &Outcome,
)
    requires { moves.old.items ≡ [] }
    ensures { moves.new.items ≡ spec.moves_as_played state.now rules.now outcome.now }
{
    match outcome {
        Outcome::Ron { from, wins, riichi } => {
            push_bets(moves, riichi);
            push_ron(moves, state, rules.counters, *from, wins);
            let lying = sticks_lying(state, riichi);
            push_sticks_won(moves, rules.sticks, lying, *from, wins, riichi);
        }
        Outcome::Tsumo {
            winner,
            win,
            riichi,
        } => {
            push_bets(moves, riichi);
            push_tsumo(moves, state, *winner, win);
            let lying = sticks_lying(state, riichi);
            push_taken(moves, *winner, lying, Taking::Winner);
        }
        Outcome::Draw {
            ready,
            nagashi,
            riichi,
        } => {
            push_bets(moves, riichi);
            push_draw(moves, state.dealer, ready, nagashi);
        }
        Outcome::Abort { riichi } => push_bets(moves, riichi),
        Outcome::Chombo { player } => push_chombo(moves, rules.chombo, state.dealer, *player),
        Outcome::Penalty { .. } => {}
        Outcome::Stands { .. } => {}
        Outcome::End => {}
    }
}

/// The sticks on the table, with those of the deal.
fn sticks_lying(state: &GameState, riichi: &ByPlayer<bool>) -> u16
    ensures { result ≡ spec.sticks_lying state.now riichi.now }
{
    u16::from(state.sticks) + u16::from(riichi.count())
}
