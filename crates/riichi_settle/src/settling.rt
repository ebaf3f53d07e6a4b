//! What moves change.
ghost use Rattle.std.specs.Prelude.{◌≡◌, ◌≤◌, ◌+◌, ◌-◌, ◌*◌, ◌+ℤ◌, ◌-ℤ◌, pos};
ghost use Rattle.riichi_settle.specs.Settled as spec;

use crate::making::{moves_of, push_played};
use crate::moved::{MOST_MOVES, Moves};
use crate::totals::{Totals, totals_of};
use riichi_table::{ByPlayer, GameState, Outcome, TableRules};

/// What moves change: the points of each player, and the sticks that lie afterwards.
#[derive(Clone, Copy, Debug, PartialEq, Eq)]
pub struct Changes {
    pub points: ByPlayer<i64>,
    pub sticks: u16,
}

/// The points of each player and the sticks that lie after an outcome.
#[derive(Clone, Copy, Debug, PartialEq, Eq)]
pub struct Moved {
    pub points: ByPlayer<i64>,
    pub sticks: u16,
}

/// What an outcome changes, from before the bets. A penalty, a written state and the end change nothing.
pub fn settle(state: &GameState, rules: &TableRules, outcome: &Outcome) -> Changes
    ensures { result ≡ spec.changes_of state.now rules.now outcome.now }
{
    changes_by(state.sticks, &moves_of(state, rules, outcome))
}

/// What moves change, where so many sticks lay before.
#[tactic(auto, unfolding(crate::specs::Settled::change_by, crate::specs::Settled::sticks_by))]
pub fn changes_by(sticks: u8, moves: &Moves) -> Changes
    ensures { result ≡ spec.changes_by sticks moves.now.items }
{
    let totals = totals_of(moves.as_slice());
    Changes {
        points: ByPlayer {
            first: change(totals.got.first, totals.given.first),
            second: change(totals.got.second, totals.given.second),
            third: change(totals.got.third, totals.given.third),
            fourth: change(totals.got.fourth, totals.given.fourth),
        },
        sticks: sticks_left(sticks, &totals),
    }
}

/// What an outcome that is played so comes to; [`as_played`](crate::as_played) gives how it is played.
#[tactic(auto, unfolding(crate::specs::Settled::change_by, crate::specs::Settled::sticks_by))]
pub fn moved_as_played(state: &GameState, rules: &TableRules, played: &Outcome) -> Moved
    ensures points { let moves = spec.moves_as_played state.now rules.now played.now in
        result.points ≡ spec.points_after_moves state.now.points moves }
    ensures sticks { let moves = spec.moves_as_played state.now rules.now played.now in
        result.sticks ≡ spec.sticks_by state.now.sticks moves }
{
    let mut moves = Moves::new();
    push_played(&mut moves, state, rules, played);
    let totals = totals_of(moves.as_slice());
    let points = &state.points;
    Moved {
        points: ByPlayer {
            first: changed(points.first, totals.got.first, totals.given.first),
            second: changed(points.second, totals.got.second, totals.given.second),
            third: changed(points.third, totals.got.third, totals.given.third),
            fourth: changed(points.fourth, totals.got.fourth, totals.given.fourth),
        },
        sticks: sticks_left(state.sticks, &totals),
    }
}

/// What is got less what is given.
fn change(got: u64, given: u64) -> i64
    requires got { got ≤ 4294967296 * MOST_MOVES }
    requires given { given ≤ 4294967296 * MOST_MOVES }
    ensures { result ≡ pos got -ℤ pos given }
{
    got as i64 - given as i64
}

/// The points after what is got and given.
fn changed(points: i32, got: u64, given: u64) -> i64
    requires got { got ≤ 4294967296 * MOST_MOVES }
    requires given { given ≤ 4294967296 * MOST_MOVES }
    ensures { result ≡ points +ℤ (pos got -ℤ pos given) }
{
    i64::from(points) + (got as i64 - given as i64)
}

/// The sticks that lie in the end, where so many lay before.
fn sticks_left(sticks: u8, totals: &Totals) -> u16
    requires { totals.now.bet ≤ MOST_MOVES }
    ensures { result ≡ (sticks + totals.now.bet) - totals.now.taken }
{
    let lying = u32::from(sticks) + totals.bet;
    lying.saturating_sub(totals.taken) as u16
}
