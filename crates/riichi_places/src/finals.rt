//! What each player has at the end of a game.
ghost use Rattle.std.specs.Prelude.{◌≡◌, ◌≤◌, ◌≤ℤ◌, ◌+ℤ◌, ◌-ℤ◌, pos, negsuc, if◌then◌else◌};
ghost use Rattle.riichi_table.specs.Players.{of_player};
ghost use Rattle.riichi_places.specs.Places.{is_first};
ghost use Rattle.riichi_places.specs.Finals as spec;

use crate::bonus::bonus;
use crate::places::place;
use riichi_table::{ByPlayer, GameState, LeftSticks, Player, TableRules, Ties};

/// What a player has at the end of a game, all in points.
#[derive(Clone, Copy, Debug, PartialEq, Eq)]
pub struct FinalPoints {
    /// The place, from 1 to 4.
    pub place: u8,
    /// The points, with the sticks that lie at the end.
    pub points: i64,
    /// The bonus of the place, or the part of a shared one.
    pub bonus: i64,
    /// The penalties, chombo with them, that are taken off.
    pub penalty: u32,
    /// The final points: the points over the return, with the bonus and without the penalties.
    pub total: i64,
}

/// What each player has where a game ends in this state.
pub fn final_points(
    rules: &TableRules,
    state: &GameState,
    penalties: &ByPlayer<u32>,
) -> ByPlayer<FinalPoints>
    ensures { result ≡ spec.finals_of rules.now state.now penalties.now }
{
    ByPlayer {
        first: final_of(rules, state, penalties, Player::First),
        second: final_of(rules, state, penalties, Player::Second),
        third: final_of(rules, state, penalties, Player::Third),
        fourth: final_of(rules, state, penalties, Player::Fourth),
    }
}

fn final_of(
    rules: &TableRules,
    state: &GameState,
    penalties: &ByPlayer<u32>,
    player: Player,
) -> FinalPoints
    ensures { result
        ≡ spec.final_of rules.now (spec.points_at_end rules.now state.now) penalties.now player }
{
    let points = points_at_end(rules, state);
    let own = settled(rules, state, player);
    let bonus = bonus(rules, &points, player);
    let penalty = penalties.get(player);
    FinalPoints {
        place: place(&points, rules.ties, player),
        points: own,
        bonus,
        penalty,
        total: total(own, rules.returns, bonus, penalty),
    }
}

fn total(points: i64, returns: u32, bonus: i64, penalty: u32) -> i64
    requires points_least { negsuc 9999999999 ≤ℤ points }
    requires points_most { points ≤ℤ pos 10000000000 }
    requires bonus_least { negsuc 99999999999999 ≤ℤ bonus }
    requires bonus_most { bonus ≤ℤ pos 100000000000000 }
    ensures { result ≡ ((points -ℤ pos returns) +ℤ bonus) -ℤ pos penalty }
{
    over_return(points, returns) + bonus - i64::from(penalty)
}

fn over_return(points: i64, returns: u32) -> i64
    requires least { negsuc 9999999999 ≤ℤ points }
    requires most { points ≤ℤ pos 10000000000 }
    ensures value { result ≡ points -ℤ pos returns }
    ensures least { negsuc 19999999999 ≤ℤ result }
    ensures most { result ≤ℤ pos 20000000000 }
{
    points - i64::from(returns)
}

/// The points of each player at the end, with the riichi sticks that lie then: they go to the points of the first, by the first seat
/// alone if several are, or to nobody.
pub fn points_at_end(rules: &TableRules, state: &GameState) -> ByPlayer<i64>
    ensures { result ≡ spec.points_at_end rules.now state.now }
{
    ByPlayer {
        first: settled(rules, state, Player::First),
        second: settled(rules, state, Player::Second),
        third: settled(rules, state, Player::Third),
        fourth: settled(rules, state, Player::Fourth),
    }
}

#[tactic(auto, unfolding(crate::specs::Finals::settled))]
fn settled(rules: &TableRules, state: &GameState, player: Player) -> i64
    ensures value { result ≡ spec.settled rules.now state.now player }
    ensures least { negsuc 9999999999 ≤ℤ result }
    ensures most { result ≤ℤ pos 10000000000 }
{
    let sticks = if place(&state.points.widened(), Ties::Seat, player) == 1 {
        for_sticks(rules.left, state.sticks)
    } else {
        0
    };
    i64::from(state.points.get(player)) + i64::from(sticks)
}

fn for_sticks(left: LeftSticks, sticks: u8) -> u32
    ensures value { result ≡ spec.for_sticks left sticks }
    ensures most { result ≤ 255000 }
{
    match left {
        LeftSticks::First => 1000 * u32::from(sticks),
        LeftSticks::Lost => 0,
    }
}
