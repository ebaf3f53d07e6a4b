//! What a table shows between two deals.
ghost use Rattle.std.specs.Prelude.{◌≡◌, ◌*◌, ◌≤ℤ◌, pos};
ghost use Rattle.riichi_table.specs.States as spec;

use crate::player::{ByPlayer, Player};
use crate::rules::TableRules;
use crate::sums::sum_of_four;
use riichi_hand::Wind;

/// What a table shows between two deals.
#[derive(Clone, Copy, Debug, PartialEq, Eq)]
pub struct GameState {
    /// The points of each player, which may be negative.
    pub points: ByPlayer<i32>,
    /// The prevalent wind.
    pub round: Wind,
    /// Who sits East.
    pub dealer: Player,
    /// How many counters (honba) lie on the table.
    pub counters: u8,
    /// How many riichi sticks lie on the table, of 1000 points each.
    pub sticks: u8,
}

impl GameState {
    /// The state before the first deal: the start of the rules for each, East, the first player, no counter and no stick. A start
    /// over 1000000, which [`TableRules::fault`] refuses, counts as 1000000.
    pub fn first(rules: &TableRules) -> GameState
        ensures { result ≡ spec.first_state rules.now }
    {
        GameState {
            points: ByPlayer::all(rules.start.min(1_000_000) as i32),
            round: Wind::East,
            dealer: Player::First,
            counters: 0,
            sticks: 0,
        }
    }

    /// The points of the four players, and 1000 for each stick on the table.
    #[tactic(auto, unfolding(crate::specs::States::all_points))]
    pub fn all_points(&self) -> i64
        ensures { result ≡ spec.all_points self.now }
    {
        let points = &self.points;
        let held = sum_of_four(points.first, points.second, points.third, points.fourth);
        held + stick_points(self.sticks)
    }
}

/// What so many sticks are worth.
fn stick_points(sticks: u8) -> i64
    ensures value { result ≡ pos (1000 * sticks) }
    ensures most { result ≤ℤ pos 255000 }
{
    1000 * i64::from(sticks)
}
