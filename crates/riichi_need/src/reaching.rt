//! Whether a win brings a player to a place.
ghost use Rattle.std.specs.Prelude.{◌≡◌, ◌≤◌};
ghost use Rattle.riichi_need.specs.Reaching as spec;

use crate::question::{Aim, Question, Way};
use crate::winning::all_points_then;
use riichi_places::place;
use riichi_table::{ByPlayer, Player};

/// Whether a win of so many base points, one yakuman at most, brings the player to the place.
#[tactic(auto, unfolding(crate::specs::Reaching::reaches))]
pub fn reaches(question: &Question, aim: Aim, way: Way, base: u32) -> bool
    requires { base ≤ 8000 }
    ensures { result ≡ spec.reaches question.now aim way base }
{
    let points = all_points_then(question, way, base);
    match aim {
        Aim::Strictly => not_below(&points, question.player) < question.place,
        Aim::WithTie => place(&points, question.rules.ties, question.player) - 1 < question.place,
    }
}

/// How many others have as many points, or more.
#[tactic(auto, unfolding(crate::specs::Reaching::not_below_of))]
fn not_below(points: &ByPlayer<i64>, player: Player) -> u8
    ensures { result ≡ spec.not_below_of points.now player }
{
    let others = ByPlayer {
        first: is_not_below(points, player, Player::First),
        second: is_not_below(points, player, Player::Second),
        third: is_not_below(points, player, Player::Third),
        fourth: is_not_below(points, player, Player::Fourth),
    };
    others.count()
}

fn is_not_below(points: &ByPlayer<i64>, player: Player, other: Player) -> bool
    ensures { result ≡ spec.is_not_below points.now player other }
{
    !other.is(player) && !(points.get(other) < points.get(player))
}
