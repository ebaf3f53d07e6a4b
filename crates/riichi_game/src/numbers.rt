//! Points and penalties, and what a state has room for.
ghost use Rattle.std.specs.Prelude.{◌≡◌, ◌≤◌, true};
ghost use Rattle.riichi_game.specs.Faults as spec;

use riichi_table::{ByPlayer, Player};

#[tactic(auto, unfolding(crate::specs::Faults::are_kept))]
pub(crate) fn are_kept(points: &ByPlayer<i64>) -> bool
    ensures { result ≡ spec.are_kept points.now }
{
    is_kept(points.first)
        && is_kept(points.second)
        && is_kept(points.third)
        && is_kept(points.fourth)
}

fn is_kept(points: i64) -> bool
    ensures { result ≡ spec.is_kept points }
{
    -1_000_000_000 <= points && points <= 1_000_000_000
}

#[tactic(auto, unfolding(crate::specs::Faults::are_few))]
pub(crate) fn are_few(penalties: &ByPlayer<u64>) -> bool
    ensures { result ≡ spec.are_few penalties.now }
{
    penalties.first <= 1_000_000_000
        && penalties.second <= 1_000_000_000
        && penalties.third <= 1_000_000_000
        && penalties.fourth <= 1_000_000_000
}

#[tactic(auto, unfolding(crate::specs::Faults::are_kept))]
pub(crate) fn narrowed(points: &ByPlayer<i64>) -> ByPlayer<i32>
    requires { spec.are_kept points.now ≡ true }
    ensures { result ≡ points.now }
{
    ByPlayer {
        first: narrow(points.first),
        second: narrow(points.second),
        third: narrow(points.third),
        fourth: narrow(points.fourth),
    }
}

fn narrow(points: i64) -> i32
    requires { spec.is_kept points ≡ true }
    ensures { result ≡ points }
{
    points as i32
}

#[tactic(auto, unfolding(crate::specs::Faults::are_few))]
pub(crate) fn few(penalties: &ByPlayer<u64>) -> ByPlayer<u32>
    requires { spec.are_few penalties.now ≡ true }
    ensures { result ≡ penalties.now }
{
    ByPlayer {
        first: penalties.first as u32,
        second: penalties.second as u32,
        third: penalties.third as u32,
        fourth: penalties.fourth as u32,
    }
}

pub(crate) fn added(penalties: &ByPlayer<u32>, player: Player, points: u32) -> ByPlayer<u64>
    ensures { result ≡ spec.added penalties.now player points }
{
    let more = u64::from(penalties.get(player)) + u64::from(points);
    widened(penalties).with(player, more)
}

pub(crate) fn widened(penalties: &ByPlayer<u32>) -> ByPlayer<u64>
    ensures { result ≡ penalties.now }
{
    ByPlayer {
        first: u64::from(penalties.first),
        second: u64::from(penalties.second),
        third: u64::from(penalties.third),
        fourth: u64::from(penalties.fourth),
    }
}
