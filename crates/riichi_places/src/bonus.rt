//! The bonuses of the places, and their parts.
ghost use Rattle.std.specs.Prelude.{◌≡◌, ◌<◌, ◌≤◌, ◌≤ℤ◌, ◌+ℤ◌, ◌-ℤ◌, pos, negsuc};
ghost use Rattle.riichi_places.specs.Bonuses as spec;

use crate::places::{earlier, place, sharers};
use riichi_table::{ByPlayer, Player, TableRules};

/// The bonus of a player by the points of the four.
pub(crate) fn bonus(rules: &TableRules, points: &ByPlayer<i64>, player: Player) -> i64
    ensures value { result ≡ spec.bonus_of rules.now points.now player }
    ensures least { negsuc 99999999999999 ≤ℤ result }
    ensures most { result ≤ℤ pos 100000000000000 }
{
    shared_bonus(
        rules,
        place(points, rules.ties, player),
        sharers(points, rules.ties, player),
        earlier(points, rules.ties, player),
    )
}

#[tactic(auto, unfolding(crate::specs::Bonuses::shared_bonus))]
fn shared_bonus(rules: &TableRules, place: u8, sharers: u8, earlier: u8) -> i64
    requires place { place ≤ 5 }
    requires some { 0 < sharers }
    requires sharers { sharers ≤ 4 }
    requires earlier { earlier ≤ 4 }
    ensures value { result ≡ spec.shared_bonus rules.now place sharers earlier }
    ensures least { negsuc 99999999999999 ≤ℤ result }
    ensures most { result ≤ℤ pos 100000000000000 }
{
    part(bonuses(rules, place, sharers), sharers, earlier)
}

/// The bonuses of so many places from the first one on.
#[tactic(auto, unfolding(crate::specs::Bonuses::bonuses))]
fn bonuses(rules: &TableRules, first: u8, number: u8) -> i64
    requires first { first ≤ 5 }
    requires number { number ≤ 4 }
    ensures value { result ≡ spec.bonuses rules.now first number }
    ensures least { negsuc 99999999999 ≤ℤ result }
    ensures most { result ≤ℤ pos 100000000000 }
{
    bonus_if_taken(rules, first, number, 1)
        + bonus_if_taken(rules, first, number, 2)
        + bonus_if_taken(rules, first, number, 3)
        + bonus_if_taken(rules, first, number, 4)
}

#[tactic(auto, unfolding(crate::specs::Bonuses::bonus_if_taken))]
fn bonus_if_taken(rules: &TableRules, first: u8, number: u8, place: u8) -> i64
    requires first { first ≤ 5 }
    requires number { number ≤ 4 }
    ensures value { result ≡ spec.bonus_if_taken rules.now first number place }
    ensures least { negsuc 19999999999 ≤ℤ result }
    ensures most { result ≤ℤ pos 20000000000 }
{
    if first <= place && place < first + number {
        place_bonus(rules, place)
    } else {
        0
    }
}

#[tactic(auto, unfolding(crate::specs::Bonuses::place_bonus))]
fn place_bonus(rules: &TableRules, place: u8) -> i64
    ensures value { result ≡ spec.place_bonus rules.now place }
    ensures least { negsuc 19999999999 ≤ℤ result }
    ensures most { result ≤ℤ pos 20000000000 }
{
    let uma = &rules.uma;
    match place {
        1 => i64::from(uma.first) + returned(rules),
        2 => i64::from(uma.second),
        3 => i64::from(uma.third),
        _ => i64::from(uma.fourth),
    }
}

/// What the four return beyond what they started with (oka).
fn returned(rules: &TableRules) -> i64
    ensures value { result ≡ spec.returned rules.now }
    ensures least { negsuc 17179869183 ≤ℤ result }
    ensures most { result ≤ℤ pos 17179869184 }
{
    // (the numbers of rules that are read whole are known to be in their range)
    let TableRules { start, returns, .. } = *rules;
    4 * i64::from(returns) - 4 * i64::from(start)
}

/// The part of a sharer with so many sharers at earlier first seats.
#[tactic(auto, unfolding(crate::specs::Bonuses::part_of))]
fn part(points: i64, sharers: u8, earlier: u8) -> i64
    requires least { negsuc 99999999999 ≤ℤ points }
    requires most { points ≤ℤ pos 100000000000 }
    requires some { 0 < sharers }
    requires sharers { sharers ≤ 4 }
    requires earlier { earlier ≤ 4 }
    ensures value { result ≡ spec.part_of points sharers earlier }
    ensures least { negsuc 99999999999999 ≤ℤ result }
    ensures most { result ≤ℤ pos 100000000000000 }
{
    let left = left_over(points, sharers).saturating_sub(100 * u64::from(earlier));
    100 * hundreds_each(points, sharers) + left.min(100) as i64
}

/// How many whole hundreds each of so many sharers has, rounded down.
fn hundreds_each(points: i64, sharers: u8) -> i64
    requires least { negsuc 99999999999 ≤ℤ points }
    requires most { points ≤ℤ pos 100000000000 }
    requires some { 0 < sharers }
    requires sharers { sharers ≤ 4 }
    ensures value { result ≡ spec.hundreds_each points sharers }
    ensures least { negsuc 99999999999 ≤ℤ result }
    ensures most { result ≤ℤ pos 100000000000 }
{
    let unit = 100 * u64::from(sharers);
    let amount = points.unsigned_abs();
    if points < 0 {
        -1 - ((amount - 1) / unit) as i64
    } else {
        (amount / unit) as i64
    }
}

/// The points that are left then.
fn left_over(points: i64, sharers: u8) -> u64
    requires least { negsuc 99999999999 ≤ℤ points }
    requires most { points ≤ℤ pos 100000000000 }
    requires some { 0 < sharers }
    requires sharers { sharers ≤ 4 }
    ensures value { result ≡ spec.left_over points sharers }
    ensures most { result < 400 }
{
    let unit = 100 * u64::from(sharers);
    let amount = points.unsigned_abs();
    if points < 0 {
        unit - 1 - (amount - 1) % unit
    } else {
        amount % unit
    }
}
