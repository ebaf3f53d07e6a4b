//! The places of four players by their points.
ghost use Rattle.std.specs.Prelude.{◌≡◌, ◌<◌, ◌≤◌};
ghost use Rattle.riichi_places.specs.Places as spec;

use riichi_table::{ByPlayer, Player, Ties};

/// The place of a player, from 1 to 4: one more than are ahead. Under [`Ties::Share`] equal points have the same place.
#[tactic(auto, unfolding(crate::specs::Places::ahead_of))]
pub fn place(points: &ByPlayer<i64>, ties: Ties, player: Player) -> u8
    ensures value { result ≡ spec.place_by_points ties points.now player }
    ensures most { result ≤ 5 }
{
    let ahead = ByPlayer {
        first: is_ahead(points, ties, Player::First, player),
        second: is_ahead(points, ties, Player::Second, player),
        third: is_ahead(points, ties, Player::Third, player),
        fourth: is_ahead(points, ties, Player::Fourth, player),
    };
    1 + ahead.count()
}

/// How many have the player's place, the player among them.
#[tactic(auto, unfolding(crate::specs::Places::sharers_of), using(crate::proofs::Counts::some_sharer))]
pub(crate) fn sharers(points: &ByPlayer<i64>, ties: Ties, player: Player) -> u8
    ensures value { result ≡ spec.sharers_of ties points.now player }
    ensures some { 0 < result }
    ensures most { result ≤ 4 }
{
    let level = ByPlayer {
        first: is_level(points, ties, Player::First, player),
        second: is_level(points, ties, Player::Second, player),
        third: is_level(points, ties, Player::Third, player),
        fourth: is_level(points, ties, Player::Fourth, player),
    };
    level.count()
}

/// How many of these have an earlier first seat.
#[tactic(auto, unfolding(crate::specs::Places::earlier_of))]
pub(crate) fn earlier(points: &ByPlayer<i64>, ties: Ties, player: Player) -> u8
    ensures value { result ≡ spec.earlier_of ties points.now player }
    ensures most { result ≤ 4 }
{
    let level = |other: Player| -> bool {
        is_level(points, ties, other, player) && is_before(other, player)
    };
    let earlier = ByPlayer {
        first: level(Player::First),
        second: level(Player::Second),
        third: level(Player::Third),
        fourth: level(Player::Fourth),
    };
    earlier.count()
}

/// Whether one is ahead of the other.
pub fn is_ahead(points: &ByPlayer<i64>, ties: Ties, one: Player, other: Player) -> bool
    ensures { result ≡ spec.is_ahead ties points.now one other }
{
    let more = points.get(other) < points.get(one);
    match ties {
        Ties::Share => more,
        Ties::Seat => more || (points.get(one) == points.get(other) && is_before(one, other)),
    }
}

/// Whether neither is ahead.
fn is_level(points: &ByPlayer<i64>, ties: Ties, one: Player, other: Player) -> bool
    ensures { result ≡ spec.is_level ties points.now one other }
{
    !is_ahead(points, ties, one, other) && !is_ahead(points, ties, other, one)
}

/// Whether one has the earlier first seat.
fn is_before(one: Player, other: Player) -> bool
    ensures { result ≡ spec.is_before one other }
{
    seat_number(one) < seat_number(other)
}

fn seat_number(player: Player) -> u8
    ensures { result ≡ spec.seat_number player }
{
    match player {
        Player::First => 0,
        Player::Second => 1,
        Player::Third => 2,
        Player::Fourth => 3,
    }
}
