//! The four players, and what each of them has.
ghost use Rattle.std.specs.Prelude.{◌≡◌, ◌≤◌};
ghost use Rattle.riichi_table.specs.Players as spec;

use riichi_hand::Wind;

/// A player, numbered by the first seat: the first sits East at the start.
#[derive(Clone, Copy, Debug, PartialEq, Eq)]
pub enum Player {
    First,
    Second,
    Third,
    Fourth,
}

/// Something for each player.
#[derive(Clone, Copy, Debug, PartialEq, Eq)]
pub struct ByPlayer<T> {
    pub first: T,
    pub second: T,
    pub third: T,
    pub fourth: T,
}

impl Player {
    /// The four, by their numbers.
    pub const ALL: [Player; 4] = [Player::First, Player::Second, Player::Third, Player::Fourth];

    /// The player whose turn comes next; behind the fourth it is the first's.
    pub fn next(self) -> Player
        ensures { result ≡ spec.after self }
    {
        match self {
            Player::First => Player::Second,
            Player::Second => Player::Third,
            Player::Third => Player::Fourth,
            Player::Fourth => Player::First,
        }
    }

    /// Whether the two are one player.
    pub fn is(self, other: Player) -> bool
        ensures { result ≡ spec.is_same_player self other }
    {
        match (self, other) {
            (Player::First, Player::First) => true,
            (Player::Second, Player::Second) => true,
            (Player::Third, Player::Third) => true,
            (Player::Fourth, Player::Fourth) => true,
            _ => false,
        }
    }

    /// The player's wind, counted from the dealer, who sits East.
    pub fn seat(self, dealer: Player) -> Wind
        ensures { result ≡ spec.seat_of self dealer }
    {
        if self.is(dealer) {
            Wind::East
        } else if self.is(dealer.next()) {
            Wind::South
        } else if self.is(dealer.next().next()) {
            Wind::West
        } else {
            Wind::North
        }
    }
}

impl<T: Copy> ByPlayer<T> {
    /// The same for each.
    pub fn all(value: T) -> ByPlayer<T>
        ensures { result ≡ spec.same_for_all value }
    {
        ByPlayer {
            first: value,
            second: value,
            third: value,
            fourth: value,
        }
    }

    /// What a player has.
    pub fn get(&self, player: Player) -> T
        ensures { result ≡ spec.of_player self.now player }
    {
        match player {
            Player::First => self.first,
            Player::Second => self.second,
            Player::Third => self.third,
            Player::Fourth => self.fourth,
        }
    }

    /// The same, but that a player has another value.
    pub fn with(self, player: Player, value: T) -> ByPlayer<T>
        ensures { result ≡ spec.with_player self player value }
    {
        match player {
            Player::First => ByPlayer {
                first: value,
                ..self
            },
            Player::Second => ByPlayer {
                second: value,
                ..self
            },
            Player::Third => ByPlayer {
                third: value,
                ..self
            },
            Player::Fourth => ByPlayer {
                fourth: value,
                ..self
            },
        }
    }
}

impl ByPlayer<i32> {
    /// The same numbers.
    pub fn widened(&self) -> ByPlayer<i64>
        ensures { result ≡ self.now }
    {
        ByPlayer {
            first: i64::from(self.first),
            second: i64::from(self.second),
            third: i64::from(self.third),
            fourth: i64::from(self.fourth),
        }
    }
}

impl ByPlayer<bool> {
    /// Whether there is one.
    pub fn any(&self) -> bool
        ensures { result ≡ spec.of_some (spec.of_player self.now) }
    {
        self.first || self.second || self.third || self.fourth
    }

    /// How many of the players.
    pub fn count(&self) -> u8
        ensures value { result ≡ spec.count_players (spec.of_player self.now) }
        ensures most { result ≤ 4 }
    {
        one_where(self.first)
            + one_where(self.second)
            + one_where(self.third)
            + one_where(self.fourth)
    }
}

fn one_where(holds: bool) -> u8
    ensures value { result ≡ spec.one_where holds }
    ensures most { result ≤ 1 }
{
    if holds { 1 } else { 0 }
}
