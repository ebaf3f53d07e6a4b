//! The chances of one number of turns.
ghost use Rattle.std.specs.Prelude.{◌≡◌, ◌≤◌};
ghost use Rattle.riichi_chances.specs.Odds as spec;

use crate::chances::Chances;
use riichi_tiles::Kind;

/// Of all ordered draws of so many unseen tiles those that bring a hand to be ready, and those by which it wins; and how many any
/// play that keeps only what brings the hand nearer has at most.
#[derive(Clone, Copy, Debug, PartialEq, Eq, Drop)]
pub struct Odds {
    pub ready: u128,
    pub ready_at_most: u128,
    pub win: u128,
    pub win_at_most: u128,
    pub all: u128,
}

/// Those after a discard.
#[derive(Clone, Copy, Debug, PartialEq, Eq, Drop)]
pub struct DiscardOdds {
    pub kind: Kind,
    pub odds: Odds,
}

impl Default for DiscardOdds {
    fn default() -> DiscardOdds {
        DiscardOdds {
            kind: Kind::at(0),
            odds: Chances::none().at(0),
        }
    }
}

impl Odds {
    /// Whether this play wins in more draws than any play that the others bound: both are of as many draws.
    pub fn wins_surely_over(&self, other: &Odds) -> bool
        ensures { result ≡ spec.is_surely_over self.now other.now }
    {
        other.win_at_most < self.win
    }
}

impl Chances {
    /// Those of one number of turns.
    pub fn at(&self, turns: u8) -> Odds
        requires { turns ≤ 18 }
        ensures { result ≡ spec.odds_at self.now turns }
    {
        let place = turns as usize;
        Odds {
            ready: self.ready[place],
            ready_at_most: self.ready_at_most[place],
            win: self.win[place],
            win_at_most: self.win_at_most[place],
            all: self.all[place],
        }
    }
}
