//! The least lacks of one rank and all later ones, by the runs that are open there.

ghost use Rattle.std.specs.Prelude.{Bool, ◌≡◌, ℕ, List, ◌+◌, ◌<◌, ◌≤◌, ◌∷◌, [], bit_and};
ghost use Rattle.riichi_rows.specs.Open as table;
ghost use Rattle.riichi_rows.specs.Seen.{added_seen, begun_seen, open_seen};

use crate::added::Added;
use crate::costs::Costs;
use crate::marked_lanes::MarkedLanes;

/// By the number of runs begun one rank before.
#[derive(Clone, Copy)]
pub struct Begun {
    pub zero: MarkedLanes,
    pub one: MarkedLanes,
    pub two: MarkedLanes,
}

/// By the number of runs begun two ranks before.
#[derive(Clone, Copy)]
pub struct Open {
    pub zero: Begun,
    pub one: Begun,
    pub two: Begun,
}

impl Begun {
    /// By how many tiles the runs that begin at the rank before, a triplet and a pair take there.
    #[inline(always)]
    pub fn added(&self, runs: bool) -> Added
        ensures { (bit : ℕ) → table.IsAdded runs (begun_seen bit self.now) (added_seen bit result) }
    {
        let one = self.one.with_set().where_runs(runs);
        let two = self.two.with_set().with_set().where_runs(runs);
        Added {
            zero: self.zero,
            one,
            two: self.zero.with_pair().or(two),
            three: self.zero.with_set().or(one.with_pair()),
            four: one.with_set().or(two.with_pair()),
        }
    }
}

impl Open {
    /// After the last rank no run may be open.
    pub fn closed() -> Open
        ensures { (runs : Bool) (bit : ℕ) → table.LeastOpen runs [] [] (open_seen bit result) }
    {
        let none = MarkedLanes::none();
        let not_closed = Begun {
            zero: none,
            one: none,
            two: none,
        };
        Open {
            zero: Begun {
                zero: MarkedLanes::nothing(),
                one: none,
                two: none,
            },
            one: not_closed,
            two: not_closed,
        }
    }

    /// One rank more, of which the hand has so many tiles, and which is marked by the bit.
    #[inline(always)]
    pub fn before(&self, have: u8, limit: u8, bit: u8, runs: bool) -> Open
        requires { limit ≤ 4 }
        ensures others { (other : ℕ) (counts caps : List ℕ) → bit_and bit other ≡ 0
            → table.FewOpen (open_seen 0 self.now)
            → table.LeastOpen runs counts caps (open_seen other self.now)
            → table.LeastOpen runs (have ∷ counts) (limit ∷ caps) (open_seen other result) }
        ensures own { (counts caps : List ℕ) → 0 < bit → table.FewOpen (open_seen 0 self.now)
            → table.SameOpen (open_seen bit self.now) (open_seen 0 self.now)
            → table.LeastOpen runs counts caps (open_seen 0 self.now)
            → table.LeastOpen runs ((have + 1) ∷ counts) (limit ∷ caps) (open_seen bit result) }
    {
        let costs = Costs::new(have, limit, bit);
        let none_open = self.zero.added(runs);
        let one_open = self.one.added(runs);
        let two_open = self.two.added(runs);
        Open {
            zero: Begun {
                zero: none_open.lanes(0, &costs),
                one: one_open.lanes(1, &costs),
                two: two_open.lanes(2, &costs),
            },
            one: Begun {
                zero: none_open.lanes(1, &costs),
                one: one_open.lanes(2, &costs),
                two: two_open.lanes(3, &costs),
            },
            two: Begun {
                zero: none_open.lanes(2, &costs),
                one: one_open.lanes(3, &costs),
                two: two_open.lanes(4, &costs),
            },
        }
    }
}
