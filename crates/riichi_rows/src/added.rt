//! The later choices of a rank by the tiles that they add to it.

ghost use Rattle.std.specs.Prelude.{Bool, ◌≡◌, ℕ, List, ◌+◌, ◌-◌, ◌<◌, ◌≤◌, ◌∷◌, bit_and, min};
ghost use Rattle.riichi_rows.specs.Columns.{AreLeast};
ghost use Rattle.riichi_rows.specs.Costs.{AreCosts};
ghost use Rattle.riichi_rows.specs.Lanes.{IsFew, capped};
ghost use Rattle.riichi_rows.specs.Open as table;
ghost use Rattle.riichi_rows.specs.Open.{cost};
ghost use Rattle.riichi_rows.specs.Seen.{added_seen, seen};

use crate::costs::Costs;
use crate::marked_lanes::MarkedLanes;

/// By how many tiles of a rank the runs that begin there, a triplet and a pair take together.
#[derive(Clone, Copy)]
pub struct Added {
    pub zero: MarkedLanes,
    pub one: MarkedLanes,
    pub two: MarkedLanes,
    pub three: MarkedLanes,
    pub four: MarkedLanes,
}

/// The better of some choices and of others that take so many tiles of the rank. None takes more
/// than four.
#[inline(always)]
fn or_taking(some: MarkedLanes, others: MarkedLanes, used: u8, costs: &Costs) -> MarkedLanes
    ensures others { (have limit bit other s p : ℕ) → limit ≤ 4
        → AreCosts have limit bit costs.now → bit_and bit other ≡ 0 → s < 5 → p < 2
        → IsFew (seen 0 others s p) → seen other some s p ≤ 255
        → seen other result s p
        ≡ min (seen other some s p) (capped (seen other others s p + cost have limit used)) }
    ensures own { (have limit bit s p : ℕ) → limit ≤ 4
        → AreCosts have limit bit costs.now → 0 < bit → s < 5 → p < 2
        → IsFew (seen 0 others s p) → seen bit others s p ≡ seen 0 others s p
        → seen bit some s p ≤ 255
        → seen bit result s p
        ≡ min (seen bit some s p) (capped (seen 0 others s p + cost (have + 1) limit used)) }
{
    if used > 4 {
        some
    } else {
        some.or(others.lacking(costs.of(used)))
    }
}

impl Added {
    /// The lanes of a rank of these costs with a runs begun one rank before and b before that, where
    /// `self` has those of the next rank with a runs begun before.
    #[inline(always)]
    pub fn lanes(&self, runs_open: u8, costs: &Costs) -> MarkedLanes
        requires { runs_open ≤ 4 }
        // as they are with one more tile of another rank, or of none
        ensures others { (runs : Bool) (have limit bit other : ℕ) (counts caps : List ℕ) (a b : ℕ)
            (later : table.Begun) → limit ≤ 4 → AreCosts have limit bit costs.now
            → bit_and bit other ≡ 0 → table.FewAdded (added_seen 0 self.now) → a + b ≡ runs_open
            → table.IsAdded runs later (added_seen other self.now) → table.LeastBegun runs counts caps a later
            → AreLeast runs (have ∷ counts) (limit ∷ caps) a b (seen other result) }
        // with one more tile of this rank
        ensures own { (runs : Bool) (have limit bit : ℕ) (counts caps : List ℕ) (a b : ℕ)
            (later : table.Begun) → limit ≤ 4 → AreCosts have limit bit costs.now → 0 < bit
            → table.FewAdded (added_seen 0 self.now)
            → table.SameAdded (added_seen bit self.now) (added_seen 0 self.now) → a + b ≡ runs_open
            → table.IsAdded runs later (added_seen 0 self.now) → table.LeastBegun runs counts caps a later
            → AreLeast runs ((have + 1) ∷ counts) (limit ∷ caps) a b (seen bit result) }
    {
        let zero = self.zero.lacking(costs.of(runs_open));
        let one = or_taking(zero, self.one, runs_open + 1, costs);
        let two = or_taking(one, self.two, runs_open + 2, costs);
        let three = or_taking(two, self.three, runs_open + 3, costs);
        or_taking(three, self.four, runs_open + 4, costs)
    }
}
