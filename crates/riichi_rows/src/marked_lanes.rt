//! Sixteen least lacks, each with the ranks that some choice of that lack lacks.

ghost use Rattle.std.specs.Prelude.{◌≡◌, ◌+◌, ◌-◌, ◌<◌, ◌≤◌, ℕ, List, bit_and, if◌then◌else◌, length, min, nat_lt};
ghost use Rattle.riichi_rows.specs.Open.{IsMarkOf};
ghost use Rattle.riichi_rows.specs.Lanes.{Agree, HasRoomForFour, none, nothing, with_set, with_pair, capped, lacks_with, lane, mark, where_runs};

use crate::cost::Cost;
use crate::lanes::{Lanes, ONE_SET_MORE, WITH_A_PAIR};
use std::simd::prelude::*;

/// A mark has a bit for each rank that it names. What stands beside no choice says nothing.
#[derive(Clone, Copy)]
pub struct MarkedLanes {
    pub lacks: Lanes,
    pub marks: u8x16,
    ghost sixteen: { length marks ≡ 16 },
    ghost sound: { (s p : ℕ) → s < 5 → p < 2 → lane lacks.lacks s p ≡ 0 → mark marks s p ≡ 0 },
}

impl MarkedLanes {
    /// No choice at all.
    pub fn none() -> MarkedLanes
        ensures { (bit : ℕ) → Agree (lacks_with bit result.lacks.lacks result.marks) none }
    {
        MarkedLanes {
            lacks: Lanes::none(),
            marks: u8x16::splat(0),
        }
    }

    /// Nothing chosen, nothing lacking.
    pub fn nothing() -> MarkedLanes
        ensures { (bit : ℕ) → Agree (lacks_with bit result.lacks.lacks result.marks) nothing }
    {
        MarkedLanes {
            lacks: Lanes::nothing(),
            marks: u8x16::splat(0),
        }
    }

    /// These choices where runs may begin, and none where none may.
    pub fn where_runs(self, runs: bool) -> MarkedLanes
        ensures { (bit : ℕ)
            → Agree (lacks_with bit result.lacks.lacks result.marks) (where_runs runs
            (lacks_with bit self.lacks.lacks self.marks)) }
    {
        if runs { self } else { MarkedLanes::none() }
    }

    /// The same choices with one set more.
    pub fn with_set(self) -> MarkedLanes
        ensures { (bit : ℕ)
            → Agree (lacks_with bit result.lacks.lacks result.marks) (with_set
            (lacks_with bit self.lacks.lacks self.marks)) }
    {
        let unmarked = u8x16::splat(0);
        let marks = self.marks.shuffle(unmarked, ONE_SET_MORE);
        MarkedLanes {
            lacks: self.lacks.with_set(),
            marks,
        }
    }

    /// The same choices with a pair, where they had none.
    pub fn with_pair(self) -> MarkedLanes
        ensures { (bit : ℕ)
            → Agree (lacks_with bit result.lacks.lacks result.marks) (with_pair
            (lacks_with bit self.lacks.lacks self.marks)) }
    {
        let unmarked = u8x16::splat(0);
        let marks = self.marks.shuffle(unmarked, WITH_A_PAIR);
        MarkedLanes {
            lacks: self.lacks.with_pair(),
            marks,
        }
    }

    /// The same choices at the cost of some tiles of a rank.
    pub fn lacking(self, cost: Cost) -> MarkedLanes
        // what was lacked of other ranks stays lacked
        ensures others { (bit other s p : ℕ) → IsMarkOf bit cost.tiles cost.mark → s < 5 → p < 2
            → bit_and bit other ≡ 0 → (cost.tiles < 255 → cost.tiles ≤ 4)
            → HasRoomForFour (lacks_with 0 self.lacks.lacks self.marks s p)
            → lacks_with other result.lacks.lacks result.marks s p
            ≡ capped (lacks_with other self.lacks.lacks self.marks s p + cost.tiles) }
        // with one more tile of the rank one less is lacking, where any is
        ensures own { (bit s p : ℕ) → IsMarkOf bit cost.tiles cost.mark → s < 5 → p < 2 → 0 < bit
            → (cost.tiles < 255 → cost.tiles ≤ 4)
            → HasRoomForFour (lacks_with 0 self.lacks.lacks self.marks s p)
            → (cost.tiles ≡ 0
            → lacks_with bit self.lacks.lacks self.marks s p
            ≡ lacks_with 0 self.lacks.lacks self.marks s p)
            → lacks_with bit result.lacks.lacks result.marks s p
            ≡ capped (lacks_with 0 self.lacks.lacks self.marks s p +
            (if nat_lt cost.tiles 255 then cost.tiles - 1 else 255)) }
    {
        MarkedLanes {
            lacks: self.lacks.lacking(cost.tiles),
            marks: self.marks | u8x16::splat(cost.mark),
        }
    }

    /// The better of two choices; of two that lack as much the marks of both.
    pub fn or(self, other: MarkedLanes) -> MarkedLanes
        ensures { (bit : ℕ)
            → Agree (lacks_with bit result.lacks.lacks result.marks) (λ s p. min
            (lacks_with bit self.lacks.lacks self.marks s p)
            (lacks_with bit other.lacks.lacks other.marks s p)) }
    {
        let unmarked = u8x16::splat(0);
        let lacks = self.lacks.lacks;
        let others = other.lacks.lacks;
        let own = lacks.simd_le(others).select(self.marks, unmarked);
        let theirs = others.simd_le(lacks).select(other.marks, unmarked);
        MarkedLanes {
            lacks: self.lacks.or(other.lacks),
            marks: own | theirs,
        }
    }
}
