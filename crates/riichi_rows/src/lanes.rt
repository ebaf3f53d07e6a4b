//! Sixteen least lacks side by side: lane s is for s sets, lane 8 + s for s sets and a pair.

ghost use Rattle.std.specs.Prelude.{◌≡◌, ◌+◌, ◌<◌, ◌≤◌, ℕ, length};
ghost use Rattle.riichi_rows.specs.Lanes.{HasLanes, lane, none, nothing, with_set, with_pair, capped, opposite, LaneOf};
ghost use Rattle.std.specs.Prelude.{min};

use std::simd::prelude::*;

/// No choice: more than any choice lacks, and kept by every addition.
pub const NONE: u8 = 255;

/// The places that lanes with one set more come from, where 16 is none.
pub(crate) const ONE_SET_MORE: [usize; 16] = [
    16, 0, 1, 2, 3, 4, 5, 6, 16, 8, 9, 10, 11, 12, 13, 14,
];

/// Those of lanes with a pair, where they had none.
pub(crate) const WITH_A_PAIR: [usize; 16] = [
    16, 16, 16, 16, 16, 16, 16, 16, 0, 1, 2, 3, 4, 5, 6, 7,
];

#[derive(Clone, Copy)]
pub struct Lanes {
    pub lacks: u8x16,
    ghost sixteen: { length lacks ≡ 16 },
}

impl Lanes {
    /// No choice at all.
    pub fn none() -> Lanes
        ensures { HasLanes result.lacks none }
    {
        Lanes {
            lacks: u8x16::splat(NONE),
        }
    }

    /// Nothing chosen, nothing lacking.
    #[tactic(auto, using(crate::proofs::LaneLemmas::nothing_lanes))]
    pub fn nothing() -> Lanes
        ensures { HasLanes result.lacks nothing }
    {
        let none = u8x16::splat(NONE);
        let zero = u8x16::splat(0);
        let lacks = none.shuffle(
            zero,
            [16, 1, 2, 3, 4, 5, 6, 7, 8, 9, 10, 11, 12, 13, 14, 15],
        );
        Lanes { lacks }
    }

    /// The same choices with one set more.
    #[tactic(auto, using(crate::proofs::LaneLemmas::set_lanes))]
    pub fn with_set(self) -> Lanes
        ensures { HasLanes result.lacks (with_set (lane self.lacks)) }
    {
        let none = u8x16::splat(NONE);
        let lacks = self.lacks.shuffle(none, ONE_SET_MORE);
        Lanes { lacks }
    }

    /// The same choices with a pair, where they had none.
    #[tactic(auto, using(crate::proofs::LaneLemmas::pair_lanes))]
    pub fn with_pair(self) -> Lanes
        ensures { HasLanes result.lacks (with_pair (lane self.lacks)) }
    {
        let none = u8x16::splat(NONE);
        let lacks = self.lacks.shuffle(none, WITH_A_PAIR);
        Lanes { lacks }
    }

    /// The same choices, each with so many more tiles lacking.
    pub fn lacking(self, tiles: u8) -> Lanes
        ensures { HasLanes result.lacks (λ s p. capped (lane self.lacks s p + tiles)) }
    {
        let room = Lanes {
            lacks: !u8x16::splat(tiles),
        };
        let kept = self.or(room);
        Lanes {
            lacks: kept.lacks + u8x16::splat(tiles),
        }
    }

    /// Beside each lane the one that makes up so many sets and one pair with it.
    pub fn opposite(self, sets: u8) -> Lanes
        requires { sets ≤ 4 }
        ensures { (s p : ℕ) → s < 8 → p < 2
            → lane result.lacks s p ≡ opposite sets (lane self.lacks) s p }
    {
        let none = u8x16::splat(NONE);
        let lacks = match sets {
            0 => self.lacks.shuffle(
                none,
                [8, 16, 16, 16, 16, 16, 16, 16, 0, 16, 16, 16, 16, 16, 16, 16],
            ),
            1 => self.lacks.shuffle(
                none,
                [9, 8, 16, 16, 16, 16, 16, 16, 1, 0, 16, 16, 16, 16, 16, 16],
            ),
            2 => self.lacks.shuffle(
                none,
                [10, 9, 8, 16, 16, 16, 16, 16, 2, 1, 0, 16, 16, 16, 16, 16],
            ),
            3 => self.lacks.shuffle(
                none,
                [11, 10, 9, 8, 16, 16, 16, 16, 3, 2, 1, 0, 16, 16, 16, 16],
            ),
            _ => self.lacks.shuffle(
                none,
                [12, 11, 10, 9, 8, 16, 16, 16, 4, 3, 2, 1, 0, 16, 16, 16],
            ),
        };
        Lanes { lacks }
    }

    /// The same choices, those with a pair beside those without one.
    fn pairs_first(self) -> Lanes
        ensures { (s : ℕ) → s < 5 → lane result.lacks s 0 ≡ lane self.lacks s 1 }
    {
        let lacks = self
            .lacks
            .swizzle([8, 9, 10, 11, 12, 13, 14, 15, 0, 1, 2, 3, 4, 5, 6, 7]);
        Lanes { lacks }
    }

    /// The least of all.
    pub fn least(self) -> u8
        ensures bound { (s p : ℕ) → s < 5 → p < 2 → result ≤ lane self.lacks s p }
        ensures reached { LaneOf self.lacks result }
    {
        let lacks = self.or(self.pairs_first()).lacks.to_array();
        lacks[0]
            .min(lacks[1])
            .min(lacks[2])
            .min(lacks[3])
            .min(lacks[4])
    }

    /// The better of two choices.
    pub fn or(self, other: Lanes) -> Lanes
        ensures { HasLanes result.lacks (λ s p. min (lane self.lacks s p) (lane other.lacks s p)) }
    {
        Lanes {
            lacks: self.lacks.simd_min(other.lacks),
        }
    }
}

/// The sums of two vectors, lane by lane.
pub(crate) fn add_lanes(left: u8x16, right: u8x16) -> Lanes
    ensures { (s p : ℕ) → s < 8 → p < 2
        → lane result.lacks s p ≡ capped (lane left s p + lane right s p) }
{
    Lanes {
        lacks: left.saturating_add(right),
    }
}
