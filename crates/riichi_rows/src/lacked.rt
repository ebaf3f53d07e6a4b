//! The ranks that the least choices of a suit lack, beside the other suits.
ghost use Rattle.std.specs.Prelude.{ℕ, ◌≡◌, ◌↔◌, ◌<◌, ◌≤◌, IsTrue, bit_and, nat_lt};
ghost use Rattle.riichi_rows.specs.Lanes.{SomeLane, lane, mark};
ghost use Rattle.riichi_rows.specs.Marks.{AreMarkedBeside};

use crate::joined::JoinedRows;
use crate::lanes::{Lanes, add_lanes};
use crate::rank_set::RankSet;
use crate::row::SuitRow;
use std::simd::prelude::*;

/// Whether one tile more makes some lane lack fewer, of those whose sum is just `least`.
fn any_fewer(sums: Lanes, least: u8, lacks: Lanes, fewer: Lanes) -> bool
    ensures { IsTrue result
        ↔ SomeLane sums.lacks least (λ s p. nat_lt (lane fewer.lacks s p) (lane lacks.lacks s p)) }
{
    let takes_part = sums.lacks.simd_eq(u8x16::splat(least));
    let with_more = takes_part.select(fewer.lacks, lacks.lacks);
    with_more.simd_lt(lacks.lacks).to_bitmask() > 0
}

/// The marks of the lanes whose sum is just `least`, together.
fn marks_at(sums: Lanes, least: u8, marks: u8x16) -> u8
    ensures { (bit : ℕ)
        → IsTrue (nat_lt 0 (bit_and result bit))
        ↔ SomeLane sums.lacks least (λ s p. nat_lt 0 (bit_and (mark marks s p) bit)) }
{
    let takes_part = sums.lacks.simd_eq(u8x16::splat(least));
    takes_part.select(marks, u8x16::splat(0)).reduce_or()
}

impl JoinedRows {
    /// The ranks that some least choice of a row lacks, where it takes part in a sum of just
    /// `least` tiles.
    pub fn lacked_by(&self, row: &SuitRow, sets: u8, least: u8) -> RankSet
        requires sets { sets ≤ 4 }
        requires least { least < 255 }
        ensures { AreMarkedBeside row.now self.now sets least result }
    {
        let sums = add_lanes(row.entries.lacks, self.sums.opposite(sets).lacks);
        RankSet {
            first: any_fewer(sums, least, row.entries, row.first),
            later: marks_at(sums, least, row.marks),
        }
    }
}
