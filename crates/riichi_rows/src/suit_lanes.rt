//! The lanes of a whole suit.
ghost use Rattle.std.specs.Prelude.{Bool, List, ℕ, ◌≡◌, ◌<◌, ◌≤◌, length, slice_index};
ghost use Rattle.riichi_rows.specs.Lanes.{lane};

use crate::lanes::Lanes;
use crate::marked_lanes::MarkedLanes;
use crate::row::SuitRow;

/// The lanes of a whole suit. The first rank has no mark: `first` are the least lacks with one more
/// tile of it.
#[derive(Clone, Copy)]
pub(crate) struct SuitLanes {
    pub(crate) all: MarkedLanes,
    pub(crate) first: Lanes,
    ghost small: { (s p : ℕ) → s < 5 → p < 2 → lane all.lacks.lacks s p < 255 → lane all.lacks.lacks s p ≤ 36 },
}

impl SuitLanes {
    ghost use Rattle.riichi_rows.specs.Marks.{IsMarkedRow};
    ghost use Rattle.riichi_rows.specs.Ranks.{AreSuitLanes};

    /// The row that shows them.
    pub(crate) fn row(self) -> SuitRow
        ensures { (runs : Bool) (counts caps : List ℕ) → length counts ≡ 9 → length caps ≡ 9
            → ((r : ℕ) → r < 9 → slice_index caps r ≤ 4) → AreSuitLanes runs counts caps self
            → IsMarkedRow runs counts caps result }
    {
        SuitRow {
            entries: self.all.lacks,
            first: self.first,
            marks: self.all.marks,
        }
    }
}
