//! Where the rows of suits come from.
ghost use Rattle.std.specs.Prelude.{ℕ, ◌≡◌, ◌<◌, ◌≤◌, slice_index};
ghost use Rattle.riichi_rows.specs.Marks.{IsMarkedRow};
ghost use Rattle.riichi_cuts.specs.SuitCut.{IsCut};

use crate::ranks::suit_row;
use crate::row::SuitRow;
use riichi_cuts::{CutSource, SuitCut, cut_of};
use riichi_split::SuitTiles;

/// What answers for suit rows, and for the cuts of suits: it may make each one anew, or keep those that it has made.
/// It stays what its callers see of it, so that a cache keeps its capacity.
pub trait RowSource: CutSource {
    /// The row of a suit, of which a choice holds no kind oftener than its cap. Honours have no
    /// runs, and their last two counts and caps are 0.
    fn row(&mut self, counts: &[u8; 9], caps: &[u8; 9], runs: bool) -> SuitRow
        requires { (r : ℕ) → r < 9 → slice_index caps.now r ≤ 4 }
        ensures row { IsMarkedRow runs counts.now caps.now result }
        ensures stays { self.new ≡ self.old };
}

/// Makes each row and each cut anew, and keeps none.
#[derive(Clone, Copy, Debug)]
pub struct FreshRows;

impl CutSource for FreshRows {
    fn cut(&mut self, tiles: &SuitTiles) -> SuitCut {
        cut_of(tiles)
    }
}

impl RowSource for FreshRows {
    fn row(&mut self, counts: &[u8; 9], caps: &[u8; 9], runs: bool) -> SuitRow {
        suit_row(*counts, *caps, runs)
    }
}
