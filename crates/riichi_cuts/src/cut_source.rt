//! Where the cuts of suits come from.
ghost use Rattle.std.specs.Prelude.{◌≡◌};
ghost use Rattle.riichi_cuts.specs.SuitCut.{IsCut};

use crate::suit_cut::{SuitCut, cut_of};
use riichi_split::SuitTiles;

/// What answers for the cuts of suits: it may make each one anew, or keep those that it has made. It stays what its
/// callers see of it.
pub trait CutSource {
    /// The cut of some tiles.
    fn cut(&mut self, tiles: &SuitTiles) -> SuitCut
        ensures cut { IsCut tiles.now result }
        ensures stays { self.new ≡ self.old };
}

/// Makes each cut anew, and keeps none.
#[derive(Clone, Copy, Debug)]
pub struct FreshCuts;

impl CutSource for FreshCuts {
    fn cut(&mut self, tiles: &SuitTiles) -> SuitCut {
        cut_of(tiles)
    }
}
