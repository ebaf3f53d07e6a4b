//! Cuts that were made before, in places that the caller lends.
ghost use Rattle.std.specs.Prelude.{◌≡◌, length};

use crate::cut_source::CutSource;
use crate::kept_cut::{KeptCut, cut_at};
use crate::suit_cut::SuitCut;
use riichi_split::SuitTiles;
use std::marker::Model;

/// Places for cuts. An array that is lent is made where it stands, while a value that holds it is moved.
#[derive(Drop)]
pub struct LentCuts<'a> {
    cuts: &'a mut [KeptCut],
}

impl<'a> Model for LentCuts<'a> {
    ghost use Rattle.std.specs.Prelude.{ℕ, length};

    ghost Value = { ℕ };

    ghost view = { λ memo. length memo.cuts.now };
}

impl<'a> LentCuts<'a> {
    /// Their number should be a power of two: else some places are never used.
    pub fn new(cuts: &'a mut [KeptCut]) -> LentCuts<'a>
        ensures { result ≡ length cuts.entry.now }
    {
        LentCuts { cuts }
    }
}

impl<'a> CutSource for LentCuts<'a> {
    fn cut(&mut self, tiles: &SuitTiles) -> SuitCut {
        cut_at(self.cuts, tiles)
    }
}
