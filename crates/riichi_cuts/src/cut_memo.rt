//! Cuts that were made before, in memory that was asked for.
ghost use Rattle.std.specs.Prelude.{◌≡◌, IfOk};

use crate::cut_source::CutSource;
use crate::kept_cut::{KeptCut, cut_at};
use crate::suit_cut::SuitCut;
use riichi_split::SuitTiles;
use std::alloc::{AllocError, Global};
use std::marker::Model;

/// A place for each of so many cuts. It is seen as their number.
#[derive(Drop)]
pub struct CutMemo {
    cuts: Vec<KeptCut>,
}

impl Model for CutMemo {
    ghost use Rattle.std.specs.Prelude.{ℕ, vec_len};

    ghost Value = { ℕ };

    ghost view = { λ memo. vec_len memo.cuts };
}

impl CutMemo {
    /// So many places of 16 bytes, all of them asked for here. Of a number that is no power of two some are never used.
    pub fn new(alloc: Global, places: usize) -> Result<CutMemo, AllocError>
        ensures { IfOk result (λ memo. memo ≡ places) }
    {
        let mut cuts = Vec::new(alloc);
        cuts.resize(places, KeptCut::of_nothing())?;
        Ok(CutMemo { cuts })
    }
}

impl CutSource for CutMemo {
    fn cut(&mut self, tiles: &SuitTiles) -> SuitCut {
        cut_at(&mut self.cuts, tiles)
    }
}
