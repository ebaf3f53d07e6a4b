//! Cuts that are kept wherever there is room.
ghost use Rattle.std.specs.Prelude.{◌≡◌};

use crate::cut_memo::CutMemo;
use crate::cut_source::CutSource;
use crate::kept_cut::{KeptCut, cut_at};
use crate::suit_cut::SuitCut;
use riichi_split::SuitTiles;
use std::alloc::Global;
use std::marker::Model;

/// So many cuts are kept in memory, of 16 bytes each.
const PLACES: usize = 8_192;

/// So many are kept in the value.
const FEW_PLACES: usize = 1_024;

/// Cuts that are kept in memory, or where no memory can be had in the value itself. So a program always has a source.
#[derive(Drop)]
pub enum WaitMemo {
    InMemory(CutMemo),
    InValue(FewCuts),
}

/// Places in the value itself.
#[derive(Drop)]
pub struct FewCuts {
    cuts: [KeptCut; FEW_PLACES],
}

impl Model for FewCuts {
    ghost Value = { Unit {0} };

    ghost view = { λ few. tt };
}

impl WaitMemo {
    /// No cut is kept yet.
    pub fn new(alloc: Global) -> WaitMemo {
        match CutMemo::new(alloc, PLACES) {
            Ok(memo) => WaitMemo::InMemory(memo),
            Err(_) => WaitMemo::in_value(),
        }
    }

    /// The same without memory.
    pub fn in_value() -> WaitMemo {
        WaitMemo::InValue(FewCuts {
            cuts: [KeptCut::of_nothing(); FEW_PLACES],
        })
    }
}

impl CutSource for WaitMemo {
    fn cut(&mut self, tiles: &SuitTiles) -> SuitCut {
        match self {
            WaitMemo::InMemory(memo) => memo.cut(tiles),
            WaitMemo::InValue(few) => cut_at(&mut few.cuts, tiles),
        }
    }
}
