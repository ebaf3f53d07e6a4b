//! Rows that are kept wherever there is room.
ghost use Rattle.std.specs.Prelude.{ℕ, ◌≡◌, ◌<◌, ◌≤◌, slice_index};
ghost use Rattle.riichi_rows.specs.Marks.{IsMarkedRow};
ghost use Rattle.riichi_cuts.specs.SuitCut.{IsCut};

use crate::kept_row::{KeptRow, row_at};
use crate::kept_upper::KeptUpper;
use crate::row::SuitRow;
use crate::row_key::RowKey;
use crate::row_memo::RowMemo;
use crate::row_source::RowSource;
use riichi_cuts::{CutSource, SuitCut, WaitMemo};
use riichi_split::SuitTiles;
use std::alloc::Global;
use std::marker::Model;

/// So many rows are kept in memory, of 67 bytes each.
const PLACES: usize = 32_768;

/// So many are kept in the value, and so many upper ranks.
const FEW_PLACES: usize = 1_024;

const FEW_UPPERS: usize = 16;

/// Rows and cuts that are kept in memory, or where no memory can be had in the value itself. So a program always has a source.
#[derive(Drop)]
pub enum SuitMemo {
    InMemory(RowMemo),
    InValue(FewPlaces),
}

/// Places in the value itself.
#[derive(Drop)]
pub struct FewPlaces {
    rows: [KeptRow; FEW_PLACES],
    uppers: [KeptUpper; FEW_UPPERS],
    cuts: WaitMemo,
}

impl Model for FewPlaces {
    ghost Value = { Unit {0} };

    ghost view = { λ few. tt };
}

impl SuitMemo {
    /// No row is kept yet.
    pub fn new(alloc: Global) -> SuitMemo {
        match RowMemo::new(alloc, PLACES) {
            Ok(memo) => SuitMemo::InMemory(memo),
            Err(_) => SuitMemo::in_value(),
        }
    }

    /// The same without memory.
    pub fn in_value() -> SuitMemo {
        SuitMemo::InValue(FewPlaces {
            rows: [KeptRow::of_nothing(); FEW_PLACES],
            uppers: [KeptUpper::of_nothing(); FEW_UPPERS],
            cuts: WaitMemo::in_value(),
        })
    }
}

impl CutSource for SuitMemo {
    fn cut(&mut self, tiles: &SuitTiles) -> SuitCut {
        match self {
            SuitMemo::InMemory(memo) => memo.cut(tiles),
            SuitMemo::InValue(few) => few.cuts.cut(tiles),
        }
    }
}

impl RowSource for SuitMemo {
    fn row(&mut self, counts: &[u8; 9], caps: &[u8; 9], runs: bool) -> SuitRow {
        match self {
            SuitMemo::InMemory(memo) => memo.row(counts, caps, runs),
            SuitMemo::InValue(few) => {
                let key = RowKey::new(counts, caps, runs);
                row_at(&mut few.rows, &mut few.uppers, &key)
            }
        }
    }
}
