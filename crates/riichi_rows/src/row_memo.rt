//! Rows that were made before, in memory that was asked for.
ghost use Rattle.std.specs.Prelude.{ℕ, ◌≡◌, ◌<◌, ◌≤◌, IfOk, slice_index};
ghost use Rattle.riichi_cuts.specs.SuitCut.{IsCut};

use crate::kept_row::{KeptRow, row_at};
use crate::kept_upper::KeptUpper;
use crate::memory::Memory;
use crate::row::SuitRow;
use crate::row_key::RowKey;
use crate::row_source::RowSource;
use riichi_cuts::{CutMemo, CutSource, SuitCut};
use riichi_split::SuitTiles;
use std::alloc::Global;
use std::marker::Model;

/// So many places for upper ranks, of 307 bytes.
const UPPERS: usize = 512;

/// So many places for cuts.
const CUTS: usize = 8_192;

/// A place for each of so many rows, and places for cuts. It is seen as the number of the rows.
#[derive(Drop)]
pub struct RowMemo {
    rows: Vec<KeptRow>,
    uppers: Vec<KeptUpper>,
    cuts: CutMemo,
}

impl Model for RowMemo {
    ghost use Rattle.std.specs.Prelude.{ℕ, ◌<◌, vec_len};

    ghost Value = { ℕ };

    ghost view = { λ memo. vec_len memo.rows };

    ghost invariant = { λ memo. (0 < vec_len memo.rows) × (0 < vec_len memo.uppers) };
}

impl RowMemo {
    /// So many places of 67 bytes, and those for upper ranks and for cuts, all of them asked for here. Of a number that is no power of
    /// two some are never used.
    pub fn new(alloc: Global, places: usize) -> Result<RowMemo, Memory>
        requires { 0 < places }
        ensures { IfOk result (λ memo. memo ≡ places) }
    {
        let mut rows = Vec::new(alloc);
        let mut uppers = Vec::new(alloc);
        let of_rows = rows.resize(places, KeptRow::of_nothing());
        let of_uppers = uppers.resize(UPPERS, KeptUpper::of_nothing());
        match (of_rows, of_uppers, CutMemo::new(alloc, CUTS)) {
            (Ok(()), Ok(()), Ok(cuts)) => Ok(RowMemo { rows, uppers, cuts }),
            _ => Err(Memory),
        }
    }
}

impl CutSource for RowMemo {
    fn cut(&mut self, tiles: &SuitTiles) -> SuitCut {
        self.cuts.cut(tiles)
    }
}

impl RowSource for RowMemo {
    fn row(&mut self, counts: &[u8; 9], caps: &[u8; 9], runs: bool) -> SuitRow {
        row_at(
            &mut self.rows,
            &mut self.uppers,
            &RowKey::new(counts, caps, runs),
        )
    }
}
