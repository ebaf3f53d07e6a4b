//! Rows that were made before, in places that the caller lends.
ghost use Rattle.std.specs.Prelude.{ℕ, ◌≡◌, ◌<◌, ◌≤◌, length, slice_index};
ghost use Rattle.riichi_cuts.specs.SuitCut.{IsCut};

use crate::kept_row::{KeptRow, row_at};
use crate::kept_upper::KeptUpper;
use crate::row::SuitRow;
use crate::row_key::RowKey;
use crate::row_source::RowSource;
use riichi_cuts::{CutSource, KeptCut, LentCuts, SuitCut};
use riichi_split::SuitTiles;
use std::marker::Model;

/// Places for rows, others for the upper ranks of which they are made, and those for cuts. An array that is lent is made where it stands,
/// while a value that holds it is moved.
#[derive(Drop)]
pub struct LentMemo<'a> {
    rows: &'a mut [KeptRow],
    uppers: &'a mut [KeptUpper],
    cuts: LentCuts<'a>,
}

impl<'a> Model for LentMemo<'a> {
    ghost use Rattle.std.specs.Prelude.{ℕ, ◌<◌, length};

    ghost Value = { ℕ × ℕ };

    ghost view = { λ memo. (length memo.rows.now, length memo.uppers.now) };

    ghost invariant = { λ memo. (0 < length memo.rows.now) × (0 < length memo.uppers.now) };
}

impl<'a> LentMemo<'a> {
    /// Their numbers should be powers of two: else some places are never used. Without places for cuts each is made anew.
    pub fn new(
        rows: &'a mut [KeptRow],
        uppers: &'a mut [KeptUpper],
        cuts: &'a mut [KeptCut],
    ) -> LentMemo<'a>
        requires rows { 0 < length rows.old }
        requires uppers { 0 < length uppers.old }
    {
        let cuts = LentCuts::new(cuts);
        LentMemo { rows, uppers, cuts }
    }
}

impl<'a> CutSource for LentMemo<'a> {
    fn cut(&mut self, tiles: &SuitTiles) -> SuitCut {
        self.cuts.cut(tiles)
    }
}

impl<'a> RowSource for LentMemo<'a> {
    fn row(&mut self, counts: &[u8; 9], caps: &[u8; 9], runs: bool) -> SuitRow {
        row_at(self.rows, self.uppers, &RowKey::new(counts, caps, runs))
    }
}
