//! The rows that were asked for last.
ghost use Rattle.std.specs.Prelude.{ℕ, ◌≡◌, ◌<◌, ◌≤◌, IfOk, slice_index};
ghost use Rattle.riichi_rows.specs.Marks.{IsMarkedRow};
ghost use Rattle.riichi_rows.specs.Kept.{AreRows};
ghost use Rattle.riichi_cuts.specs.SuitCut.{IsCut};

use crate::memory::Memory;
use crate::ranks::suit_row;
use crate::row::SuitRow;
use crate::row_key::RowKey;
use crate::row_source::RowSource;
use lru::LruCache;
use riichi_cuts::{CutMemo, CutSource, SuitCut};
use riichi_split::SuitTiles;
use std::alloc::Global;
use std::marker::Model;
use std::num::NonZeroUsize;

/// Rows by what they are made of, at most as many as its capacity; the one that was asked for
/// least recently goes first. Beside them are places for as many cuts. It is seen as its capacity.
#[derive(Drop)]
pub struct RowCache {
    rows: LruCache<RowKey, SuitRow>,
    cuts: CutMemo,
}

impl Model for RowCache {
    ghost use Rattle.std.specs.Prelude.{ℕ};
    ghost use Rattle.riichi_rows.specs.Kept.{AreRows};

    ghost Value = { ℕ };

    ghost view = { λ c. c.rows.cap };

    ghost invariant = { λ c. AreRows c.rows.entries };
}

impl RowCache {
    /// A cache that keeps no row yet. All its places are asked for here.
    pub fn new(alloc: Global, capacity: usize) -> Result<RowCache, Memory>
        requires some { 0 < capacity }
        requires most { capacity ≤ 65536 }
        ensures { IfOk result (λ cache. cache ≡ capacity) }
    {
        let Some(places) = NonZeroUsize::new(capacity) else {
            unreachable!()
        };
        match (LruCache::new(alloc, places), CutMemo::new(alloc, capacity)) {
            (Ok(rows), Ok(cuts)) => Ok(RowCache { rows, cuts }),
            _ => Err(Memory),
        }
    }
}

/// The row of a key, which is kept and becomes the one that was asked for last; where it is made and
/// all places are taken, the one that was asked for least recently goes. Without memory it is not kept.
fn kept_row(rows: &mut LruCache<RowKey, SuitRow>, key: RowKey) -> SuitRow
    requires caps { (r : ℕ) → r < 9 → slice_index key.caps r ≤ 4 }
    requires rows { AreRows rows.old.entries }
    ensures row { IsMarkedRow key.runs key.counts key.caps result }
    ensures rows { AreRows rows.new.entries }
    ensures capacity { rows.new.cap ≡ rows.old.cap }
{
    let make = || -> SuitRow
        requires { (r : ℕ) → r < 9 → slice_index key.caps r ≤ 4 }
        ensures { IsMarkedRow key.runs key.counts key.caps result }
    { suit_row(key.counts, key.caps, key.runs) };
    match rows.get_or_insert(key, make) {
        Ok(row) => *row,
        Err(_) => suit_row(key.counts, key.caps, key.runs),
    }
}

impl CutSource for RowCache {
    fn cut(&mut self, tiles: &SuitTiles) -> SuitCut {
        self.cuts.cut(tiles)
    }
}

impl RowSource for RowCache {
    fn row(&mut self, counts: &[u8; 9], caps: &[u8; 9], runs: bool) -> SuitRow {
        let key = RowKey {
            counts: *counts,
            caps: *caps,
            runs,
        };
        kept_row(&mut self.rows, key)
    }
}
