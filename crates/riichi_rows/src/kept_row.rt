//! Rows with what they were made of.
ghost use Rattle.std.specs.Prelude.{ℕ, ◌≡◌, ◌<◌, ◌≤◌, IfSome, length, slice_index};
ghost use Rattle.riichi_rows.specs.Marks.{IsMarkedRow};

use crate::kept_upper::{KeptUpper, upper_at};
use crate::ranks::{suit_row, suit_row_over};
use crate::row::SuitRow;
use crate::row_key::RowKey;
use std::marker::Model;

/// The row of a key.
#[derive(Clone, Copy)]
pub struct KeptRow {
    key: RowKey,
    row: SuitRow,
}

impl Model for KeptRow {
    ghost use Rattle.riichi_rows.specs.declared.row.SuitRow.{SuitRow};
    ghost use Rattle.riichi_rows.specs.declared.row_key.RowKey.{RowKey};
    ghost use Rattle.riichi_rows.specs.Marks.{IsMarkedRow};

    ghost Value = { RowKey × SuitRow };

    ghost view = { λ kept. (kept.key, kept.row) };

    ghost invariant = { λ kept. IsMarkedRow kept.key.runs kept.key.counts kept.key.caps kept.row };

    ghost inverse = { λ pair. record { key = pair.0; row = pair.1 } };
}

impl KeptRow {
    /// Becomes the row of a key, which is made over its upper ranks; these may be kept. It stands apart from where rows are
    /// found, which is quick.
    #[inline(never)]
    fn make(&mut self, uppers: &mut [KeptUpper], key: &RowKey) -> SuitRow
        requires uppers { 0 < length uppers.old }
        requires caps { (r : ℕ) → r < 9 → slice_index key.now.caps r ≤ 4 }
        ensures row { IsMarkedRow key.now.runs key.now.counts key.now.caps result }
        ensures uppers { length uppers.new ≡ length uppers.old }
    {
        let upper = upper_at(uppers, key);
        let row = suit_row_over(&upper, &key.counts, &key.caps, key.runs);
        *self = KeptRow { key: *key, row };
        row
    }

    /// The row of no tiles of which none may be held: what stands in a place before another row.
    pub fn of_nothing() -> KeptRow {
        KeptRow {
            key: RowKey::new(&[0; 9], &[0; 9], false),
            row: suit_row([0; 9], [0; 9], false),
        }
    }

    /// The row, if it is the row of this key.
    #[inline(always)]
    fn row_of(&self, key: &RowKey) -> Option<SuitRow>
        ensures { IfSome result (IsMarkedRow key.now.runs key.now.counts key.now.caps) }
    {
        if self.key.is(key) {
            Some(self.row)
        } else {
            None
        }
    }
}

/// The row of a key: one that is kept, or a new one over upper ranks that may be kept. It stands at its place or behind that;
/// a new one stands first, and the older of the two gives way.
pub(crate) fn row_at(rows: &mut [KeptRow], uppers: &mut [KeptUpper], key: &RowKey) -> SuitRow
    requires rows { 0 < length rows.old }
    requires uppers { 0 < length uppers.old }
    requires caps { (r : ℕ) → r < 9 → slice_index key.now.caps r ≤ 4 }
    ensures row { IsMarkedRow key.now.runs key.now.counts key.now.caps result }
    ensures rows { length rows.new ≡ length rows.old }
    ensures uppers { length uppers.new ≡ length uppers.old }
{
    let newer = key.place(rows.len());
    let older = (newer + 1).min(rows.len() - 1);
    if let Some(row) = rows[newer].row_of(key) {
        return row;
    }
    if let Some(row) = rows[older].row_of(key) {
        return row;
    }
    rows[older] = rows[newer];
    rows[newer].make(uppers, key)
}
