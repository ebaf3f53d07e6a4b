//! The row of one suit.
ghost use Rattle.std.specs.Prelude.{ℕ, ◌≡◌, ◌<◌, ◌≤◌, if◌then◌else◌, length};
ghost use Rattle.riichi_rows.specs.Lanes.{lane, mark};
ghost use Rattle.riichi_rows.specs.Suit.{entry_of};

use crate::lanes::{Lanes, NONE};
use std::simd::prelude::*;

/// For up to four sets, with and without a pair: the least number of tiles lacking.
#[derive(Clone, Copy)]
pub struct SuitRow {
    pub(crate) entries: Lanes,
    /// The same with one more tile of the first rank.
    pub(crate) first: Lanes,
    /// A bit for each later rank that some choice with the least lack lacks.
    pub(crate) marks: u8x16,
    ghost sixteen: { length marks ≡ 16 },
    ghost sound: { (s p : ℕ) → s < 5 → p < 2 → lane entries.lacks s p ≡ 0 → mark marks s p ≡ 0 },
    ghost small: { (s p : ℕ) → s < 5 → p < 2 → lane entries.lacks s p < 255 → lane entries.lacks s p ≤ 36 },
}

/// The entry that a lane stands for.
#[inline(always)]
pub(crate) fn entry(lack: u8) -> Option<u8>
    ensures { result ≡ entry_of lack }
{
    if lack < NONE { Some(lack) } else { None }
}

impl SuitRow {
    ghost use Rattle.riichi_rows.specs.Row.{entries_of_row};

    /// The entry, or None where no choice keeps within the caps.
    pub fn get(&self, sets: u8, pair: bool) -> Option<u8>
        requires { sets ≤ 4 }
        ensures { result ≡ entries_of_row self.now sets (if pair then 1 else 0) }
    {
        let lanes = self.entries.lacks.to_array();
        let lack = if pair {
            lanes[8 + sets as usize]
        } else {
            lanes[sets as usize]
        };
        entry(lack)
    }
}
