//! A row in one pass over the nine ranks of a suit.
ghost use Rattle.std.specs.Prelude.{ℕ, List, ◌≡◌, ◌+◌, ◌-◌, ◌^◌, ◌<◌, ◌≤◌, length, slice_index};
ghost use Rattle.riichi_rows.specs.Marks.{AreMarks, IsMarkedRow};
ghost use Rattle.riichi_rows.specs.Ranks.{AreRanks, AreSuitLanes};
ghost use Rattle.riichi_rows.specs.Row.{entries_of_row};
ghost use Rattle.riichi_rows.specs.Suit.{IsSuitRow};

use crate::open::Open;
use crate::row::SuitRow;
use crate::suit_lanes::SuitLanes;

/// The bit of a rank in a mark.
#[inline(always)]
fn bit_of(rank: usize) -> u8
    requires later { 0 < rank }
    requires rank { rank < 9 }
    ensures { result ≡ 2 ^ (rank - 1) }
{
    1 << (rank - 1)
}

/// One tile more, up to four.
fn with_one(have: u8) -> u8
    ensures few { have < 4 → result ≡ have + 1 }
    ensures many { 4 ≤ have → result ≡ have }
{
    if have < 4 { have + 1 } else { have }
}

/// The ranks from the fifth on. What they lack depends on their own counts and caps alone, so suits that are alike there
/// have it in common.
pub fn upper_ranks(counts: &[u8; 9], caps: &[u8; 9], runs: bool) -> Open
    requires { (r : ℕ) → r < 9 → slice_index caps.now r ≤ 4 }
    ensures { AreRanks runs 4 counts.now caps.now result }
{
    let mut later = Open::closed();
    for rank in (4..9).rev() {
        later = later.before(counts[rank], caps[rank], bit_of(rank), runs);
    }
    later
}

/// All ranks but the first, over those from the fifth on.
fn later_ranks(upper: &Open, counts: &[u8; 9], caps: &[u8; 9], runs: bool) -> Open
    requires caps { (r : ℕ) → r < 9 → slice_index caps.now r ≤ 4 }
    requires upper { AreRanks runs 4 counts.now caps.now upper.now }
    ensures { AreRanks runs 1 counts.now caps.now result }
{
    let mut later = *upper;
    for rank in (2..4).rev() {
        later = later.before(counts[rank], caps[rank], bit_of(rank), runs);
    }
    later.before(counts[1], caps[1], bit_of(1), runs)
}

/// No run is open before the first rank.
fn suit_lanes(upper: &Open, counts: &[u8; 9], caps: &[u8; 9], runs: bool) -> SuitLanes
    requires caps { (r : ℕ) → r < 9 → slice_index caps.now r ≤ 4 }
    requires upper { AreRanks runs 4 counts.now caps.now upper.now }
    ensures { AreSuitLanes runs counts.now caps.now result }
{
    let later = later_ranks(upper, counts, caps, runs);
    let all = later.before(counts[0], caps[0], 0, runs);
    let first = later.before(with_one(counts[0]), caps[0], 0, runs);
    SuitLanes {
        all: all.zero.zero,
        first: first.zero.zero.lacks,
    }
}

/// The row of a suit over its ranks from the fifth on.
pub fn suit_row_over(upper: &Open, counts: &[u8; 9], caps: &[u8; 9], runs: bool) -> SuitRow
    requires caps { (r : ℕ) → r < 9 → slice_index caps.now r ≤ 4 }
    requires upper { AreRanks runs 4 counts.now caps.now upper.now }
    ensures { IsMarkedRow runs counts.now caps.now result }
{
    suit_lanes(upper, counts, caps, runs).row()
}

/// The row of a suit, of which a choice holds no kind oftener than its cap. Honours have no runs,
/// and their last two counts and caps are 0.
pub fn suit_row(counts: [u8; 9], caps: [u8; 9], runs: bool) -> SuitRow
    requires { (r : ℕ) → r < 9 → slice_index caps r ≤ 4 }
    ensures least { IsSuitRow runs counts caps (entries_of_row result) }
    ensures marks { AreMarks runs counts caps result }
{
    let upper = upper_ranks(&counts, &caps, runs);
    suit_row_over(&upper, &counts, &caps, runs)
}
