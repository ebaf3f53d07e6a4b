//! The row of one suit of a hand.
ghost use Rattle.std.specs.Prelude.{ℕ, ◌≡◌, ◌+◌, ◌<◌, ◌≤◌, List, slice_index};
ghost use Rattle.riichi_tiles.specs.Kinds.{first_of, kinds_of};
ghost use Rattle.riichi_tiles.specs.declared.meld.Meld.{Meld};
ghost use Rattle.riichi_shape.specs.Suits.{AreHandCaps, IsRowOf};
ghost use Rattle.riichi_tiles.specs.Tiles.{IsCounts};

use crate::hand_caps::HandCaps;
use riichi_rows::{RowSource, SuitRow};
use riichi_tiles::{Counts, Suit};

/// The counts of a suit.
#[inline(always)]
fn suit_counts(counts: &Counts, suit: Suit) -> [u8; 9]
    ensures held { (r : ℕ) → r < kinds_of suit
        → slice_index result r ≡ slice_index counts.now (first_of suit + r) }
    ensures counts { IsCounts counts.now }
{
    let held = counts.as_array();
    let mut ranks = [0; 9];
    for rank in 0..suit.kinds() {
        ranks[rank] = held[suit.first() + rank];
    }
    ranks
}

/// The row of one suit of a hand. Honours have no runs.
#[inline(always)]
pub(crate) fn suit_row_of<R: RowSource>(
    source: &mut R,
    hand: &Counts,
    caps: &HandCaps,
    suit: Suit,
) -> SuitRow
    ensures row { (melds : List Meld) → AreHandCaps melds caps.now
        → IsRowOf suit hand.now melds result }
    ensures stays { source.new ≡ source.old }
{
    let counts = suit_counts(hand, suit);
    source.row(&counts, &caps.lent(suit).left, suit.kinds() == 9)
}
