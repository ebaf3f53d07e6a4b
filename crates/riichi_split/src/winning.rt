//! Winning hands.
ghost use Rattle.std.specs.Prelude.{◌↔◌, ◌<◌, ◌≤◌, ℕ, IsTrue, slice_index};
ghost use Rattle.riichi_tiles.specs.Forms.{HasWinningForm};
ghost use Rattle.riichi_tiles.specs.Tiles.{IsCounts};
ghost use Rattle.riichi_split.specs.Winning.{HasReading, IsWin, HasSplit};

use crate::special::{are_seven_pairs, are_thirteen_orphans};
use crate::standard::has_split;
use riichi_tiles::Counts;

/// The tiles have a reading beside so many melds. It does not matter which of them wins.
pub fn is_win(counts: &Counts, melds: u8) -> bool
    ensures wins { IsTrue result ↔ IsWin counts.now melds }
    ensures by_any { (winning : ℕ) → 0 < slice_index counts.now winning
        → IsTrue result ↔ HasReading counts.now melds winning }
{
    has_winning_form(counts, melds as usize)
}

/// The tiles are four sets and a pair, the melds among the sets, or seven pairs, or thirteen orphans.
fn has_winning_form(counts: &Counts, melds: usize) -> bool
    ensures form { IsTrue result ↔ ((melds ≤ 4) × HasWinningForm melds counts.now) }
    ensures counts { IsCounts counts.now }
{
    let tiles = counts.as_array();
    are_sets_and_pair(counts, melds)
        || are_seven_pairs(tiles, melds)
        || are_thirteen_orphans(tiles, melds)
}

fn are_sets_and_pair(counts: &Counts, melds: usize) -> bool
    ensures { IsTrue result ↔ HasSplit counts.now melds }
{
    if melds > 4 || counts.total() as usize + 3 * melds != 14 {
        return false;
    }
    has_split(counts.as_array(), melds)
}
