//! The suit that has the pair: its tiles are two more than some sets have.
ghost use Rattle.std.specs.Prelude.{◌≡◌, ◌%◌, ◌<◌, ℕ, List, Some, slice_index, sum_by};
ghost use Rattle.std.specs.List.{range_with_len};
ghost use Rattle.riichi_tiles.specs.Kinds.{first_of, kinds_of, suit_of};
ghost use Rattle.riichi_tiles.specs.declared.block.Block.{Block};
ghost use Rattle.riichi_split.specs.Readings.{IsSplit};

use riichi_tiles::{BySuit, Suit};

/// The suit that has the pair of each split, where there is one.
pub(crate) fn suit_of_pair(counts: &[u8; 34]) -> Option<Suit>
    ensures { (melds : ℕ) (sets : List Block) (pair : ℕ) → IsSplit counts.now melds sets pair
        → result ≡ Some (suit_of pair) }
{
    let rests = BySuit::of(|suit| rest_of(counts, suit));
    if rests.total() != 2 {
        return None;
    }
    for suit in Suit::ALL {
        if rests.get(suit) == 2 {
            return Some(suit);
        }
    }
    None
}

/// How many tiles of a suit are left over beside sets of three.
fn rest_of(counts: &[u8; 34], suit: Suit) -> usize
    ensures value { result
        ≡ sum_by (slice_index counts.now) (range_with_len (first_of suit) (kinds_of suit)) % 3 }
    ensures rest { result < 3 }
{
    let mut total = 0usize;
    for rank in 0..suit.kinds() {
        total += counts[suit.first() + rank] as usize;
    }
    total % 3
}
