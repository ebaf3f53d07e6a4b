//! What the melds leave of each kind.
ghost use Rattle.std.specs.Prelude.{ℕ, ◌≡◌, ◌+◌, ◌-◌, ◌<◌, ◌≤◌, slice_index};
ghost use Rattle.riichi_tiles.specs.Kinds.{first_of, kinds_of};
ghost use Rattle.riichi_tiles.specs.Melds.{tiles};
ghost use Rattle.riichi_shape.specs.Suits.{AreHandCaps};

use crate::suit_caps::SuitCaps;
use riichi_tiles::{BySuit, Melds, Suit, meld_tiles};

/// How many of each kind a winning multiset may hold beside the melds, suit by suit. It is counted
/// once a hand: the melds stay as they are while tiles are added and removed.
pub(crate) type HandCaps = BySuit<SuitCaps>;

/// The caps of a suit beside so many melded tiles of each kind.
#[inline(always)]
fn suit_caps(melded: &[u8; 34], suit: Suit) -> SuitCaps
    requires { (k : ℕ) → slice_index melded.now k ≤ 4 }
    ensures caps { (rank : ℕ) → rank < kinds_of suit
        → slice_index result.left rank ≡ 4 - slice_index melded.now (first_of suit + rank) }
    ensures none_past { (rank : ℕ) → kinds_of suit ≤ rank → slice_index result.left rank ≡ 0 }
{
    let mut left = [0; 9];
    for rank in 0..suit.kinds() {
        left[rank] = 4 - melded[suit.first() + rank];
    }
    SuitCaps { left }
}

/// What these melds leave.
pub(crate) fn hand_caps_of(melds: &Melds) -> HandCaps
    requires { (k : ℕ) → k < 34 → tiles melds.now k ≤ 4 }
    ensures { AreHandCaps melds.now result }
{
    let melded = meld_tiles(melds);
    BySuit::of(|suit| suit_caps(&melded, suit))
}
