//! How many tiles are unseen.
ghost use Rattle.std.specs.Prelude.{◌≡◌, ◌≤◌, true};
ghost use Rattle.riichi_hand.specs.Hand.{is_thirteen, size};
ghost use Rattle.riichi_chances.specs.Draws.{unseen_of};
ghost use Rattle.riichi_chances.specs.Laws.{IsFourteen, IsThirteen};

use riichi_hand::ShapeRecord;
use riichi_tiles::meld_tiles;

/// How many tiles are neither in a hand and its melds nor seen elsewhere.
pub fn unseen_tiles(asked: &ShapeRecord) -> u8
    ensures value { result ≡ unseen_of asked.now }
    ensures most { result ≤ 136 }
    ensures thirteen { is_thirteen asked.now.tiles asked.now.melds ≡ true → IsThirteen asked.now }
    ensures fourteen { size asked.now.tiles asked.now.melds ≡ 14 → IsFourteen asked.now }
{
    let held = asked.tiles().to_array();
    let melded = meld_tiles(&asked.melds());
    let elsewhere = asked.seen().to_array();
    let mut unseen = 0;
    for kind in 0..34usize {
        unseen += 4u8.saturating_sub(held[kind] + melded[kind] + elsewhere[kind]);
    }
    unseen
}
