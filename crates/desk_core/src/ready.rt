//! Whether a hand is ready.
ghost use Rattle.std.specs.Prelude.{◌≡◌, ◌↔◌, pos, IsTrue};
ghost use Rattle.riichi_shape.specs.EveryWinning.{shanten_of};
ghost use Rattle.desk_core.specs.Ready.{HasWait};

use riichi_hand::HandRecord;
use riichi_shape::shanten;

/// Whether a hand is ready: its shanten is 0, and it waits for some tile. It is never the one
/// without the other.
///
/// A hand whose only tiles are all held, in hand or melds, is not ready.
pub fn is_ready(hand: &HandRecord) -> bool
    ensures shanten { IsTrue result ↔ (shanten_of hand.now.concealed hand.now.melds ≡ pos 0) }
    ensures waits { IsTrue result ↔ HasWait hand.now }
{
    let tiles = hand.concealed();
    let melds = hand.melds();
    let thirteen = tiles.total() as usize + 3 * melds.count() == 13;
    prove!(thirteen);
    shanten(&tiles, &melds) == 0
}
