//! A hand after a best discard.
ghost use Rattle.std.specs.Prelude.{◌≡◌, ◌<◌, true};
ghost use Rattle.riichi_hand.specs.Hand.{is_thirteen, size};
ghost use Rattle.riichi_shape.specs.Choosing.{LeavesLeast};
ghost use Rattle.riichi_shape.specs.EveryWinning.{distance_of};
ghost use Rattle.riichi_chances.specs.Counted.{parts_less};

use riichi_hand::ShapeRecord;
use riichi_tiles::Kind;

/// Thirteen tiles after a best discard, which is not looked at any more.
pub(crate) fn best_discarded(drawn: &ShapeRecord, kind: Kind) -> ShapeRecord
    requires fourteen { size drawn.now.tiles drawn.now.melds ≡ 14 }
    requires best { LeavesLeast drawn.now.tiles drawn.now.melds kind }
    requires far { 0 < distance_of drawn.now.tiles drawn.now.melds }
    ensures value { result ≡ parts_less drawn.now kind }
    ensures thirteen { is_thirteen result.tiles result.melds ≡ true }
    ensures as_near { distance_of result.tiles result.melds ≡ distance_of drawn.now.tiles drawn.now.melds }
{
    let _inside = kind.index();
    let mut tiles = drawn.tiles();
    tiles.remove(kind);
    let melds = drawn.melds();
    let seen = drawn.seen();
    match ShapeRecord::new(tiles, melds, seen) {
        Ok(rest) => rest,
        Err(_) => unreachable!(),
    }
}
