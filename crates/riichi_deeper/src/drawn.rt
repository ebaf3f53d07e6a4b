//! A hand with one tile more, or after a discard.
ghost use Rattle.std.specs.Prelude.{◌≡◌, ◌<◌, nat_lt, slice_index, true};
ghost use Rattle.riichi_hand.specs.Hand.{copies_with, is_thirteen, size};
ghost use Rattle.riichi_deeper.specs.Drawn as spec;

use riichi_hand::ShapeRecord;
use riichi_tiles::Kind;

/// Whether a copy of the kind is neither in the hand and its melds nor seen elsewhere, so that it can be drawn, or thrown by
/// another.
pub fn is_left(asked: &ShapeRecord, kind: Kind) -> bool
    ensures { result ≡ nat_lt (copies_with asked.now kind) 4 }
{
    let held = asked.tiles().get(kind) + asked.melds().tiles(kind);
    held + asked.seen().get(kind) < 4
}

/// The hand of fourteen tiles once a tile has come to it.
pub fn with_tile(asked: &ShapeRecord, kind: Kind) -> ShapeRecord
    requires thirteen { is_thirteen asked.now.tiles asked.now.melds ≡ true }
    requires left { copies_with asked.now kind < 4 }
    ensures value { result ≡ spec.parts_with asked.now kind }
    ensures fourteen { size result.tiles result.melds ≡ 14 }
{
    let _inside = kind.index();
    let mut tiles = asked.tiles();
    tiles.add(kind);
    let melds = asked.melds();
    let seen = asked.seen();
    match ShapeRecord::new(tiles, melds, seen) {
        Ok(drawn) => drawn,
        Err(_) => unreachable!(),
    }
}

/// The hand of thirteen tiles after a discard, which is seen from then on.
pub fn without_tile(asked: &ShapeRecord, kind: Kind) -> ShapeRecord
    requires fourteen { size asked.now.tiles asked.now.melds ≡ 14 }
    requires held { 0 < slice_index asked.now.tiles kind }
    ensures value { result ≡ spec.parts_without asked.now kind }
    ensures thirteen { is_thirteen result.tiles result.melds ≡ true }
{
    let _inside = kind.index();
    let mut tiles = asked.tiles();
    tiles.remove(kind);
    let mut seen = asked.seen();
    seen.add(kind);
    let melds = asked.melds();
    match ShapeRecord::new(tiles, melds, seen) {
        Ok(rest) => rest,
        Err(_) => unreachable!(),
    }
}
