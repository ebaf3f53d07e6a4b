//! What stands after a call.
ghost use Rattle.std.specs.Prelude.{◌≡◌, ◌<◌, IfSome, Some, None, if◌then◌else◌, true};
ghost use Rattle.riichi_hand.specs.Hand.{copies_with, is_thirteen};
ghost use Rattle.riichi_tiles.specs.Melds.{is_meld, tiles_of};
ghost use Rattle.riichi_shape.specs.Accepted.{with_one};
ghost use Rattle.riichi_deeper.specs.Calls as spec;
ghost use Rattle.riichi_deeper.specs.CallLaws.{CanCall};

use riichi_hand::ShapeRecord;
use riichi_tiles::{Counts, Kind, Meld};

/// The tiles that are left where a meld is laid down, or none where not all of its tiles are there.
fn laid_down(held: &Counts, meld: &Meld) -> Option<Counts>
    ensures { result ≡ (if spec.has_meld held.now meld.now
        then Some (spec.laid_down held.now meld.now) else None) }
{
    let mut left = held.to_array();
    for number in 0..34u8 {
        let taken = meld.tiles(Kind::at(number));
        let there = left[number as usize];
        if there < taken {
            return None;
        }
        left[number as usize] = there - taken;
    }
    Counts::of(&left)
}

/// The hand after a call, where it has the other tiles of the meld.
pub(crate) fn after_call(asked: &ShapeRecord, tile: Kind, meld: &Meld) -> Option<ShapeRecord>
    requires thirteen { is_thirteen asked.now.tiles asked.now.melds ≡ true }
    requires left { copies_with asked.now tile < 4 }
    requires proper { is_meld meld.now ≡ true }
    requires has_tile { 0 < tiles_of meld.now tile }
    ensures can { IfSome result (λ after. CanCall asked.now tile meld.now) }
    ensures value { result ≡ (if spec.has_meld (with_one asked.now.tiles tile) meld.now
        then Some (spec.parts_after asked.now tile meld.now) else None) }
{
    let _inside = tile.index();
    let mut tiles = asked.tiles();
    tiles.add(tile);
    let left = laid_down(&tiles, meld)?;
    let mut melds = asked.melds();
    melds.push(*meld);
    let seen = asked.seen();
    match ShapeRecord::new(left, melds, seen) {
        Ok(after) => Some(after),
        Err(_) => unreachable!(),
    }
}
