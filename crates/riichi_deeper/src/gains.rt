//! The calls that bring a hand nearer, and a kong.
ghost use Rattle.std.specs.Prelude.{◌≡◌, ◌<◌, Some, false, true};
ghost use Rattle.riichi_hand.specs.Hand.{copies_with, is_thirteen};
ghost use Rattle.riichi_shape.specs.EveryWinning.{shanten_of};
ghost use Rattle.riichi_tiles.specs.Melds.{is_kong, is_meld, tiles_of};
ghost use Rattle.riichi_deeper.specs.Calls as spec;

use crate::after::after_call;
use crate::nearer::is_nearer;
use crate::thrown::{Claim, Thrown};
use riichi_hand::ShapeRecord;
use riichi_shape::{Accepts, DiscardList, RowSource, ShapeAnswer, shanten_with, shape_with};
use riichi_tiles::{Kind, Meld};

/// A call after which some discard leaves the hand nearer than it was.
#[derive(Clone, Copy, Debug)]
pub struct Call {
    /// What is laid down, with the called tile.
    pub meld: Meld,
    /// The best discards after it, each with what it then accepts: those that leave the hand nearer.
    pub discards: DiscardList,
}

/// The call for a meld, where it brings a hand of this shanten nearer.
fn gain_of<R: RowSource>(
    source: &mut R,
    asked: &ShapeRecord,
    shanten: i8,
    tile: Kind,
    meld: &Meld,
) -> Option<Call>
    requires thirteen { is_thirteen asked.now.tiles asked.now.melds ≡ true }
    requires left { copies_with asked.now tile < 4 }
    requires shanten { shanten ≡ shanten_of asked.now.tiles asked.now.melds }
    requires proper { is_meld meld.now ≡ true }
    requires no_kong { is_kong meld.now ≡ false }
    requires has_tile { 0 < tiles_of meld.now tile }
    ensures value { result ≡ spec.gaining_call asked.now tile (Some meld.now) }
    ensures stays { source.new ≡ source.old }
{
    let after = after_call(asked, tile, meld)?;
    let answer = shape_with(source, &after);
    if is_nearer(answer.shanten, shanten) {
        match &answer.accepts {
            Accepts::Fourteen(discards) => Some(Call {
                meld: *meld,
                discards: *discards,
            }),
            Accepts::Thirteen(_) => unreachable!(),
        }
    } else {
        None
    }
}

/// The call for a claim, where it brings the hand nearer.
fn call_of<R: RowSource>(
    source: &mut R,
    asked: &ShapeRecord,
    shanten: i8,
    thrown: &Thrown,
    claim: Claim,
) -> Option<Call>
    requires thirteen { is_thirteen asked.now.tiles asked.now.melds ≡ true }
    requires left { copies_with asked.now thrown.now.tile < 4 }
    requires shanten { shanten ≡ shanten_of asked.now.tiles asked.now.melds }
    ensures value { result ≡ spec.call_of asked.now thrown.now claim }
    ensures stays { source.new ≡ source.old }
{
    let meld = claim.meld(thrown)?;
    gain_of(source, asked, shanten, thrown.tile, &meld)
}

/// The calls of a thrown tile that bring a hand of thirteen tiles nearer: for a run of which it is the highest, the middle or
/// the lowest tile, and for a triplet.
pub fn calls<R: RowSource>(
    source: &mut R,
    asked: &ShapeRecord,
    thrown: &Thrown,
) -> [Option<Call>; 4]
    requires thirteen { is_thirteen asked.now.tiles asked.now.melds ≡ true }
    requires left { copies_with asked.now thrown.now.tile < 4 }
    ensures value { result ≡ spec.calls_of asked.now thrown.now }
    ensures stays { source.new ≡ source.old }
{
    let shanten = shanten_with(source, &asked.tiles(), &asked.melds());
    let highest = call_of(source, asked, shanten, thrown, Claim::Highest);
    let middle = call_of(source, asked, shanten, thrown, Claim::Middle);
    let lowest = call_of(source, asked, shanten, thrown, Claim::Lowest);
    let triplet = call_of(source, asked, shanten, thrown, Claim::Triplet);
    [highest, middle, lowest, triplet]
}

/// How far the hand is once it has called the tile for a kong, and what it then accepts, before it draws; none where it doesn't
/// hold the other three. It is never nearer than before ([`laws::kongs`](crate::laws::kongs)).
pub fn kong<R: RowSource>(source: &mut R, asked: &ShapeRecord, tile: Kind) -> Option<ShapeAnswer>
    requires thirteen { is_thirteen asked.now.tiles asked.now.melds ≡ true }
    requires left { copies_with asked.now tile < 4 }
    ensures value { result ≡ spec.kong_of asked.now tile }
    ensures stays { source.new ≡ source.old }
{
    let after = after_call(asked, tile, &Meld::Kan(tile))?;
    Some(shape_with(source, &after))
}
