//! What the kinds that a ready hand waits for bring.
ghost use Rattle.std.specs.Prelude.{◌≡◌, ◌*◌, ◌≤◌, true};
ghost use Rattle.riichi_hand.specs.Hand.{is_thirteen};
ghost use Rattle.riichi_shape.specs.Accepted.{accepted_of};
ghost use Rattle.riichi_worth.specs.CountedPoints.{prizes_of};

use crate::stakes::{MOST_PRIZE, Stakes};
use riichi_hand::ShapeRecord;
use riichi_shape::{Accepts, LiveList, RowSource, shape_with};
use riichi_tiles::Kind;

/// The points that the draws of a hand's kinds bring, each as often as it is live.
pub(crate) fn prizes<R: RowSource>(source: &mut R, hand: &ShapeRecord, stakes: &Stakes) -> u64
    requires thirteen { is_thirteen hand.now.tiles hand.now.melds ≡ true }
    ensures value { result ≡ prizes_of stakes.now hand.now }
    ensures most { result ≤ 136 * MOST_PRIZE }
    ensures stays { source.new ≡ source.old }
{
    let answer = shape_with(source, hand);
    match &answer.accepts {
        Accepts::Thirteen(accepted) => prizes_among(hand, accepted, stakes),
        Accepts::Fourteen(_) => unreachable!(),
    }
}

/// The same by the live copies.
fn prizes_among(hand: &ShapeRecord, accepted: &LiveList, stakes: &Stakes) -> u64
    requires accepted { accepted.now
        ≡ accepted_of hand.now.tiles hand.now.melds hand.now.seen }
    ensures value { result ≡ prizes_of stakes.now hand.now }
    ensures most { result ≤ 136 * MOST_PRIZE }
{
    let copies = accepted.copies();
    let mut sum = 0;
    for number in 0..34u8 {
        let live = copies[number as usize];
        if live > 0 {
            sum += u64::from(live) * u64::from(stakes.prize(hand, Kind::at(number)));
        }
    }
    sum
}
