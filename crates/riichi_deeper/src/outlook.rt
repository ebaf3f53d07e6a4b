//! Second and good.
ghost use Rattle.std.specs.Prelude.{◌≡◌, ◌<◌, ◌≤◌, if◌then◌else◌, nat_le, slice_index, true};
ghost use Rattle.riichi_hand.specs.Hand.{is_thirteen, size};
ghost use Rattle.riichi_shape.specs.Accepted.{accepted_of};
ghost use Rattle.riichi_shape.specs.Ordered.{AreOrdered};
ghost use Rattle.riichi_deeper.specs.Deeper as spec;

use crate::drawn::{with_tile, without_tile};
use crate::nearer::is_far;
use riichi_hand::ShapeRecord;
use riichi_shape::{Accepts, DiscardList, LiveList, RowSource, shape_with};
use riichi_tiles::Kind;

/// What stands beyond the next step of a hand of thirteen tiles.
#[derive(Clone, Copy, Debug, PartialEq, Eq)]
pub struct Outlook {
    /// Over the accepted kinds the sum of the live copies times the most live copies that a best discard then leaves.
    pub second: u16,
    /// How many live copies the accepted kinds have after which a best discard leaves at least [`LEAST_GOOD`].
    pub good: u8,
}

/// So many live copies are a good wait: more than those of a single kind.
pub const LEAST_GOOD: u8 = 5;

/// The most live copies that a best discard of fourteen tiles leaves: those of the first in the list.
fn best_left<R: RowSource>(source: &mut R, asked: &ShapeRecord) -> u8
    requires { size asked.now.tiles asked.now.melds ≡ 14 }
    ensures value { result ≡ spec.best_left asked.now }
    ensures stays { source.new ≡ source.old }
{
    let answer = shape_with(source, asked);
    match &answer.accepts {
        Accepts::Fourteen(discards) => first_live(discards),
        Accepts::Thirteen(_) => unreachable!(),
    }
}

/// How many live copies the first discard of a list leaves.
fn first_live(discards: &DiscardList) -> u8
    ensures { AreOrdered discards.now → result ≡ spec.most_live discards.now }
{
    match discards.short_at(0) {
        Some(first) => first.live,
        None => 0,
    }
}

/// The live copies of a kind after which so many are left, where these are enough.
fn good_copies(live: u8, left: u8) -> u8
    ensures value { result ≡ (if nat_le 5 left then live else 0) }
    ensures few { result ≤ live }
{
    if left >= LEAST_GOOD { live } else { 0 }
}

/// Both sums over what a hand accepts.
fn sums<R: RowSource>(source: &mut R, asked: &ShapeRecord, accepted: &LiveList) -> Outlook
    requires thirteen { is_thirteen asked.now.tiles asked.now.melds ≡ true }
    requires accepted { accepted.now ≡ accepted_of asked.now.tiles asked.now.melds asked.now.seen }
    ensures second { result.second ≡ spec.second_of asked.now }
    ensures good { result.good ≡ spec.good_of asked.now }
    ensures stays { source.new ≡ source.old }
{
    let copies = accepted.copies();
    let mut second = 0;
    let mut good = 0;
    for number in 0..34u8 {
        let live = copies[number as usize];
        if live > 0 {
            let left = best_left(source, &with_tile(asked, Kind::at(number)));
            second += live as u16 * left as u16;
            good += good_copies(live, left);
        }
    }
    Outlook { second, good }
}

/// Second and good of a hand of thirteen tiles; of a ready hand none.
pub fn deeper<R: RowSource>(source: &mut R, asked: &ShapeRecord) -> Option<Outlook>
    requires { is_thirteen asked.now.tiles asked.now.melds ≡ true }
    ensures value { result ≡ spec.deeper_of asked.now }
    ensures stays { source.new ≡ source.old }
{
    let answer = shape_with(source, asked);
    if is_far(answer.shanten) {
        match &answer.accepts {
            Accepts::Thirteen(accepted) => Some(sums(source, asked, accepted)),
            Accepts::Fourteen(_) => unreachable!(),
        }
    } else {
        None
    }
}

/// The same after a discard of a hand of fourteen tiles.
pub fn deeper_without<R: RowSource>(
    source: &mut R,
    asked: &ShapeRecord,
    kind: Kind,
) -> Option<Outlook>
    requires fourteen { size asked.now.tiles asked.now.melds ≡ 14 }
    requires held { 0 < slice_index asked.now.tiles kind }
    ensures value { result ≡ spec.deeper_without asked.now kind }
    ensures stays { source.new ≡ source.old }
{
    deeper(source, &without_tile(asked, kind))
}
