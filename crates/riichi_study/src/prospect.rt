//! The best discards of a hand with what stands beyond the next step, in an order.
ghost use Rattle.std.specs.Prelude.{◌≡◌, ◌+◌, ◌<◌, List, Some, length, map};
ghost use Rattle.riichi_hand.specs.Hand.{size};
ghost use Rattle.riichi_hand.specs.HandParts.{ShapeParts};
ghost use Rattle.riichi_shape.specs.Choosing.{LeavesLeast};
ghost use Rattle.riichi_shape.specs.Discards.{discards_of, inserted_by};
ghost use Rattle.riichi_shape.specs.declared.discard.Discard as shape;
ghost use Rattle.std.specs.List.{position};
ghost use Rattle.riichi_study.specs.Prospects as spec;

use crate::order::Order;
use arrayvec::ArrayVec;
use riichi_deeper::{Outlook, deeper_without};
use riichi_hand::ShapeRecord;
use riichi_shape::{Discard, DiscardList, RowSource};

/// A best discard of fourteen tiles, and what stands beyond the next step after it: none where the hand is then ready.
#[derive(Clone, Copy, Debug, PartialEq, Eq)]
pub struct Prospect {
    pub discard: Discard,
    pub outlook: Option<Outlook>,
}

/// The most discards of a hand.
pub const MOST_PROSPECTS: usize = 14;

/// Discards in an order. No place is empty.
pub type Prospects = ArrayVec<Option<Prospect>, MOST_PROSPECTS>;

/// The figure by which an order puts a discard: none is above zero by live copies, since discards are found in that order.
fn figure_of(order: Order, outlook: &Option<Outlook>) -> u16
    ensures { result ≡ spec.figure_of order outlook.now }
{
    match (order, outlook) {
        (Order::Second, Some(outlook)) => outlook.second,
        (Order::Good, Some(outlook)) => outlook.good as u16,
        _ => 0,
    }
}

/// Whether a discard has no greater figure than this.
fn yields(held: &Option<Prospect>, order: Order, figure: u16) -> bool
    ensures { result ≡ spec.gives_way_to order figure held.now }
{
    match held {
        Some(prospect) => figure_of(order, &prospect.outlook) <= figure,
        None => true,
    }
}

/// The first place whose discard has no greater figure.
fn place_for(held: &[Option<Prospect>], order: Order, figure: u16) -> Option<usize>
    ensures { result ≡ position (spec.gives_way_to order figure) held.now }
{
    held.iter()
        .position(|prospect| yields(prospect, order, figure))
}

/// Puts a discard before the first whose figure is no greater.
fn put(prospects: &mut Prospects, order: Order, prospect: Prospect)
    requires { length prospects.old.items < MOST_PROSPECTS }
    ensures items { (parts : ShapeParts) (discard : shape.Discard) (discards : List shape.Discard)
        → prospects.old.items ≡ map (spec.kept_prospect parts) discards → Some prospect ≡ spec.kept_prospect parts discard
        → prospects.new.items ≡ map (spec.kept_prospect parts) (inserted_by (spec.figure parts order) discard discards) }
    ensures len { length prospects.new.items ≡ length prospects.old.items + 1 }
{
    let figure = figure_of(order, &prospect.outlook);
    let place = place_for(prospects.as_slice(), order, figure).unwrap_or(prospects.len());
    prospects.insert(place, Some(prospect));
}

/// The best discards of a hand of fourteen tiles in an order, each with what stands beyond.
pub fn prospects<R: RowSource>(
    source: &mut R,
    asked: &ShapeRecord,
    order: Order,
    discards: &DiscardList,
) -> Prospects
    requires fourteen { size asked.now.tiles asked.now.melds ≡ 14 }
    requires discards { discards.now ≡ discards_of asked.now.tiles asked.now.melds asked.now.seen }
    ensures value { result.items
        ≡ map (spec.kept_prospect asked.now) (spec.ordered_discards asked.now order) }
    ensures stays { source.new ≡ source.old }
{
    let mut prospects = Prospects::new();
    let count = discards.len();
    for done in 0..count {
        let Some(discard) = discards.get(count - 1 - done) else {
            unreachable!()
        };
        let outlook = deeper_without(source, asked, discard.kind);
        put(&mut prospects, order, Prospect { discard, outlook });
    }
    prospects
}
