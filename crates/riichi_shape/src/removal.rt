//! Which tile to discard from a hand of fourteen.
ghost use Rattle.std.specs.Prelude.{ℕ, ◌≡◌, ◌≢◌, ◌<◌, ◌≤◌, MatchOption, slice_index};
ghost use Rattle.riichi_hand.specs.Hand.{size};
ghost use Rattle.riichi_tiles.specs.Melds.{tiles};
ghost use Rattle.riichi_shape.specs.Discards as spec;
ghost use Rattle.riichi_shape.specs.EveryWinning.{distance_of};
ghost use Rattle.riichi_shape.specs.KeptDiscards.{IsKept, IsToldOf};
ghost use Rattle.riichi_shape.specs.Rows.{AreFormsOf};

use crate::acceptance::{accepted_by, live_copies};
use crate::discard_list::DiscardList;
use crate::discard_order::DiscardOrder;
use crate::distance::distance_with;
use crate::hand_forms::HandForms;
use crate::hand_rows::row_at;
use crate::kept_discard::KeptDiscard;
use crate::live_copies::LiveCopies;
use riichi_rows::RowSource;
use riichi_tiles::{Counts, Kind, Melds};

/// The discard of a kind and what is accepted after it, where it leaves just so many tiles lacking. The tile
/// that is discarded is seen, so as many copies of each kind are live as were before.
fn discard_of<R: RowSource>(
    source: &mut R,
    forms: &HandForms,
    least: u8,
    hand: &Counts,
    melds: &Melds,
    live: &LiveCopies,
    kind: Kind,
) -> Option<KeptDiscard>
    requires melded { (k : ℕ) → k < 34 → tiles melds.now k ≤ 4 }
    requires forms { AreFormsOf hand.now melds.now forms.now }
    requires held { 0 < slice_index hand.now kind }
    ensures kept { MatchOption result (spec.distance_without hand.now melds.now kind ≢ least)
        (λ kept. (spec.distance_without hand.now melds.now kind ≡ least)
        × IsToldOf hand.now melds.now kind live.now.copies kept × IsKept live.now.copies kept) }
    ensures stays { source.new ≡ source.old }
{
    let mut rest = *hand;
    rest.remove(kind);
    let row = row_at(source, &rest, &forms.caps, kind);
    let floor = forms.special.distance();
    if distance_with(&forms.joins, floor, kind, &row, &rest, melds) != least {
        return None;
    }
    let lacked = forms.lacked_without(hand, melds, kind, &row, least);
    let accepted = accepted_by(&lacked, &rest, live);
    Some(KeptDiscard::new(kind, live.among(accepted), accepted))
}

/// The kinds whose removal leaves the least distance, each with what it then accepts. From a hand that is not
/// complete some tile can go without loss; a complete one lacks a tile after any discard.
pub(crate) fn discards_by<R: RowSource>(
    source: &mut R,
    forms: &HandForms,
    distance: u8,
    hand: &Counts,
    melds: &Melds,
    seen: &Counts,
) -> DiscardList
    requires melded { (k : ℕ) → k < 34 → tiles melds.now k ≤ 4 }
    requires forms { AreFormsOf hand.now melds.now forms.now }
    requires distance { distance ≡ distance_of hand.now melds.now }
    requires fourteen { size hand.now melds.now ≡ 14 }
    ensures discards { result ≡ spec.discards_of hand.now melds.now seen.now }
    ensures stays { source.new ≡ source.old }
{
    let least = distance.max(1);
    let live = live_copies(hand, melds, seen);
    let mut order = DiscardOrder::new();
    for number in (0..34u8).rev() {
        let kind = Kind::at(number);
        if hand.get(kind) > 0 {
            if let Some(kept) = discard_of(source, forms, least, hand, melds, &live, kind) {
                order.insert(kept);
            }
        }
    }
    DiscardList::new(&live.copies, order)
}
