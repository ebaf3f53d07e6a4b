//! The kinds that bring a hand nearer.
ghost use Rattle.std.specs.Prelude.{ℕ, ◌≡◌, ◌<◌, ◌≤◌};
ghost use Rattle.riichi_tiles.specs.Melds.{tiles};
ghost use Rattle.riichi_shape.specs.Accepted.{AreLiveCopies, accepted_of};
ghost use Rattle.riichi_shape.specs.KindBits.{HaveCopies};
ghost use Rattle.riichi_shape.specs.LackedKinds.{AreAcceptedBy};

use crate::hand_forms::HandForms;
use crate::lacked_kinds::LackedKinds;
use crate::live_copies::LiveCopies;
use crate::live_list::LiveList;
use riichi_rows::FreshRows;
use riichi_tiles::{Counts, KindSet, Melds, meld_tiles};

/// The live copies of every kind: those that are in neither the hand nor the melds, and not seen
/// elsewhere.
pub(crate) fn live_copies(hand: &Counts, melds: &Melds, seen: &Counts) -> LiveCopies
    ensures { AreLiveCopies hand.now melds.now seen.now result.copies }
{
    let held = hand.as_array();
    let melded = meld_tiles(melds);
    let elsewhere = seen.as_array();
    let mut copies = [0; 34];
    for kind in 0..34usize {
        copies[kind] = 4u8.saturating_sub(held[kind] + melded[kind] + elsewhere[kind]);
    }
    LiveCopies {
        copies,
        kinds: KindSet::of(&copies),
    }
}

/// The accepted kinds of a hand: those with live copies that some least winning multiset lacks.
pub(crate) fn accepted_by(lacked: &LackedKinds, hand: &Counts, live: &LiveCopies) -> KindSet
    ensures accepted { AreAcceptedBy hand.now lacked.now live.now.copies result }
    ensures live { HaveCopies live.now.copies result }
{
    lacked.kinds(hand.as_array()).both(live.kinds)
}

/// The kinds with live copies of which one more tile lowers the shanten, each with its live
/// copies: 4 less those in hand, melds and `seen`.
pub fn accepted(hand: &Counts, melds: &Melds, seen: &Counts) -> LiveList
    requires { (kind : ℕ) → kind < 34 → tiles melds.now kind ≤ 4 }
    ensures { result ≡ accepted_of hand.now melds.now seen.now }
{
    let forms = HandForms::new(&mut FreshRows, hand, melds);
    let live = live_copies(hand, melds, seen);
    let lacked = forms.lacked(melds, forms.distance(melds));
    live.list(accepted_by(&lacked, hand, &live))
}
