//! The forms that stand beside no meld.
ghost use Rattle.std.specs.Prelude.{ℕ, ◌≡◌, ◌<◌, ◌↔◌, IsTrue, List, false, slice_index};
ghost use Rattle.riichi_tiles.specs.declared.meld.Meld.{Meld};
ghost use Rattle.riichi_shape.specs.Accepted.{without_one};
ghost use Rattle.riichi_shape.specs.KindBits.{AreKindsOf};
ghost use Rattle.riichi_shape.specs.Special.{AreSpecialForms, AreSpecialLacked, IsSpecialDistance, SpecialLacks, special_lacks};

use crate::lacked_held::{LackedHeld, NO_KIND};
use crate::nearest_form::{FAR, NearestForm};
use crate::orphans::nearest_orphans;
use crate::pairs::nearest_pairs;
use riichi_tiles::{Counts, Kind, KindSet, Melds};

/// How near a hand is to seven pairs and to thirteen orphans. Beside melds neither counts.
#[derive(Clone, Copy)]
pub(crate) struct SpecialForms {
    pub(crate) pairs: NearestForm,
    pub(crate) orphans: NearestForm,
}

/// The kinds that seven pairs lack, and those that thirteen orphans lack.
#[derive(Clone, Copy)]
pub(crate) struct SpecialLacked {
    pub(crate) pairs: LackedHeld,
    pub(crate) orphans: LackedHeld,
}

/// No kind is lacked.
const NOTHING_LACKED: SpecialLacked = SpecialLacked {
    pairs: NO_KIND,
    orphans: NO_KIND,
};

impl SpecialForms {
    pub(crate) fn new(hand: &Counts, melds: &Melds) -> SpecialForms
        ensures { AreSpecialForms hand.now melds.now result }
    {
        if melds.count() > 0 {
            return SpecialForms {
                pairs: FAR,
                orphans: FAR,
            };
        }
        SpecialForms {
            pairs: nearest_pairs(hand),
            orphans: nearest_orphans(hand),
        }
    }

    /// The least number of tiles that the hand lacks of either; beside melds it is more than any
    /// distance.
    pub(crate) fn distance(&self) -> u8
        ensures { (hand : List ℕ) (melds : List Meld) → AreSpecialForms hand melds self.now
            → IsSpecialDistance hand melds result }
    {
        self.pairs.lack.min(self.orphans.lack)
    }

    /// The kinds that they lack, where they lack just so many tiles, and none lacks fewer.
    #[tactic(auto, using(crate::proofs::SpecialLemmas::special_lacked))]
    pub(crate) fn lacked_at(&self, least: u8) -> SpecialLacked
        requires { least < 255 }
        ensures { (hand : List ℕ) (melds : List Meld) → AreSpecialForms hand melds self.now
            → SpecialLacks hand melds least → AreSpecialLacked hand melds least result }
    {
        SpecialLacked {
            pairs: self.pairs.lacked_at(least),
            orphans: self.orphans.lacked_at(least),
        }
    }

    /// The same of the hand without one tile of a kind. It lacks no fewer of them than the whole hand,
    /// so they are looked at again only where that lacks few enough.
    #[tactic(auto, using(crate::proofs::OneMore::special_without, crate::proofs::SpecialLemmas::lacked_without_facts))]
    pub(crate) fn lacked_without(
        &self,
        hand: &Counts,
        melds: &Melds,
        kind: Kind,
        least: u8,
    ) -> SpecialLacked
        requires forms { AreSpecialForms hand.now melds.now self.now }
        requires held { 0 < slice_index hand.now kind }
        requires few { least < 255 }
        requires least { SpecialLacks (without_one hand.now kind) melds.now least }
        ensures { AreSpecialLacked (without_one hand.now kind) melds.now least result }
    {
        let mut rest = *hand;
        rest.remove(kind);
        if self.distance() > least {
            NOTHING_LACKED
        } else {
            SpecialForms::new(&rest, melds).lacked_at(least)
        }
    }
}

impl SpecialLacked {
    /// Whether no kind is lacked.
    #[tactic(auto, using(crate::proofs::SpecialLemmas::are_empty, crate::proofs::SpecialLemmas::empty_iff))]
    pub(crate) fn is_empty(&self) -> bool
        ensures { IsTrue result ↔ ((kind held : ℕ) → special_lacks self.now kind held ≡ false) }
    {
        self.pairs.is_empty() & self.orphans.is_empty()
    }

    /// Whether a kind is lacked of which so many are held.
    pub(crate) fn contains(&self, kind: Kind, held: u8) -> bool
        ensures { result ≡ special_lacks self.now kind held }
    {
        self.pairs.contains(held) | self.orphans.contains(held) & kind.is_orphan()
    }

    /// The kinds that are lacked by a hand that holds so many of each.
    pub(crate) fn kinds(&self, held: &[u8; 34]) -> KindSet
        ensures { AreKindsOf result (λ kind. special_lacks self.now kind
            (slice_index held.now kind)) }
    {
        let mut lacked = [0; 34];
        for kind in 0..34usize {
            lacked[kind] = u8::from(self.contains(Kind::at(kind as u8), held[kind]));
        }
        KindSet::of(&lacked)
    }
}
