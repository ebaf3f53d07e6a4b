//! The discards of a hand of fourteen tiles.
ghost use Rattle.std.specs.Prelude.{ℕ, ◌≡◌, ◌≤◌, length, map, slice_get, slice_index};
ghost use Rattle.std.specs.Cmp.{decided, partial_equiv_from_equiv};
ghost use Rattle.std.specs.Option.{option_map};
ghost use Rattle.riichi_shape.specs.Equality.{discards_decide, discards_eq};
ghost use Rattle.riichi_shape.specs.KeptDiscards.{AreKept, short_of, told};

use crate::discard::{Discard, ShortDiscard};
use crate::discard_order::DiscardOrder;
use crate::live_copies::copies_among;
use std::marker::Model;

/// Discards, at most fourteen, in the order in which they are listed. How many copies of a kind are live does not depend on
/// the discard: it stands here once.
#[derive(Clone, Copy, Debug)]
pub struct DiscardList {
    copies: [u8; 34],
    order: DiscardOrder,
}

impl Model for DiscardList {
    ghost use Rattle.std.specs.Prelude.{List, map};
    ghost use Rattle.riichi_shape.specs.declared.discard.Discard.{Discard};
    ghost use Rattle.riichi_shape.specs.KeptDiscards.{AreTold, all_copies, kept_of, told};

    ghost Value = { List Discard };

    ghost view = { λ l. map (told l.copies) l.order };

    ghost invariant = { λ l. AreTold l.copies l.order };

    ghost inverse = { λ l. record { copies = all_copies l; order = map kept_of l } };
}

impl PartialEq for DiscardList {
    ghost eq = { discards_eq };

    ghost laws = { partial_equiv_from_equiv (decided discards_eq discards_decide) };

    fn eq(&self, other: &DiscardList) -> bool {
        self.copies == other.copies && self.order == other.order
    }
}

impl Eq for DiscardList {
    ghost laws = { decided discards_eq discards_decide };
}

impl DiscardList {
    /// The discards of an order, beside these live copies.
    #[tactic(auto, using(crate::proofs::KeptLemmas::new_facts))]
    pub(crate) fn new(copies: &[u8; 34], order: DiscardOrder) -> DiscardList
        requires few { (kind : ℕ) → slice_index copies.now kind ≤ 4 }
        requires kept { AreKept copies.now order }
        ensures { result ≡ map (told copies.now) order }
    {
        DiscardList {
            copies: copies_among(copies, order.accepted()),
            order,
        }
    }

    /// How many discards there are.
    pub fn len(&self) -> usize
        ensures value { result ≡ length self.now }
        ensures most { result ≤ 14 }
    {
        self.order.len()
    }

    /// The discard at a place of the order.
    #[tactic(auto, using(crate::proofs::KeptLemmas::get_facts))]
    pub fn get(&self, place: usize) -> Option<Discard>
        ensures { result ≡ slice_get self.now place }
    {
        match self.order.get(place) {
            Some(kept) => Some(kept.told(&self.copies)),
            None => None,
        }
    }

    /// The same in short, as it is kept: no list of live copies is made.
    #[tactic(auto, using(crate::proofs::KeptLemmas::short_at_facts))]
    pub fn short_at(&self, place: usize) -> Option<ShortDiscard>
        ensures { result ≡ option_map short_of (slice_get self.now place) }
    {
        match self.order.get(place) {
            Some(kept) => Some(ShortDiscard {
                kind: kept.kind,
                accepts: kept.accepted(),
                live: kept.live,
            }),
            None => None,
        }
    }
}
