//! Discards in the order in which they are listed.
ghost use Rattle.std.specs.List.{list_any, position};
ghost use Rattle.std.specs.Prelude.{ℕ, ◌≡◌, ◌-◌, ◌<◌, ◌≤◌, ◌^◌, ◌∷◌, ◌++◌, [], All, length, slice_get, take, drop};
ghost use Rattle.riichi_shape.specs.Discards.{inserted_by};
ghost use Rattle.riichi_shape.specs.KeptDiscards.{gives_way, accepted_kinds};
ghost use Rattle.riichi_tiles.specs.HeldKinds.{is_held};

use crate::kept_discard::KeptDiscard;
use riichi_tiles::KindSet;
use std::marker::Model;

/// At most fourteen discards, seen as the list of them.
#[derive(Clone, Copy, Debug, PartialEq, Eq)]
pub(crate) struct DiscardOrder {
    places: [KeptDiscard; 14],
    count: u8,
}

impl Model for DiscardOrder {
    ghost use Rattle.std.specs.Prelude.{List, length, take};
    ghost use Rattle.riichi_shape.specs.declared.kept_discard.KeptDiscard.{KeptDiscard};
    ghost use Rattle.riichi_shape.specs.KeptDiscards.{AreFirst, in_fourteen_places};

    ghost Value = { List KeptDiscard };

    ghost view = { λ o. take o.count o.places };

    ghost invariant = { λ o. AreFirst o.count o.places };

    ghost inverse = { λ l. record { places = in_fourteen_places l; count = length l } };
}

impl DiscardOrder {
    /// No discards.
    pub(crate) fn new() -> DiscardOrder
        ensures { result ≡ [] }
    {
        let free = KeptDiscard::none();
        DiscardOrder {
            places: [free; 14],
            count: 0,
        }
    }

    /// How many discards there are.
    pub(crate) fn len(&self) -> usize
        ensures value { result ≡ length self.now }
        ensures most { result ≤ 14 }
    {
        self.count as usize
    }

    /// The discard at a place of the order.
    pub(crate) fn get(&self, place: usize) -> Option<KeptDiscard>
        ensures { result ≡ slice_get self.now place }
    {
        if place < self.count as usize {
            Some(self.places[place])
        } else {
            None
        }
    }

    /// Puts a discard before the first that has no more live copies.
    pub(crate) fn insert(&mut self, discard: KeptDiscard)
        requires { length self.old < 14 }
        ensures { self.new ≡ inserted_by (λ kept. kept.live) discard self.old }
    {
        let count = self.count as usize;
        let place = first_place(&self.places[..count], discard.live).unwrap_or(count);
        put_at(&mut self.places, place, discard);
        self.count += 1;
    }

    /// The kinds that any of the discards accepts.
    #[tactic(auto, using(crate::proofs::DiscardLemmas::seen_are, riichi_tiles::proofs::KindSets::either_at, riichi_tiles::proofs::KindSets::none_at))]
    pub(crate) fn accepted(&self) -> KindSet
        requires { All (λ kept. accepted_kinds kept < 2 ^ 34) self.now }
        ensures { (kind : ℕ)
            → is_held result kind ≡ list_any (λ kept. is_held (accepted_kinds kept) kind) self.now }
    {
        let mut kinds = KindSet::new();
        for place in 0..self.count as usize {
            kinds = kinds.either(self.places[place].accepted());
        }
        kinds
    }
}

/// A discard that has no more live copies than this.
fn gives_way(held: &KeptDiscard, live: u8) -> bool
    ensures { result ≡ gives_way live held.now }
{
    held.live <= live
}

/// The first place whose discard has no more live copies.
fn first_place(held: &[KeptDiscard], live: u8) -> Option<usize>
    ensures { result ≡ position (gives_way live) held.now }
{
    held.iter().position(|kept| gives_way(kept, live))
}

/// Puts a discard at a place, and moves the later ones on; the last place is lost.
#[tactic(auto, using(crate::proofs::DiscardLemmas::put_turned))]
fn put_at(places: &mut [KeptDiscard], place: usize, discard: KeptDiscard)
    requires { place < length places.old }
    ensures { places.new
        ≡ take place places.old
        ++ discard ∷ take (length places.old - 1 - place) (drop place places.old) }
{
    places[place..].rotate_right(1);
    places[place] = discard;
}
