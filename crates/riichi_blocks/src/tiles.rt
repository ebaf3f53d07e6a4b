//! All tiles of a hand, and words on them.
ghost use Rattle.std.specs.Prelude.{◌≡◌, ◌||◌, ℕ, Bool};
ghost use Rattle.riichi_blocks.specs.Held as spec;
ghost use Rattle.riichi_blocks.specs.Kinds as kinds;
ghost use Rattle.riichi_tiles.specs.HeldKinds.{kinds_where};

use crate::kinds::{green_tiles, honours, orphans, simples, terminals};
use riichi_tiles::{KindSet, Suit};
use std::marker::Model;

/// Every tile of a win, seen as the count of each kind.
#[derive(Drop)]
pub struct AllTiles {
    counts: [u8; 34],
    // Most conditions ask of which kinds there are tiles, and not how many.
    held: KindSet,
}

impl Model for AllTiles {
    ghost use Rattle.std.specs.Prelude.{ℕ, List};
    ghost use Rattle.riichi_tiles.specs.HeldKinds.{AreHeldOf};

    ghost Value = { List ℕ };

    ghost view = { λ t. t.counts };

    ghost invariant = { λ t. AreHeldOf t.counts t.held };
}

impl AllTiles {
    /// The tiles of these counts.
    pub fn new(counts: [u8; 34]) -> AllTiles
        ensures { result ≡ counts }
    {
        let held = KindSet::of(&counts);
        AllTiles { counts, held }
    }

    /// How many tiles of each kind there are.
    pub fn counts(&self) -> &[u8; 34]
        ensures { result.now ≡ self.now }
    {
        &self.counts
    }

    /// Whether every tile is a 2 to 8 of a suit.
    #[inline(always)]
    pub fn are_simples(&self) -> bool
        ensures { result ≡ spec.every kinds.is_simple self.now }
    {
        self.are_all(simples())
    }

    /// Whether every tile is a terminal or an honour.
    #[inline(always)]
    pub fn are_orphans(&self) -> bool
        ensures { result ≡ spec.every kinds.is_orphan self.now }
    {
        self.are_all(orphans())
    }

    /// Whether every tile is a terminal.
    #[inline(always)]
    pub fn are_terminals(&self) -> bool
        ensures { result ≡ spec.every kinds.is_terminal self.now }
    {
        self.are_all(terminals())
    }

    /// Whether every tile is one of 2s 3s 4s 6s 8s 6z.
    #[inline(always)]
    pub fn are_green(&self) -> bool
        ensures { result ≡ spec.every kinds.is_green_tile self.now }
    {
        self.are_all(green_tiles())
    }

    /// Whether every tile is of this suit.
    #[inline(always)]
    pub fn are_of_suit(&self, suit: Suit) -> bool
        ensures { result ≡ spec.every (kinds.is_of_suit suit) self.now }
    {
        self.are_all(KindSet::of_suit(suit))
    }

    /// Whether every tile is of this suit or an honour.
    #[inline(always)]
    pub fn are_of_suit_or_honours(&self, suit: Suit) -> bool
        ensures { result ≡ spec.every (λ kind. kinds.is_of_suit suit kind
            || kinds.is_honour kind) self.now }
    {
        self.are_all(KindSet::of_suit(suit).either(honours()))
    }

    /// Whether every tile is a wind or a dragon.
    #[inline(always)]
    pub fn are_honours(&self) -> bool
        ensures { result ≡ spec.every kinds.is_honour self.now }
    {
        self.are_all(honours())
    }

    /// Whether some tile is a wind or a dragon.
    #[inline(always)]
    pub fn has_honours(&self) -> bool
        ensures { result ≡ spec.some kinds.is_honour self.now }
    {
        self.has_some(honours())
    }

    /// Whether some tile is of this suit.
    #[inline(always)]
    pub fn has_suit(&self, suit: Suit) -> bool
        ensures { result ≡ spec.some (kinds.is_of_suit suit) self.now }
    {
        self.has_some(KindSet::of_suit(suit))
    }

    /// Whether every tile is of one of these kinds.
    #[inline(always)]
    fn are_all(&self, kinds: KindSet) -> bool
        ensures { (is_so : ℕ → Bool) → kinds ≡ kinds_where is_so
            → result ≡ spec.every is_so self.now }
    {
        kinds.is_superset(self.held)
    }

    /// Whether some tile is of one of these kinds.
    #[inline(always)]
    fn has_some(&self, kinds: KindSet) -> bool
        ensures { (is_so : ℕ → Bool) → kinds ≡ kinds_where is_so
            → result ≡ spec.some is_so self.now }
    {
        !kinds.is_disjoint(self.held)
    }
}
