//! Words on kinds, by their numbers, and sets of kinds.
ghost use Rattle.std.specs.Prelude.{◌≡◌};
ghost use Rattle.riichi_blocks.specs.Kinds as spec;
ghost use Rattle.riichi_tiles.specs.HeldKinds.{kinds_where};

use riichi_tiles::{KindSet, Suit};

/// How many kinds there are.
pub const KINDS: usize = 34;

/// The first of the winds, which are East, South, West, North.
pub const EAST: usize = 27;

/// The first of the dragons, which are White, Green, Red.
pub const WHITE: usize = 31;

/// The Green dragon.
pub const GREEN: usize = 32;

/// The Red dragon.
pub const RED: usize = 33;

/// East, South, West or North.
pub fn is_wind(kind: usize) -> bool
    ensures { result ≡ spec.is_wind kind }
{
    kind >= EAST && kind < WHITE
}

/// White, Green or Red.
pub fn is_dragon(kind: usize) -> bool
    ensures { result ≡ spec.is_dragon kind }
{
    kind >= WHITE
}

/// The 2 to 8 of each suit. The bits of a set are written from 7z down to 1m.
#[inline(always)]
#[tactic(auto, unfolding(riichi_tiles::specs::HeldKinds::kinds_where))]
pub(crate) fn simples() -> KindSet
    ensures { result ≡ kinds_where spec.is_simple }
{
    KindSet::from_bits(0b0000000_011111110_011111110_011111110)
}

/// The 1 and the 9 of each suit.
#[inline(always)]
#[tactic(auto, unfolding(riichi_tiles::specs::HeldKinds::kinds_where))]
pub(crate) fn terminals() -> KindSet
    ensures { result ≡ kinds_where spec.is_terminal }
{
    KindSet::from_bits(0b0000000_100000001_100000001_100000001)
}

/// The terminals and the honours.
#[inline(always)]
#[tactic(auto, unfolding(riichi_tiles::specs::HeldKinds::kinds_where))]
pub(crate) fn orphans() -> KindSet
    ensures { result ≡ kinds_where spec.is_orphan }
{
    KindSet::from_bits(0b1111111_100000001_100000001_100000001)
}

/// The winds and the dragons.
#[inline(always)]
#[tactic(auto, unfolding(riichi_tiles::specs::HeldKinds::kinds_where))]
pub(crate) fn honours() -> KindSet
    ensures { result ≡ kinds_where spec.is_honour }
{
    KindSet::of_suit(Suit::Honours)
}

/// 2s 3s 4s 6s 8s 6z.
#[inline(always)]
#[tactic(auto, unfolding(riichi_tiles::specs::HeldKinds::kinds_where))]
pub(crate) fn green_tiles() -> KindSet
    ensures { result ≡ kinds_where spec.is_green_tile }
{
    KindSet::from_bits(0b0100000_010101110_000000000_000000000)
}
