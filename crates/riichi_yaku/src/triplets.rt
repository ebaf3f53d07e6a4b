//! The yaku of triplets and kongs.
ghost use Rattle.std.specs.Prelude.{◌≡◌, ◌<◌};
ghost use Rattle.riichi_yaku.specs.Triplets as spec;

use riichi_blocks::Blocks;
use riichi_tiles::Suit;

fn has_triplet_in_each_suit(blocks: &Blocks, rank: usize) -> bool
    requires { rank < 9 }
    ensures { result ≡ spec.has_triplet_in_each_suit blocks.now rank }
{
    Suit::NUMBERED
        .iter()
        .all(|suit| blocks.has_triplet(suit.first() + rank))
}

pub(crate) fn is_triple_pung(blocks: &Blocks) -> bool
    ensures { result ≡ spec.is_triple_pung blocks.now }
{
    // Most hands have too few triplets.
    blocks.triplets() >= 3 && (0..9).any(|rank| has_triplet_in_each_suit(blocks, rank))
}

pub(crate) fn is_three_kongs(blocks: &Blocks) -> bool
    ensures { result ≡ spec.is_three_kongs blocks.now }
{
    blocks.kongs() >= 3
}

pub(crate) fn is_all_pungs(blocks: &Blocks) -> bool
    ensures { result ≡ spec.is_all_pungs blocks.now }
{
    blocks.triplets() == 4
}

pub(crate) fn is_three_concealed_pungs(blocks: &Blocks) -> bool
    ensures { result ≡ spec.is_three_concealed_pungs blocks.now }
{
    blocks.concealed_triplets() >= 3
}
