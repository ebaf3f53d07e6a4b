//! The kinds that sets and a pair lack.
ghost use Rattle.riichi_shape.specs.KindBits.{AreKindsOf};
ghost use Rattle.riichi_shape.specs.LackedKinds.{suits_lack};

use riichi_rows::RankSet;
use riichi_tiles::{BySuit, KindSet};

/// Of each suit the ranks that some least choice of sets and a pair lacks.
pub(crate) type SuitsLacked = BySuit<RankSet>;

/// The kinds that are lacked.
pub(crate) fn kinds_lacked(suits: &SuitsLacked) -> KindSet
    ensures { AreKindsOf result (suits_lack suits.now) }
{
    let honours = suits.honours.bits() & 127;
    let from_bamboos = honours * 512 + suits.bamboos.bits();
    let from_circles = from_bamboos * 512 + suits.circles.bits();
    KindSet::from_bits(from_circles * 512 + suits.characters.bits())
}
