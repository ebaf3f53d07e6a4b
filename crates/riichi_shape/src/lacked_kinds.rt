//! The kinds that the winning multisets lack which a hand is nearest to.
ghost use Rattle.std.specs.Prelude.{slice_index};
ghost use Rattle.riichi_shape.specs.KindBits.{AreKindsOf};
ghost use Rattle.riichi_shape.specs.LackedKinds.{lacks_kind};

use crate::special::SpecialLacked;
use crate::suits_lacked::{SuitsLacked, kinds_lacked};
use riichi_tiles::KindSet;

/// The kinds that some least winning multiset lacks, form by form: one more tile of just these
/// kinds brings the hand nearer.
#[derive(Clone, Copy)]
pub(crate) struct LackedKinds {
    pub(crate) suits: SuitsLacked,
    pub(crate) special: SpecialLacked,
}

impl LackedKinds {
    /// The kinds that are lacked by a hand that holds so many of each.
    #[tactic(auto, using(riichi_tiles::proofs::KindSets::either_at))]
    pub(crate) fn kinds(&self, held: &[u8; 34]) -> KindSet
        ensures { AreKindsOf result (λ kind. lacks_kind self.now kind (slice_index held.now kind)) }
    {
        let kinds = kinds_lacked(&self.suits);
        if self.special.is_empty() {
            kinds
        } else {
            kinds.either(self.special.kinds(held))
        }
    }
}
