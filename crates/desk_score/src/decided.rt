//! Equality of the faults of a score.
ghost use Rattle.std.proofs.Common.{rules};

use crate::score_fault::ScoreFault;
use riichi_tiles::Decided;

impl Decided for ScoreFault {
    ghost decides = { λ a b. Prim.search rules };
}
