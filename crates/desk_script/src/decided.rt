//! Equality of what a script is told.
ghost use Rattle.std.proofs.Common.{rules};

use crate::refusal::Refusal;
use crate::told::Told;
use riichi_tiles::Decided;

impl Decided for Refusal {
    ghost decides = { λ a b. Prim.search rules };
}

impl Decided for Told {
    ghost use Rattle.desk_script.specs.Equality.{told_decide};

    ghost decides = { told_decide };
}
