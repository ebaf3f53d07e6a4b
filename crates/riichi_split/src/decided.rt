//! Equality of readings.
ghost use Rattle.std.proofs.Common.{rules};

use crate::reading::Reading;
use crate::sets::Sets;
use riichi_tiles::Decided;

impl Decided for Sets {
    ghost use Rattle.riichi_split.specs.Equality.{sets_decide};

    ghost decides = { sets_decide };
}

impl Decided for Reading {
    ghost use Rattle.riichi_split.specs.Equality.{sets_decide};

    ghost decides = { λ a b. Prim.search (rules, sets_decide) };
}
