//! Equality of yaku and their sets.
ghost use Rattle.std.proofs.Common.{rules};

use crate::table::Yaku;
use crate::yaku_set::YakuSet;
use riichi_tiles::Decided;

impl Decided for Yaku {
    ghost decides = { λ a b. Prim.search rules };
}

impl Decided for YakuSet {
    ghost decides = { λ a b. Prim.search rules };
}
