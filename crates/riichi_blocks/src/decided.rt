//! Equality of blocks.
ghost use Rattle.std.proofs.Common.{rules};

use crate::hand_block::HandBlock;
use riichi_tiles::Decided;

impl Decided for HandBlock {
    ghost decides = { λ a b. Prim.search rules };
}
