//! Equality of faults and reports.
ghost use Rattle.std.proofs.Common.{rules};

use crate::fault::DeskFault;
use crate::filling::Filled;
use crate::report::{DeskReport, Slip, TextReport};
use riichi_tiles::Decided;

impl Decided for DeskFault {
    ghost decides = { λ a b. Prim.search rules };
}

impl Decided for DeskReport {
    ghost decides = { λ a b. Prim.search rules };
}

impl Decided for Slip {
    ghost decides = { λ a b. Prim.search rules };
}

impl Decided for TextReport {
    ghost decides = { λ a b. Prim.search rules };
}

impl Decided for Filled {
    ghost decides = { λ a b. Prim.search rules };
}
