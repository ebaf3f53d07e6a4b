//! Equality of faults and of what a worker did.
ghost use Rattle.std.proofs.Common.{rules};

use crate::offer::{OfferBack, OfferFault};
use crate::parts::BoardFault;
use crate::run_fault::RunFault;
use crate::worked::Worked;
use riichi_tiles::Decided;

impl Decided for OfferFault {
    ghost decides = { λ a b. Prim.search rules };
}

impl Decided for OfferBack {
    ghost use Rattle.riichi_hand.specs.contracts.decided.JobDecided.TheImpl.Laws.{decides-law as jobs_decide};

    ghost decides = { λ a b. Prim.search (rules, jobs_decide) };
}

impl Decided for BoardFault {
    ghost decides = { λ a b. Prim.search rules };
}

impl Decided for RunFault {
    ghost decides = { λ a b. Prim.search rules };
}

impl Decided for Worked {
    ghost decides = { λ a b. Prim.search rules };
}
