//! Equality of answers and replies.
ghost use Rattle.std.proofs.Common.{rules};

use crate::answer::Answer;
use crate::arrived::Arrived;
use crate::refusal::{CoreFault, SubmitBack, SubmitFault};
use crate::reply::Reply;
use crate::taken::Taken;
use crate::ticket::Ticket;
use riichi_tiles::Decided;

impl Decided for Answer {
    ghost use Rattle.riichi_score.specs.contracts.decided.WinAnswerDecided.TheImpl.Laws.{decides-law as wins_decide};
    ghost use Rattle.riichi_shape.specs.contracts.decided.ShapeAnswerDecided.TheImpl.Laws.{decides-law as shapes_decide};

    ghost decides = { λ a b. Prim.search (rules, wins_decide, shapes_decide) };
}

impl Decided for Arrived {
    ghost decides = { λ a b. Prim.search rules };
}

impl Decided for SubmitFault {
    ghost decides = { λ a b. Prim.search rules };
}

impl Decided for SubmitBack {
    ghost use Rattle.riichi_hand.specs.contracts.decided.JobDecided.TheImpl.Laws.{decides-law as jobs_decide};

    ghost decides = { λ a b. Prim.search (rules, jobs_decide) };
}

impl Decided for CoreFault {
    ghost decides = { λ a b. Prim.search rules };
}

impl Decided for Ticket {
    ghost decides = { λ a b. Prim.search rules };
}

impl Decided for Taken {
    ghost use Rattle.desk_core.specs.Equality.{taken_decide};

    ghost decides = { taken_decide };
}

impl Decided for Reply {
    ghost use Rattle.desk_core.specs.Equality.{replies_decide};

    ghost decides = { replies_decide };
}
