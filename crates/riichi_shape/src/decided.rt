//! Equality of answers.
ghost use Rattle.std.proofs.Common.{rules};

use crate::accepts::Accepts;
use crate::discard::Discard;
use crate::discard_list::DiscardList;
use crate::forms::FormDistances;
use crate::live_list::LiveList;
use crate::shape_answer::ShapeAnswer;
use riichi_tiles::Decided;

impl Decided for LiveList {
    ghost use Rattle.riichi_shape.specs.Equality.{live_decides};

    ghost decides = { live_decides };
}

impl Decided for Discard {
    ghost use Rattle.riichi_shape.specs.Equality.{discard_decides};

    ghost decides = { discard_decides };
}

impl Decided for DiscardList {
    ghost use Rattle.riichi_shape.specs.Equality.{discards_decide};

    ghost decides = { discards_decide };
}

impl Decided for Accepts {
    ghost use Rattle.riichi_shape.specs.Equality.{discards_decide, live_decides};

    ghost decides = { λ a b. Prim.search (rules, discards_decide, live_decides) };
}

impl Decided for ShapeAnswer {
    ghost use Rattle.riichi_shape.specs.contracts.decided.AcceptsDecided.TheImpl.Laws.{decides-law as accepts_decide};

    ghost decides = { λ a b. Prim.search (rules, accepts_decide) };
}

impl Decided for FormDistances {
    ghost decides = { λ a b. Prim.search rules };
}
