//! Equality of scores.
ghost use Rattle.std.proofs.Common.{rules};

use crate::answer::WinAnswer;
use crate::payers::Payment;
use crate::read::BestReading;
use crate::score::Score;
use riichi_tiles::Decided;

impl Decided for Payment {
    ghost decides = { λ a b. Prim.search rules };
}

impl Decided for Score {
    ghost decides = { λ a b. Prim.search rules };
}

impl Decided for WinAnswer {
    ghost use Rattle.riichi_score.specs.contracts.decided.ScoreDecided.TheImpl.Laws.{decides-law as scores_decide};

    ghost decides = { λ a b. Prim.search (rules, scores_decide) };
}

impl Decided for BestReading {
    ghost use Rattle.riichi_score.specs.Equality.{best_decides};

    ghost decides = { best_decides };
}
