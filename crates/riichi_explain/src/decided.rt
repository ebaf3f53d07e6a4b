//! Equality of rows and of waits.
ghost use Rattle.std.proofs.Common.{rules};

use crate::base::{BaseRule, Limit};
use crate::dora::{DoraPart, DoraRow};
use crate::fu::{FuPart, FuRow};
use crate::han::{HanPart, HanRow};
use crate::payers::{PayRow, Payer};
use crate::waits::{KindWait, WaitSorts};
use riichi_tiles::Decided;

impl Decided for HanPart {
    ghost use Rattle.riichi_explain.specs.Equality.{han_parts_decide};

    ghost decides = { han_parts_decide };
}

impl Decided for HanRow {
    ghost use Rattle.riichi_explain.specs.Equality.{han_rows_decide};

    ghost decides = { han_rows_decide };
}

impl Decided for FuPart {
    ghost decides = { λ a b. Prim.search rules };
}

impl Decided for FuRow {
    ghost use Rattle.riichi_explain.specs.contracts.decided.FuPartDecided.TheImpl.Laws.{decides-law as parts};

    ghost decides = { λ a b. Prim.search (rules, parts) };
}

impl Decided for Limit {
    ghost decides = { λ a b. Prim.search rules };
}

impl Decided for BaseRule {
    ghost decides = { λ a b. Prim.search rules };
}

impl Decided for Payer {
    ghost decides = { λ a b. Prim.search rules };
}

impl Decided for PayRow {
    ghost decides = { λ a b. Prim.search rules };
}

impl Decided for DoraPart {
    ghost decides = { λ a b. Prim.search rules };
}

impl Decided for DoraRow {
    ghost decides = { λ a b. Prim.search rules };
}

impl Decided for WaitSorts {
    ghost use Rattle.riichi_explain.specs.Equality.{sorts_decide};

    ghost decides = { sorts_decide };
}

impl Decided for KindWait {
    ghost use Rattle.riichi_explain.specs.Equality.{kind_waits_decide};

    ghost decides = { kind_waits_decide };
}
