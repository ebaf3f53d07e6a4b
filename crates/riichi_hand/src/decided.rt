//! Equality of records and faults.
ghost use Rattle.std.proofs.Common.{rules};

use crate::fault::{LineCode, LineFault, TextName};
use crate::hand::HandRecord;
use crate::job::Job;
use crate::line::{JobName, Key};
use crate::rules::Rules;
use crate::shape::ShapeRecord;
use crate::switch::Switch;
use crate::win::{By, Flags, WinParts, WinRecord, Wind};
use riichi_tiles::Decided;

impl Decided for Switch {
    ghost decides = { λ a b. Prim.search rules };
}

impl Decided for Rules {
    ghost decides = { λ a b. Prim.search rules };
}

impl Decided for By {
    ghost decides = { λ a b. Prim.search rules };
}

impl Decided for Wind {
    ghost decides = { λ a b. Prim.search rules };
}

impl Decided for Flags {
    ghost use Rattle.riichi_hand.specs.Equality.{flags_decide};

    ghost decides = { flags_decide };
}

impl Decided for WinParts {
    ghost use Rattle.riichi_hand.specs.Equality.{parts_decide};

    ghost decides = { parts_decide };
}

impl Decided for WinRecord {
    ghost use Rattle.riichi_hand.specs.Equality.{parts_decide};

    ghost decides = { parts_decide };
}

impl Decided for HandRecord {
    ghost use Rattle.riichi_tiles.specs.contracts.decided.CountsDecided.TheImpl.Laws.{decides-law as counts};
    ghost use Rattle.riichi_tiles.specs.contracts.decided.MeldsDecided.TheImpl.Laws.{decides-law as melds};

    ghost decides = { λ a b. Prim.search (rules, counts, melds) };
}

impl Decided for ShapeRecord {
    ghost use Rattle.riichi_tiles.specs.contracts.decided.CountsDecided.TheImpl.Laws.{decides-law as counts};
    ghost use Rattle.riichi_tiles.specs.contracts.decided.MeldsDecided.TheImpl.Laws.{decides-law as melds};

    ghost decides = { λ a b. Prim.search (rules, counts, melds) };
}

impl Decided for Job {
    ghost use Rattle.riichi_hand.specs.contracts.decided.WinRecordDecided.TheImpl.Laws.{decides-law as wins};
    ghost use Rattle.riichi_hand.specs.contracts.decided.HandRecordDecided.TheImpl.Laws.{decides-law as hands};
    ghost use Rattle.riichi_hand.specs.contracts.decided.ShapeRecordDecided.TheImpl.Laws.{decides-law as shapes};

    ghost decides = { λ a b. Prim.search (rules, wins, hands, shapes) };
}

impl Decided for Key {
    ghost decides = { λ a b. Prim.search rules };
}

impl Decided for JobName {
    ghost decides = { λ a b. Prim.search rules };
}

impl Decided for LineCode {
    ghost decides = { λ a b. Prim.search rules };
}

impl Decided for TextName {
    ghost decides = { λ a b. Prim.search rules };
}

impl Decided for LineFault {
    ghost decides = { λ a b. Prim.search rules };
}
