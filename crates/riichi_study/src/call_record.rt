//! A hand and a thrown tile whose calls are asked.
ghost use Rattle.std.specs.Prelude.{◌≡◌, ◌<◌, true};
ghost use Rattle.riichi_hand.specs.Hand.{copies_with, is_thirteen};
ghost use Rattle.riichi_study.specs.Records as spec;

use riichi_deeper::{Thrown, is_left};
use riichi_hand::{LineCode, LineFault, ShapeRecord};
use std::marker::Model;

/// A hand of thirteen tiles with its melds, and a tile that another player has thrown, of which a copy is left beside hand, melds
/// and what is seen.
#[derive(Clone, Copy, Debug, PartialEq, Eq)]
pub struct CallRecord {
    hand: ShapeRecord,
    thrown: Thrown,
}

impl Model for CallRecord {
    ghost use Rattle.riichi_study.specs.CallParts.{CallParts};
    ghost use Rattle.riichi_study.specs.Records.{IsCall};

    ghost Value = { CallParts };

    ghost view = { λ c. record { hand = c.hand; thrown = c.thrown } };

    ghost invariant = { λ c. IsCall (record { hand = c.hand; thrown = c.thrown }) };

    ghost inverse = { λ p. record { hand = p.hand; thrown = p.thrown } };
}

impl CallRecord {
    /// The record, or the first of its faults: H8 where hand and melds aren't thirteen tiles, H9 where the thrown tile is the fifth
    /// copy of its kind.
    pub fn new(hand: ShapeRecord, thrown: Thrown) -> Result<CallRecord, LineFault>
        ensures { result ≡ spec.call_record_of (record { hand = hand; thrown = thrown }) }
    {
        if hand.tiles().total() as usize + 3 * hand.melds().count() != 13 {
            return Err(LineFault::Line(LineCode::H8));
        }
        if !is_left(&hand, thrown.tile) {
            return Err(LineFault::Line(LineCode::H9));
        }
        Ok(CallRecord { hand, thrown })
    }

    /// The hand, with its melds and what is seen elsewhere.
    pub fn hand(&self) -> ShapeRecord
        ensures value { result ≡ self.now.hand }
        ensures thirteen { is_thirteen result.tiles result.melds ≡ true }
        ensures left { copies_with result self.now.thrown.tile < 4 }
    {
        self.hand
    }

    /// The tile, and who has thrown it.
    pub fn thrown(&self) -> Thrown
        ensures { result ≡ self.now.thrown }
    {
        self.thrown
    }
}
