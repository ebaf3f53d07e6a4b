//! A hand whose worth is asked.
ghost use Rattle.std.specs.Prelude.{◌≡◌, ◌+◌, ◌<◌, slice_index};
ghost use Rattle.riichi_hand.specs.Hand.{shape_of};
ghost use Rattle.riichi_study.specs.Records as spec;

use riichi_hand::{LineCode, LineFault, ShapeRecord};
use riichi_tiles::Counts;
use riichi_worth::Stakes;
use std::marker::Model;

/// A hand of thirteen or fourteen tiles with its melds, and what its win is valued by. The dora indicators, at most five, are among
/// the tiles that are seen.
#[derive(Clone, Copy, Debug, PartialEq, Eq)]
pub struct WorthRecord {
    hand: ShapeRecord,
    stakes: Stakes,
}

impl Model for WorthRecord {
    ghost use Rattle.riichi_study.specs.Records.{IsWorth};
    ghost use Rattle.riichi_study.specs.WorthParts.{WorthParts};

    ghost Value = { WorthParts };

    ghost view = { λ w. record { hand = w.hand; stakes = w.stakes } };

    ghost invariant = { λ w. IsWorth (record { hand = w.hand; stakes = w.stakes }) };

    ghost inverse = { λ p. record { hand = p.hand; stakes = p.stakes } };
}

impl WorthRecord {
    /// The record of a hand beside which the dora indicators are seen, too: H8 for more than five of them, H9 where hand, melds,
    /// indicators and what else is seen have a fifth copy of a kind.
    #[tactic(auto, unfolding(crate::specs::Records::worth_record_of))]
    pub fn new(hand: ShapeRecord, stakes: Stakes) -> Result<WorthRecord, LineFault>
        ensures { result ≡ spec.worth_record_of hand stakes }
    {
        if stakes.dora.total() > 5 {
            return Err(LineFault::Line(LineCode::H8));
        }
        let hand = with_seen(&hand, &stakes.dora)?;
        Ok(WorthRecord { hand, stakes })
    }

    /// The hand, with its melds and all that is seen elsewhere.
    pub fn hand(&self) -> ShapeRecord
        ensures { result ≡ self.now.hand }
    {
        self.hand
    }

    /// What its win is valued by.
    pub fn stakes(&self) -> Stakes
        ensures { result ≡ self.now.stakes }
    {
        self.stakes
    }
}

/// The shape of a hand beside which some tiles are seen, too.
fn with_seen(hand: &ShapeRecord, tiles: &Counts) -> Result<ShapeRecord, LineFault>
    ensures { result ≡ shape_of (spec.with_seen hand.now tiles.now) }
{
    let _shape = hand.tiles();
    match Counts::of(&both(&hand.seen(), tiles)) {
        Some(seen) => ShapeRecord::new(hand.tiles(), hand.melds(), seen),
        None => Err(LineFault::Line(LineCode::H9)),
    }
}

/// How many tiles of each kind there are in both.
fn both(one: &Counts, other: &Counts) -> [u8; 34]
    ensures { result ≡ spec.both_counts one.now other.now }
{
    let first = one.to_array();
    let second = other.to_array();
    let mut both = [0; 34];
    for kind in 0..34usize {
        both[kind] = first[kind] + second[kind];
    }
    both
}
