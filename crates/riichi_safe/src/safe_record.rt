//! A hand beside what was thrown.
ghost use Rattle.std.specs.Prelude.{◌≡◌, ◌≤◌};
ghost use Rattle.riichi_safe.specs.Records as spec;

use riichi_hand::{LineCode, LineFault, ShapeRecord};
use riichi_tiles::{Counts, Kind};
use std::marker::Model;

/// A hand of thirteen or fourteen tiles with its melds and the tiles that are seen elsewhere, and the tiles that were thrown. All of
/// these are different tiles: no kind has more than four copies in all.
#[derive(Clone, Copy, Debug, PartialEq, Eq)]
pub struct SafeRecord {
    hand: ShapeRecord,
    own: Counts,
    thrown: Counts,
    since: Counts,
}

impl Model for SafeRecord {
    ghost use Rattle.riichi_safe.specs.Records.{AreSafeParts};
    ghost use Rattle.riichi_safe.specs.SafeParts.{SafeParts};

    ghost Value = { SafeParts };

    ghost view = { λ s. record { hand = s.hand; own = s.own; thrown = s.thrown; since = s.since } };

    ghost invariant = { λ s. AreSafeParts
        (record { hand = s.hand; own = s.own; thrown = s.thrown; since = s.since }) };

    ghost inverse = { λ p. record { hand = p.hand; own = p.own; thrown = p.thrown; since = p.since } };
}

impl SafeRecord {
    /// The record of a hand and of what its player has thrown, what one threatening player has thrown, and what all others have
    /// thrown since that player's riichi; H9 where these have a fifth copy of a kind.
    pub fn new(
        hand: ShapeRecord,
        own: Counts,
        thrown: Counts,
        since: Counts,
    ) -> Result<SafeRecord, LineFault>
        ensures { result ≡ spec.safe_record_of
            (record { hand = hand; own = own; thrown = thrown; since = since }) }
    {
        if has_five(&hand, &own, &thrown, &since) {
            return Err(LineFault::Line(LineCode::H9));
        }
        Ok(SafeRecord {
            hand,
            own,
            thrown,
            since,
        })
    }

    /// The hand, with its melds and what is seen elsewhere.
    pub fn hand(&self) -> ShapeRecord
        ensures { result ≡ self.now.hand }
    {
        self.hand
    }

    /// What the player of the hand has thrown.
    pub fn own(&self) -> Counts
        ensures { result ≡ self.now.own }
    {
        self.own
    }

    /// What the threatening player has thrown.
    pub fn thrown(&self) -> Counts
        ensures { result ≡ self.now.thrown }
    {
        self.thrown
    }

    /// What all others have thrown since that player's riichi.
    pub fn since(&self) -> Counts
        ensures { result ≡ self.now.since }
    {
        self.since
    }

    /// How many tiles of a kind are in the hand, its melds and what is seen elsewhere, or were thrown.
    pub fn copies(&self, kind: Kind) -> u8
        ensures value { result ≡ spec.copies_seen self.now kind }
    {
        copies(&self.hand, &self.own, &self.thrown, &self.since, kind)
    }
}

/// How many tiles of a kind these are in all.
fn copies(hand: &ShapeRecord, own: &Counts, thrown: &Counts, since: &Counts, kind: Kind) -> u8
    ensures { result ≡ spec.copies_seen (record {
      hand = hand.now;
      own = own.now;
      thrown = thrown.now;
      since = since.now;
    }) kind }
{
    let held = hand.tiles().get(kind) + hand.melds().tiles(kind) + hand.seen().get(kind);
    held + (own.get(kind) + thrown.get(kind) + since.get(kind))
}

/// Whether there is a fifth copy of a kind.
#[tactic(auto, using(riichi_hand::proofs::CopyLemmas::any_kind_more))]
fn has_five(hand: &ShapeRecord, own: &Counts, thrown: &Counts, since: &Counts) -> bool
    ensures { result ≡ spec.has_five
        (record { hand = hand.now; own = own.now; thrown = thrown.now; since = since.now }) }
{
    let mut found = false;
    for number in 0..34 {
        found = found | (copies(hand, own, thrown, since, Kind::at(number)) > 4);
    }
    found
}
