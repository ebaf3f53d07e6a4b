//! Furiten of the own hand.
ghost use Rattle.std.specs.Prelude.{◌≡◌};
ghost use Rattle.riichi_safe.specs.Safe as spec;

use crate::passed::held_kinds;
use crate::safe_record::SafeRecord;
use riichi_hand::HandRecord;
use riichi_split::waits;
use riichi_tiles::KindSet;

/// Of the kinds for which a ready hand of thirteen tiles waits, those that its player has thrown: with any of them it can't win by
/// ron. None where the hand isn't one of thirteen tiles that waits for some kind. It waits for the kinds that `waits` tells, whether
/// a copy is left or seen.
#[tactic(auto, unfolding(crate::specs::Safe::furiten_of))]
pub fn furiten(asked: &SafeRecord) -> Option<KindSet>
    ensures { result ≡ spec.furiten_of asked.now }
{
    let hand = asked.hand();
    match HandRecord::new(hand.tiles(), hand.melds()) {
        Ok(ready) => own_among(asked, waits(&ready)),
        Err(_) => None,
    }
}

/// Those of some waits that the player of the hand has thrown, or none where there are no waits.
fn own_among(asked: &SafeRecord, waits: KindSet) -> Option<KindSet>
    ensures { result ≡ spec.own_among asked.now waits }
{
    if waits.is_empty() {
        return None;
    }
    let _few = waits.bits();
    Some(waits.both(held_kinds(&asked.own())))
}
