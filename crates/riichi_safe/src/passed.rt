//! Kinds that a player can't win on.
ghost use Rattle.std.specs.Prelude.{◌≡◌};
ghost use Rattle.riichi_tiles.specs.HeldKinds.{kinds_where};
ghost use Rattle.riichi_tiles.specs.Tiles.{has_tile};
ghost use Rattle.riichi_safe.specs.Safe as spec;

use crate::safe_record::SafeRecord;
use riichi_tiles::{Counts, Kind, KindSet};

/// Of the concealed tiles the kinds that the threatening player can't win on by ron: it has thrown them itself, or they were thrown
/// since its riichi and not won on.
pub fn cannot_win(asked: &SafeRecord) -> KindSet
    ensures { result ≡ spec.safe_kinds asked.now }
{
    let held = held_kinds(&asked.hand().tiles());
    let thrown = held_kinds(&asked.thrown());
    let since = held_kinds(&asked.since());
    held.both(thrown.either(since))
}

/// The kinds of which there is a tile.
#[tactic(auto, using(crate::proofs::SafeSets::held_where))]
pub(crate) fn held_kinds(counts: &Counts) -> KindSet
    ensures { result ≡ kinds_where (has_tile counts.now) }
{
    KindSet::of(counts.as_array())
}

/// Whether a kind was thrown by the threatening player, or since its riichi.
pub(crate) fn is_passed(asked: &SafeRecord, kind: Kind) -> bool
    ensures { result ≡ spec.is_passed asked.now kind }
{
    asked.thrown().get(kind) > 0 || asked.since().get(kind) > 0
}
