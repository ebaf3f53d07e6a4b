//! Words on the kinds in blocks: their terminals and honours.
ghost use Rattle.std.specs.Prelude.{◌≡◌};
ghost use Rattle.riichi_tiles.specs.HeldKinds.{kinds_where};
ghost use Rattle.riichi_blocks.specs.BlockKinds as spec;

use crate::HandBlock;
use crate::kinds::orphans;
use riichi_tiles::KindSet;

/// The kinds with which a run 123 or 789 would begin, among them 1z and 7z. The bits of a set are written from 7z down to 1m.
#[inline(always)]
#[tactic(auto, unfolding(riichi_tiles::specs::HeldKinds::kinds_where))]
fn outer_runs() -> KindSet
    ensures { result ≡ kinds_where spec.is_outer_run }
{
    KindSet::from_bits(0b1000001_001000001_001000001_001000001)
}

#[inline(always)]
#[tactic(auto, using(riichi_tiles::proofs::KindSets::where_at))]
pub(crate) fn has_orphan(block: &HandBlock) -> bool
    ensures { result ≡ spec.has_orphan block.now }
{
    let kinds = if block.is_run() {
        outer_runs()
    } else {
        orphans()
    };
    kinds.has(block.kind().index())
}

#[inline(always)]
pub(crate) fn has_honour(block: &HandBlock) -> bool
    ensures { result ≡ spec.has_honour block.now }
{
    !block.is_run() & block.kind().is_honour()
}
