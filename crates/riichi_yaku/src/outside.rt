//! The yaku whose every set and pair has a terminal or an honour.
ghost use Rattle.std.specs.Prelude.{◌≡◌};
ghost use Rattle.riichi_yaku.specs.Outside as spec;

use riichi_blocks::Blocks;

pub(crate) fn is_outside_hand(blocks: &Blocks) -> bool
    ensures { result ≡ spec.is_outside_hand blocks.now }
{
    blocks.all_have_orphans() && blocks.has_runs() && blocks.some_has_honour()
}

pub(crate) fn is_terminals_in_all_sets(blocks: &Blocks) -> bool
    ensures { result ≡ spec.is_terminals_in_all_sets blocks.now }
{
    blocks.all_have_terminals() && !blocks.some_has_honour() && blocks.has_runs()
}
