//! The yaku of winds and dragons.
ghost use Rattle.std.specs.Prelude.{◌≡◌};
ghost use Rattle.riichi_yaku.specs.Honours as spec;
ghost use Rattle.riichi_blocks.specs.Kinds.{dragons, winds};

use riichi_blocks::{Blocks, EAST, GREEN, HandBlock, KINDS, RED, WHITE, is_dragon, is_wind};
use riichi_hand::WinRecord;

pub(crate) fn is_white_dragon(blocks: &Blocks) -> bool
    ensures { result ≡ spec.is_white_dragon blocks.now }
{
    blocks.has_triplet(WHITE)
}

pub(crate) fn is_green_dragon(blocks: &Blocks) -> bool
    ensures { result ≡ spec.is_green_dragon blocks.now }
{
    blocks.has_triplet(GREEN)
}

pub(crate) fn is_red_dragon(blocks: &Blocks) -> bool
    ensures { result ≡ spec.is_red_dragon blocks.now }
{
    blocks.has_triplet(RED)
}

pub(crate) fn is_seat_wind(blocks: &Blocks, win: &WinRecord) -> bool
    ensures { result ≡ spec.is_seat_wind blocks.now win.now }
{
    blocks.has_triplet(win.seat().kind().index())
}

pub(crate) fn is_prevalent_wind(blocks: &Blocks, win: &WinRecord) -> bool
    ensures { result ≡ spec.is_prevalent_wind blocks.now win.now }
{
    blocks.has_triplet(win.round().kind().index())
}

pub(crate) fn has_dragon_triplets(blocks: &Blocks) -> bool
    ensures { result ≡ spec.has_triplets blocks.now dragons }
{
    (WHITE..KINDS).all(|kind| blocks.has_triplet(kind))
}

pub(crate) fn has_wind_triplets(blocks: &Blocks) -> bool
    ensures { result ≡ spec.has_triplets blocks.now winds }
{
    (EAST..WHITE).all(|kind| blocks.has_triplet(kind))
}

fn has_other_dragon_triplets(blocks: &Blocks, last: usize) -> bool
    ensures { result ≡ spec.has_other_triplets blocks.now dragons last }
{
    (WHITE..KINDS).all(|kind| kind == last || blocks.has_triplet(kind))
}

fn has_other_wind_triplets(blocks: &Blocks, last: usize) -> bool
    ensures { result ≡ spec.has_other_triplets blocks.now winds last }
{
    (EAST..WHITE).all(|kind| kind == last || blocks.has_triplet(kind))
}

/// A pair of dragons, and triplets of the others.
fn is_last_dragon(blocks: &Blocks, block: &HandBlock) -> bool
    ensures { result ≡ spec.is_last_dragon blocks.now block.now }
{
    match block {
        HandBlock::Pair(kind) => {
            is_dragon(kind.index()) && has_other_dragon_triplets(blocks, kind.index())
        }
        _ => false,
    }
}

pub(crate) fn is_little_three_dragons(blocks: &Blocks) -> bool
    ensures { result ≡ spec.is_little_three_dragons blocks.now }
{
    // Most hands have neither a triplet of White nor one of Green.
    (blocks.has_triplet(WHITE) || blocks.has_triplet(GREEN))
        && blocks
            .as_slice()
            .iter()
            .any(|block| is_last_dragon(blocks, block))
}

/// A pair of winds, and triplets of the others.
pub(crate) fn is_last_wind(blocks: &Blocks, block: &HandBlock) -> bool
    ensures { result ≡ spec.is_last_wind blocks.now block.now }
{
    match block {
        HandBlock::Pair(kind) => {
            is_wind(kind.index()) && has_other_wind_triplets(blocks, kind.index())
        }
        _ => false,
    }
}
