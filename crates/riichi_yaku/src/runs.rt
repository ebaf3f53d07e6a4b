//! The yaku of runs.
ghost use Rattle.std.specs.Prelude.{◌≡◌, ◌<◌, ◌≤◌};
ghost use Rattle.riichi_tiles.specs.Kinds.{first_of};
ghost use Rattle.riichi_yaku.specs.Runs as spec;

use riichi_blocks::{Blocks, has_plain_pair, has_two_sided_wait};
use riichi_hand::WinRecord;
use riichi_split::Reading;
use riichi_tiles::Suit;

fn are_four_runs(blocks: &Blocks) -> bool
    ensures { result ≡ spec.are_four_runs blocks.now }
{
    blocks.runs() == 4
}

/// A concealed hand of four runs, a pair that earns no fu and a two-sided wait.
pub fn is_pinfu(blocks: &Blocks, reading: &Reading, win: &WinRecord) -> bool
    ensures { result ≡ spec.is_pinfu blocks.now reading.now win.now }
{
    win.melds().concealed()
        && are_four_runs(blocks)
        && has_plain_pair(blocks.as_slice(), win)
        && has_two_sided_wait(reading, win.winning())
}

fn are_runs_paired(blocks: &Blocks) -> bool
    ensures { result ≡ spec.are_runs_paired blocks.now }
{
    blocks
        .as_slice()
        .iter()
        .all(|block| blocks.runs_equal_to(block) % 2 == 0)
}

pub(crate) fn is_twice_pure_double_chow(blocks: &Blocks, win: &WinRecord) -> bool
    ensures { result ≡ spec.is_twice_pure_double_chow blocks.now win.now }
{
    win.melds().concealed() && are_four_runs(blocks) && are_runs_paired(blocks)
}

pub(crate) fn is_pure_double_chow(blocks: &Blocks, win: &WinRecord) -> bool
    ensures { result ≡ spec.is_pure_double_chow blocks.now win.now }
{
    win.melds().concealed() && blocks.has_equal_runs() && !is_twice_pure_double_chow(blocks, win)
}

fn has_run_in_each_suit(blocks: &Blocks, rank: usize) -> bool
    requires { rank < 9 }
    ensures { result ≡ spec.has_run_in_each_suit blocks.now rank }
{
    Suit::NUMBERED
        .iter()
        .all(|suit| blocks.has_run(suit.first() + rank))
}

pub(crate) fn is_mixed_triple_chow(blocks: &Blocks) -> bool
    ensures { result ≡ spec.is_mixed_triple_chow blocks.now }
{
    // Most hands have too few runs.
    blocks.runs() >= 3 && (0..9).any(|rank| has_run_in_each_suit(blocks, rank))
}

fn has_straight(blocks: &Blocks, suit: Suit) -> bool
    ensures { result ≡ spec.has_straight blocks.now suit }
{
    let first = suit.first();
    blocks.has_run(first) && blocks.has_run(first + 3) && blocks.has_run(first + 6)
}

pub(crate) fn is_pure_straight(blocks: &Blocks) -> bool
    ensures { result ≡ spec.is_pure_straight blocks.now }
{
    Suit::NUMBERED
        .iter()
        .any(|suit| has_straight(blocks, *suit))
}
