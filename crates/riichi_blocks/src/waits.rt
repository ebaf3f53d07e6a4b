//! The wait, read from the block that the winning tile completes.
ghost use Rattle.std.specs.Prelude.{◌≡◌, ◌≤◌};
ghost use Rattle.riichi_blocks.specs.Waits as spec;

use riichi_split::Reading;
use riichi_tiles::{Block, Kind};

/// Whether the winning tile is the middle of the run from this kind on.
pub fn is_closed_wait(low: usize, winning: usize) -> bool
    requires { low ≤ 33 }
    ensures { result ≡ spec.is_closed_wait low winning }
{
    winning == low + 1
}

/// Whether the winning tile is the 3 of this run, a 123, or the 7 of it, a 789.
pub fn is_edge_wait(low: usize, winning: usize) -> bool
    requires { low ≤ 33 }
    ensures { result ≡ spec.is_edge_wait low winning }
{
    winning == low + 2 && low % 9 == 0 || winning == low && low % 9 == 6
}

/// Whether the winning tile completes a run, in neither a closed nor an edge wait.
fn is_two_sided(winning: Kind, done: &Block) -> bool
    ensures { result ≡ spec.is_two_sided winning done.now }
{
    match done {
        Block::Run(low) => {
            let (low, tile) = (low.index(), winning.index());
            !(is_closed_wait(low, tile) || is_edge_wait(low, tile))
        }
        _ => false,
    }
}

/// Whether the winning tile completes a run of the reading, in neither a closed nor an edge wait.
pub fn has_two_sided_wait(reading: &Reading, winning: Kind) -> bool
    ensures { result ≡ spec.has_two_sided_wait reading.now winning }
{
    match reading {
        Reading::Standard { done, .. } => is_two_sided(winning, done),
        _ => false,
    }
}

/// The fu of the wait for the winning tile, which completes this block.
pub fn wait_fu(winning: Kind, done: &Block) -> u8
    ensures value { result ≡ spec.wait_fu winning done.now }
    ensures most { result ≤ 2 }
{
    match done {
        Block::Run(low) => {
            let (low, tile) = (low.index(), winning.index());
            if is_closed_wait(low, tile) || is_edge_wait(low, tile) {
                2
            } else {
                0
            }
        }
        Block::Triplet(_) => 0,
        Block::Pair(_) => 2,
    }
}
