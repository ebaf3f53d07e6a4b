//! The blocks that the winning tile completes, one after the other.
ghost use Rattle.std.specs.Prelude.{◌≡◌, ◌≤◌, MatchOption, [], ◌∷◌, drop, length};
ghost use Rattle.riichi_split.specs.Dones.{dones, done_first, done_unless_again, same_block, split_blocks};

use crate::split::Split;
use riichi_tiles::{Block, Kind};

fn same_block(a: &Block, b: &Block) -> bool
    ensures { result ≡ same_block a.now b.now }
{
    *a == *b
}

fn done_unless(comes_again: bool, block: Block, winning: Kind) -> Option<Block>
    ensures { result ≡ done_unless_again comes_again block winning }
{
    let completed = block.contains(winning);
    if completed && !comes_again {
        Some(block)
    } else {
        None
    }
}

/// The block at a place of the sets and then the pair, if the winning tile completes it and no later
/// block is the same.
fn done_at(split: &Split, winning: Kind, place: usize) -> Option<Block>
    requires in_range { place ≤ length split.now.sets }
    requires small { place ≤ 4 }
    ensures { result ≡ done_first winning (drop place (split_blocks split.now)) }
{
    let pair = Block::Pair(split.pair);
    match split.sets.get(place) {
        Some(set) => {
            if !set.contains(winning) {
                return None;
            }
            let comes_again = split.sets.has_from(place + 1, set) || same_block(&set, &pair);
            done_unless(comes_again, set, winning)
        }
        None => done_unless(false, pair, winning),
    }
}

/// The next block that the winning tile completes, from a place of the sets and then the pair on.
#[tactic(auto, using(crate::proofs::DoneSteps::dones_found, crate::proofs::DoneSteps::dones_passed))]
pub(crate) fn next_done(split: &Split, winning: Kind, place: &mut usize) -> Option<Block>
    ensures { MatchOption result
        ((dones winning (drop place.old (split_blocks split.now)) ≡ [])
        × (dones winning (drop place.new (split_blocks split.now)) ≡ []))
        (λ done. dones winning (drop place.old (split_blocks split.now))
        ≡ done ∷ dones winning (drop place.new (split_blocks split.now))) }
{
    while *place <= split.sets.len() {
        let done = done_at(split, winning, *place);
        *place += 1;
        if done.is_some() {
            return done;
        }
    }
    None
}
