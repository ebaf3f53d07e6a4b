//! The blocks that a reading and the melds are.
ghost use Rattle.std.specs.Prelude.{◌≡◌, ◌++◌, ◌≤◌, [], map, length};
ghost use Rattle.riichi_blocks.specs.HandBlocks as spec;

use crate::hand_block::{of_meld, of_set};
use crate::{Blocks, HandBlock};
use riichi_hand::{By, WinRecord};
use riichi_split::{Reading, Sets};
use riichi_tiles::{Block, Melds};

/// The sets in hand, the pair and the melds of a standard reading. Seven pairs and thirteen orphans have no blocks.
pub fn blocks_of(reading: &Reading, win: &WinRecord) -> Blocks
    ensures { result ≡ spec.blocks_of reading.now win.now }
{
    let mut blocks = Blocks::new();
    push_blocks(&mut blocks, reading, win);
    blocks
}

/// The same, pushed in place where there are none.
#[inline(always)]
pub fn push_blocks(blocks: &mut Blocks, reading: &Reading, win: &WinRecord)
    requires { blocks.old ≡ [] }
    ensures { blocks.new ≡ spec.blocks_of reading.now win.now }
{
    if let Reading::Standard { sets, pair, done } = reading {
        push_sets(blocks, sets, win.by(), done);
        blocks.push(HandBlock::Pair(*pair));
        push_melds(blocks, &win.melds());
    }
}

fn push_sets(blocks: &mut Blocks, sets: &Sets, by: By, done: &Block)
    requires { blocks.old ≡ [] }
    ensures value { blocks.new ≡ map (spec.of_set by done.now) sets.now }
    ensures room { length blocks.new ≤ 4 }
{
    for set in sets.as_slice() {
        blocks.push(of_set(by, done, set));
    }
}

fn push_melds(blocks: &mut Blocks, melds: &Melds)
    requires { length blocks.old ≤ 5 }
    ensures { blocks.new ≡ blocks.old ++ map spec.of_meld melds.now }
{
    for place in 0..melds.count() {
        if let Some(meld) = melds.get(place) {
            blocks.push(of_meld(&meld));
        }
    }
}
