ghost use Rattle.std.specs.Prelude.{◌≡◌, ◌+◌, ◌<◌, ◌≤◌, ◌↔◌, IsTrue, [], ◌∷◌, ◌++◌, length, drop, slice_get, replicate};
ghost use Rattle.riichi_split.specs.Dones.{is_block_among};

use riichi_tiles::{Block, Kind};
use std::marker::Model;

/// The concealed sets of a reading, at most four, in order: by the lowest tile, a triplet before the
/// runs that begin with its kind.
#[derive(Clone, Copy, Debug, PartialEq, Eq)]
pub struct Sets {
    // The sets and then, in the places that are left, one and the same block.
    blocks: [Block; 4],
    count: usize,
}

impl Model for Sets {
    ghost use Rattle.std.specs.Prelude.{List, take, length};
    ghost use Rattle.riichi_tiles.specs.declared.block.Block.{Block};
    ghost use Rattle.riichi_split.specs.Sets.{AreSets, in_four_places};

    ghost Value = { List Block };

    ghost view = { λ s. take s.count s.blocks };

    ghost invariant = { λ s. AreSets s.blocks s.count };

    ghost inverse = { λ l. record { blocks = in_four_places l; count = length l } };
}

impl Sets {
    pub(crate) fn new() -> Sets
        ensures { result ≡ [] }
    {
        Sets {
            blocks: [Block::Pair(Kind::at(0)); 4],
            count: 0,
        }
    }

    /// How many sets there are.
    pub fn len(&self) -> usize
        ensures value { result ≡ length self.now }
        ensures at_most_four { result ≤ 4 }
    {
        self.as_slice().len()
    }

    /// Whether there is no set.
    pub fn is_empty(&self) -> bool
        ensures { IsTrue result ↔ (self.now ≡ []) }
    {
        self.count == 0
    }

    /// The sets, in their order.
    pub fn as_slice(&self) -> &[Block]
        ensures value { result.now ≡ self.now }
        ensures at_most_four { length result.now ≤ 4 }
    {
        &self.blocks[..self.count]
    }

    /// The set that stands after so many others.
    pub fn get(&self, place: usize) -> Option<Block>
        ensures { result ≡ slice_get self.now place }
    {
        if place < self.count {
            Some(self.blocks[place])
        } else {
            None
        }
    }

    #[tactic(auto, using(crate::proofs::Placed::AreSets_push))]
    pub(crate) fn push(&mut self, block: Block)
        requires { length self.old < 4 }
        ensures { self.new ≡ self.old ++ block ∷ [] }
    {
        self.blocks[self.count] = block;
        self.count += 1;
    }

    /// The block is one of those from the place on.
    pub(crate) fn has_from(&self, place: usize, block: Block) -> bool
        ensures { result ≡ is_block_among block (drop place self.now) }
    {
        for at in place..self.count {
            if self.blocks[at] == block {
                return true;
            }
        }
        false
    }
}
