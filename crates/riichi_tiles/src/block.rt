ghost use Rattle.std.specs.Prelude.{◌≡◌, nat_lt};
ghost use Rattle.riichi_tiles.specs.Blocks.{copies};

use crate::kind::Kind;

/// What concealed tiles are split into.
#[derive(Clone, Copy, Debug, PartialEq, Eq)]
pub enum Block {
    /// Three successive numbers of one suit, named by the lowest.
    Run(Kind),
    /// Three of a kind.
    Triplet(Kind),
    /// Two of a kind.
    Pair(Kind),
}

impl Block {
    /// How many tiles of a kind it has.
    pub fn tiles(&self, kind: Kind) -> u8
        ensures { result ≡ copies self.now kind }
    {
        match *self {
            Block::Run(_) => u8::from(self.contains(kind)),
            Block::Triplet(held) => if held == kind { 3 } else { 0 },
            Block::Pair(held) => if held == kind { 2 } else { 0 },
        }
    }

    /// Whether it has a tile of the kind.
    pub fn contains(&self, kind: Kind) -> bool
        ensures { result ≡ nat_lt 0 (copies self.now kind) }
    {
        // No jump for each sort of block, since they come in any order.
        let (low, kinds) = match *self {
            Block::Run(low) => (low, 3),
            Block::Triplet(held) | Block::Pair(held) => (held, 1),
        };
        (low.index() <= kind.index()) & (kind.index() < low.index() + kinds)
    }
}
