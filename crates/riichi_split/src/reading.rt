ghost use Rattle.std.specs.Prelude.{◌≡◌};

use crate::sets::Sets;
use riichi_tiles::{Block, Kind};

/// How the tiles of a hand are read. Two readings are equal where their sets, pair and completed block
/// are.
#[derive(Clone, Copy, Debug, PartialEq, Eq)]
pub enum Reading {
    /// The concealed sets in order, the pair, and the block that the winning tile completes.
    Standard { sets: Sets, pair: Kind, done: Block },
    /// Two tiles of each of seven kinds.
    SevenPairs,
    /// The thirteen orphans: each terminal and honour, one of them twice.
    Orphans,
}

/// What fills the places of a list that no reading has taken.
impl Default for Reading {
    ghost use Rattle.riichi_split.specs.declared.reading.Reading.TheVariants.{SevenPairs};

    ghost is_default = { λ reading. reading ≡ SevenPairs };

    fn default() -> Self {
        Reading::SevenPairs
    }
}
