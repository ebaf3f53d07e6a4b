use crate::sets::Sets;
use riichi_tiles::Kind;

/// Tiles cut into sets and a pair.
#[derive(Clone, Copy)]
pub(crate) struct Split {
    pub(crate) sets: Sets,
    pub(crate) pair: Kind,
}
