//! A place for a hand.
ghost use Rattle.std.specs.Prelude.{◌≡◌, ◌<◌};
ghost use Rattle.riichi_chances.specs.Places.{bucket_of};

use crate::node::{Draws, Node};

/// A place that is lent for a hand of thirteen tiles: its tiles, what it accepts, and where to look on for a hand that isn't here.
#[derive(Clone, Copy)]
#[repr(C)]
pub struct HandPlace {
    pub(crate) tiles: [u8; 34],
    pub(crate) node: Node,
    /// One more than the last place before it whose hand is looked for alike, 0 where there is none.
    pub(crate) earlier: u16,
}

impl HandPlace {
    /// A place where no hand stands yet.
    pub fn free() -> HandPlace {
        HandPlace {
            tiles: [0; 34],
            node: Node {
                is_ready: false,
                live: 0,
                draws: Draws::new(),
            },
            earlier: 0,
        }
    }
}

/// Hands of as many lists are looked for.
pub(crate) const BUCKETS: usize = 4096;

/// In which list a hand is looked for.
#[tactic(auto, unfolding(crate::specs::Places::bucket_of))]
pub(crate) fn bucket_of(tiles: &[u8; 34]) -> usize
    ensures value { result ≡ bucket_of tiles.now }
    ensures inside { result < BUCKETS }
{
    let mut number = 0u32;
    for count in tiles {
        number = (31 * number + *count as u32) % BUCKETS as u32;
    }
    number as usize
}
