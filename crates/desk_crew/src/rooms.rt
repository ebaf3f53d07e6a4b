//! Rooms for the answers of a round.
ghost use Rattle.std.specs.Prelude.{◌≡◌, length};

use crate::piece::PIECES;
use std::alloc::{AllocError, Global};

/// Rooms for the answers of a round: one for each piece, in their order.
#[derive(Drop)]
pub(crate) struct Rooms {
    pub(crate) rooms: Vec<Vec<u8>>,

    ghost all: { length rooms.items ≡ 64 },
}

impl Rooms {
    pub(crate) fn new(alloc: Global) -> Result<Rooms, AllocError> {
        let mut rooms = Vec::new(alloc);
        while rooms.len() < PIECES {
            rooms.push(Vec::new(alloc))?;
        }
        Ok(Rooms { rooms })
    }
}
