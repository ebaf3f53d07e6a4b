use desk_core::{Piece, Ticket};
use riichi_hand::Job;

/// What lies at a place of the board, as the contracts see it. No value of it is made: a `Slot` has it in place.
#[derive(Drop)]
pub enum Content {
    Empty,
    Offer(Ticket, Job),
    Done(Piece),
}
