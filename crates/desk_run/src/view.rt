//! What a seat knows of the board. No value of these types is made: they are data of the contracts.

use crate::held::Held;
use crate::place_state::PlaceState;
use crate::size::BoardSize;
use desk_core::Ticket;
use std::collections::LinkedList;

/// What a table has at each of its places, how many tickets it has offered, and the places of its
/// lost fetches.
pub struct TableView {
    pub number: u64,
    /// The first of its places.
    pub base: u64,
    pub states: LinkedList<PlaceState>,
    pub offers: u64,
    pub lost: LinkedList<u64>,
}

/// What a worker holds, the tickets that it finished, the places of its lost claims, how often it
/// looked for the stop, and whether it knows of it.
pub struct WorkerView {
    pub number: u64,
    pub held: Option<Held>,
    pub finished: LinkedList<Ticket>,
    pub lost: LinkedList<u64>,
    pub looks: u64,
    pub knows_stop: bool,
}

pub struct StopView {
    pub number: u64,
    pub knows_stop: bool,
}

/// A seat that has not entered has no number, and holds and lists nothing.
pub enum View {
    Entering(BoardSize),
    Table(TableView),
    Worker(WorkerView),
    Stop(StopView),
}
