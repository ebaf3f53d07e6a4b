use crate::board::Board;
use crate::stop_seat::StopSeat;
use crate::table_seat::TableSeat;
use crate::worker_seat::WorkerSeat;

/// A new board with its seats: that of table `i` is `tables[i]`.
#[derive(Drop)]
pub struct BoardParts {
    pub board: Board,
    pub tables: Vec<TableSeat>,
    pub workers: Vec<WorkerSeat>,
    pub stop: StopSeat,
}

/// Why a board could not be made: the first of these that holds.
#[derive(Clone, Copy, PartialEq, Eq, Debug)]
pub enum BoardFault {
    /// B1: not 1 to 64 tables, 1 to 16 workers and 1 to 32 places for each table.
    Range,
    /// B2: there was no memory for the board.
    Memory,
}
