//! A new board with a seat for each table and each worker.
ghost use Rattle.std.specs.Prelude.{◌≡◌, ◌↔◌, ◌*◌, ◌≤◌, false, IfOk, Err, IsTrue, vec_len};
ghost use Rattle.desk_run.specs.Parts.{IsInRange, AreNewTables, AreNewWorkers};
ghost use Rattle.desk_run.specs.Sitting.{board_name};

use crate::board::Board;
use crate::parts::{BoardFault, BoardParts};
use crate::size::BoardSize;
use std::alloc::{AllocError, Global};

/// Whether it is 1 to 64 tables, 1 to 16 workers and 1 to 32 places for each table.
pub(crate) fn in_range(size: BoardSize) -> bool
    ensures { IsTrue result ↔ IsInRange size.tables size.workers size.places }
{
    (1 <= size.tables && size.tables <= 64)
        && (1 <= size.workers && size.workers <= 16)
        && (1 <= size.places && size.places <= 32)
}

impl Board {
    /// The board of this size, with all its seats.
    fn make(alloc: Global, size: BoardSize) -> Result<BoardParts, AllocError>
        requires { IsInRange size.tables size.workers size.places }
        ensures counts { IfOk result (λ parts. (vec_len parts.tables ≡ size.tables)
            × (vec_len parts.workers ≡ size.workers)) }
        ensures slots { IfOk result (λ parts. (board_name parts.board).slots
            ≡ size.tables * size.places) }
        ensures tables { IfOk result (λ parts. AreNewTables
            (board_name parts.board) size.places parts.tables.items) }
        ensures workers { IfOk result (λ parts. AreNewWorkers
            (board_name parts.board) parts.workers.items) }
        ensures stop { IfOk result (λ parts. (parts.stop.board ≡ board_name parts.board)
            × (parts.stop.knows_stop ≡ false)) }
    {
        let (board, mut seat) = Board::lay(alloc, size)?;
        let mut tables = Vec::with_capacity(alloc, size.tables as usize)?;
        let mut workers = Vec::with_capacity(alloc, size.workers as usize)?;
        for number in 0..size.tables {
            let other = board.another(&mut seat);
            tables.push_reserved(board.table_seat(alloc, other, number)?);
        }
        for number in 0..size.workers {
            let other = board.another(&mut seat);
            workers.push_reserved(board.worker_seat(other, (size.tables + number) as u64)?);
        }
        let stop = board.stop_seat(seat, (size.tables + size.workers) as u64)?;
        Ok(BoardParts {
            board,
            tables,
            workers,
            stop,
        })
    }

    /// A board of so many tables and workers, and so many places for each table.
    pub fn new(
        alloc: Global,
        tables: u32,
        workers: u32,
        places: u32,
    ) -> Result<BoardParts, BoardFault>
        ensures range { (result ≡ Err BoardFault.Range) ↔ (¬ IsInRange tables workers places) }
        ensures counts { IfOk result (λ parts. (vec_len parts.tables ≡ tables)
            × (vec_len parts.workers ≡ workers)) }
        ensures slots { IfOk result (λ parts. (board_name parts.board).slots ≡ tables * places) }
        ensures tables { IfOk result (λ parts. AreNewTables
            (board_name parts.board) places parts.tables.items) }
        ensures workers { IfOk result (λ parts. AreNewWorkers
            (board_name parts.board) parts.workers.items) }
        ensures stop { IfOk result (λ parts. (parts.stop.board ≡ board_name parts.board)
            × (parts.stop.knows_stop ≡ false)) }
    {
        let size = BoardSize {
            tables,
            workers,
            places,
        };
        if !in_range(size) {
            return Err(BoardFault::Range);
        }
        match Board::make(alloc, size) {
            Ok(parts) => Ok(parts),
            Err(_) => Err(BoardFault::Memory),
        }
    }
}
