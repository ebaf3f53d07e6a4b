//! A board, its seats and its rules, on one thread.
ghost use Rattle.std.specs.Prelude.{◌≡◌};
ghost use Rattle.desk_run.specs.Sitting.{board_name, same_board};

use crate::common::{a_board, a_cache, given, shape_b, submit, ticket, waits_a};
use crate::facts::holds;
use desk_core::{Taken, Ticket};
use desk_run::{Board, BoardFault, BoardParts, Gate, NoGate, OfferFault, TableSeat, Worked};
use std::test::Fail;

#[test]
fn the_board_on_one_thread(rt: HostRuntime) -> Result<(), Fail> {
    let (a, b) = (waits_a(&rt), shape_b(&rt));
    let Ok(parts) = a_board(rt.alloc(), 1, 1, 2) else {
        panic!(rt; "no board")
    };
    let BoardParts {
        board,
        mut tables,
        mut workers,
        mut stop,
    } = parts;
    let (Some(mut table), Some(mut worker)) = (tables.pop(), workers.pop()) else {
        panic!(rt; "no seat")
    };
    holds(&rt, table.table() == 0);
    holds(&rt, submit(&mut table, &board, a) == Ok(ticket(0)));
    holds(&rt, submit(&mut table, &board, b) == Ok(ticket(1)));
    let refused = submit(&mut table, &board, a);
    let no_place = refused.is_err_and(|back| back.fault == OfferFault::NoPlace && back.job == a);
    holds(&rt, no_place);
    let mut cache = a_cache(&rt, rt.alloc());
    let first = worker.work_once(&board, &mut NoGate, &mut cache);
    let second = worker.work_once(&board, &mut NoGate, &mut cache);
    let done = (Worked::Did(ticket(0)), Worked::Did(ticket(1)));
    holds(&rt, (first, second) == done || (second, first) == done);
    let third = worker.work_once(&board, &mut NoGate, &mut cache);
    holds(&rt, third == Worked::Nothing);
    holds(&rt, table.collect(&board) == 2);
    holds(&rt, table.take() == given(0, &a));
    holds(&rt, table.take() == given(1, &b));
    holds(&rt, submit(&mut table, &board, a) == Ok(ticket(2)));
    holds(&rt, !worker.stopped(&board));
    stop.stop(&board);
    holds(&rt, worker.stopped(&board));
    holds(&rt, table.close());
    holds(&rt, table.take() == Taken::Waiting);
    Ok(())
}

#[test]
fn boards_out_of_range(rt: HostRuntime) -> Result<(), Fail> {
    for (tables, workers, places) in [(65, 1, 1), (1, 17, 1), (1, 1, 0)] {
        let fault = Board::new(rt.alloc(), tables, workers, places);
        holds(&rt, fault.is_err_and(|fault| fault == BoardFault::Range));
    }
    Ok(())
}

/// A gate that looks for pieces from the table's seat.
#[derive(Drop)]
struct Peeking<'b> {
    board: &'b Board,
    table: TableSeat,
    found: u32,
    ghost here: { table.board ≡ board_name board.now } by { same_board _ _ },
}

impl<'b> Peeking<'b> {
    fn new(board: &'b Board, table: TableSeat) -> Peeking<'b>
        requires { table.board ≡ board_name board.now }
    {
        Peeking {
            board,
            table,
            found: 0,
        }
    }

    /// How many pieces it finds.
    fn look(&mut self) -> u32 {
        self.table.collect(self.board)
    }
}

impl<'b> Gate for Peeking<'b> {
    fn before_finish(&mut self, _ticket: Ticket) {
        let found = self.look();
        self.found = self.found.saturating_add(found);
    }
}

/// At the gate the piece is not there yet; after it, it is.
#[test]
fn the_gate_comes_before_the_piece(rt: HostRuntime) -> Result<(), Fail> {
    let a = waits_a(&rt);
    let Ok(parts) = a_board(rt.alloc(), 1, 1, 2) else {
        panic!(rt; "no board")
    };
    let BoardParts {
        board,
        mut tables,
        mut workers,
        ..
    } = parts;
    let (Some(mut table), Some(mut worker)) = (tables.pop(), workers.pop()) else {
        panic!(rt; "no seat")
    };
    holds(&rt, submit(&mut table, &board, a) == Ok(ticket(0)));
    let mut cache = a_cache(&rt, rt.alloc());
    let mut gate = Peeking::new(&board, table);
    holds(
        &rt,
        worker.work_once(&board, &mut gate, &mut cache) == Worked::Did(ticket(0)),
    );
    holds(&rt, gate.found == 0);
    holds(&rt, gate.look() == 1);
    Ok(())
}
