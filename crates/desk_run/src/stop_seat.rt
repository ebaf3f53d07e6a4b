ghost use Rattle.std.specs.Prelude.{◌≡◌, true};
ghost use Rattle.desk_run.specs.Sitting.{board_name};

use crate::board::Board;
use crate::steps::Seat;
use std::marker::Model;

/// The seat that stops the workers.
#[derive(Drop)]
pub struct StopSeat {
    pub(crate) seat: Seat,
}

impl Model for StopSeat {
    ghost use Rattle.desk_run.specs.SeatStates.{StopState, stop_state};
    ghost use Rattle.desk_run.specs.Sitting.{IsStopSeat};

    ghost Value = { StopState };

    ghost view = { λ s. stop_state s.seat.table_id s.seat.me };

    ghost invariant = { λ s. IsStopSeat s.seat.me };
}

impl StopSeat {
    /// Tells each worker that looks from now on.
    pub fn stop(&mut self, board: &Board)
        requires { self.old.board ≡ board_name board.now }
        ensures { self.new ≡ record self.old { knows_stop = true } }
    {
        board.halt(&mut self.seat);
    }
}
