//! The rule of the board, and the names of its steps.
ghost use Rattle.desk_run.specs.Rule.{Orderly};
ghost use Rattle.desk_run.specs.Views.{entering};
ghost use Rattle.desk_run.specs.Plays.{entered_table, entered_worker, entered_stop, took_up, offered, claimed, tried, finished, fetched, seen_ready, seen_done, stopped, looked};

use crate::size::BoardSize;
use crate::slot::Slot;
use crate::view::View;
use atomic_table::{Play, Split, TableRule};

/// The order that holds on the board between any two steps.
#[derive(Clone, Copy)]
pub struct Order;

impl TableRule<Slot, View, BoardSize> for Order {
    ghost holds = { Orderly };

    ghost first = { λ size. entering size };
}

pub struct Another;

impl Split<View> for Another {
    ghost left = { λ v. v };

    ghost right = { λ v. v };
}

pub struct EnterTable;

impl Play<Slot, View> for EnterTable {
    ghost then = { entered_table };
}

pub struct EnterWorker;

impl Play<Slot, View> for EnterWorker {
    ghost then = { entered_worker };
}

pub struct EnterStop;

impl Play<Slot, View> for EnterStop {
    ghost then = { entered_stop };
}

pub struct TakeUp;

impl Play<Slot, View> for TakeUp {
    ghost then = { took_up };
}

pub struct Submit;

impl Play<Slot, View> for Submit {
    ghost then = { offered };
}

pub struct Claim;

impl Play<Slot, View> for Claim {
    ghost then = { claimed };
}

pub struct Try;

impl Play<Slot, View> for Try {
    ghost then = { tried };
}

pub struct Finish;

impl Play<Slot, View> for Finish {
    ghost then = { finished };
}

pub struct Fetch;

impl Play<Slot, View> for Fetch {
    ghost then = { fetched };
}

pub struct SeeReady;

impl Play<Slot, View> for SeeReady {
    ghost then = { seen_ready };
}

pub struct SeeDone;

impl Play<Slot, View> for SeeDone {
    ghost then = { seen_done };
}

pub struct Halt;

impl Play<Slot, View> for Halt {
    ghost then = { stopped };
}

pub struct Look;

impl Play<Slot, View> for Look {
    ghost then = { looked };
}
