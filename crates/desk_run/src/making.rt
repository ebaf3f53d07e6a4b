//! A board with no places taken up, and the seats that enter it.
ghost use Rattle.std.specs.Prelude.{◌≡◌, ◌+◌, ◌*◌, ◌≤◌, ◌<◌, ◌^◌, [], true, false, IfOk, IfErr, length, vec_len, replicate};
ghost use Rattle.desk_core.specs.LaneState.{new_lane};
ghost use Rattle.desk_run.specs.LanePlaces.{outs};
ghost use Rattle.desk_run.specs.Sitting.{board_name};
ghost use Rattle.desk_run.specs.declared.content.Content.TheVariants.{Empty};
ghost use Rattle.desk_run.specs.declared.view.View.TheVariants.{Entering};

use crate::board::Board;
use crate::lane_places::LanePlaces;
use crate::size::BoardSize;
use crate::slot::Slot;
use crate::steps::Seat;
use crate::stop_seat::StopSeat;
use crate::table_seat::TableSeat;
use crate::worker_seat::WorkerSeat;
use atomic_table::{Refused, Table};
use std::alloc::{AllocError, Global};

fn empty_places(alloc: Global, count: usize) -> Result<Vec<Slot>, AllocError>
    ensures { IfOk result (λ places. places.items ≡ replicate count Empty) }
{
    let mut places = Vec::with_capacity(alloc, count)?;
    for _laid in 0..count {
        places.push_reserved(Slot::new());
    }
    Ok(places)
}

impl Board {
    /// A board with no places taken up, and a seat that has not entered.
    pub(crate) fn lay(alloc: Global, size: BoardSize) -> Result<(Board, Seat), AllocError>
        requires { (size.tables ≤ 64) × (size.places ≤ 32) }
        ensures { IfOk result (λ r. (r.1.table_id ≡ board_name r.0) × (r.0.size ≡ size)
            × (r.1.me ≡ (Entering size, []))) }
    {
        let count = (size.tables * size.places) as usize;
        let words = vec![in alloc; 0u64; 2 + count]?;
        let slots = empty_places(alloc, count)?;
        match Table::new(alloc, words.as_slice(), slots, &size) {
            Ok((table, seat)) => Ok((Board { table, size }, seat)),
            Err(Refused { slots: _ }) => Err(AllocError),
        }
    }

    /// Enters as the table of this number, and takes up its places.
    pub(crate) fn table_seat(
        &self,
        alloc: Global,
        mut seat: Seat,
        number: u32,
    ) -> Result<TableSeat, AllocError>
        requires seat { (seat.table_id ≡ board_name self.now)
            × (seat.me ≡ (Entering self.now.size, [])) }
        requires number { (number < self.now.size.tables) × (self.now.size.tables ≤ 64)
            × (self.now.size.places ≤ 32) }
        ensures board { IfOk result (λ t. t.board ≡ board_name self.now) }
        ensures lane { IfOk result (λ t. t.lane ≡ new_lane number) }
        ensures base { IfOk result (λ t. t.base ≡ number * self.now.size.places) }
        ensures states { IfOk result (λ t. (outs t.states ≡ 0)
            × (length t.states ≡ self.now.size.places)) }
    {
        let places = self.size.places as usize;
        let base = number as usize * places;
        let mut vacant = Vec::with_capacity(alloc, places)?;
        if !self.enter_table(&mut seat, number as u64) {
            return Err(AllocError);
        }
        for offset in 0..places {
            self.take_up(&mut seat, base + offset, offset);
            vacant.push_reserved(offset);
        }
        let own = LanePlaces::opening(alloc, number, places, vacant)?;
        Ok(TableSeat { seat, base, own })
    }

    /// Enters as a worker.
    pub(crate) fn worker_seat(&self, mut seat: Seat, number: u64) -> Result<WorkerSeat, AllocError>
        requires seat { (seat.table_id ≡ board_name self.now)
            × (seat.me ≡ (Entering self.now.size, [])) }
        requires number { (self.now.size.tables ≤ number)
            × (number < self.now.size.tables + self.now.size.workers) × (number < 2 ^ 32) }
        ensures board { IfOk result (λ w. w.board ≡ board_name self.now) }
        ensures view { IfOk result (λ w. (w.finished ≡ []) × (w.lost ≡ []) × (w.looks ≡ 0)
            × (w.knows_stop ≡ false)) }
    {
        if !self.enter_worker(&mut seat, number) {
            return Err(AllocError);
        }
        Ok(WorkerSeat { seat, from: 0 })
    }

    /// Enters as the seat that stops the workers.
    pub(crate) fn stop_seat(&self, mut seat: Seat, number: u64) -> Result<StopSeat, AllocError>
        requires seat { (seat.table_id ≡ board_name self.now)
            × (seat.me ≡ (Entering self.now.size, [])) }
        requires number { (number ≡ self.now.size.tables + self.now.size.workers)
            × (number < 2 ^ 32) }
        ensures { IfOk result (λ w. (w.board ≡ board_name self.now) × (w.knows_stop ≡ false)) }
    {
        if !self.enter_stop(&mut seat, number) {
            return Err(AllocError);
        }
        Ok(StopSeat { seat })
    }
}
