ghost use Rattle.std.specs.Prelude.{◌≡◌, ◌≢◌, ◌↔◌, ◌+◌, ◌<◌, ◌∷◌, ◌++◌, [], true, false, Ok, IsTrue, IfOk, IfErr, OnErr, length, slice_set, slice_index_or};
ghost use mathlib.Core.Option.{some};
ghost use lib.ListN.{get_elem?};
ghost use Rattle.desk_core.specs.LaneState.{with_job, CanTakeBack, TakesBack};
ghost use Rattle.desk_core.specs.GivesFirst.{GivesFirst};
ghost use Rattle.desk_core.specs.Step.{IsStep};
ghost use Rattle.desk_core.specs.Replies.{withdraw_reply};
ghost use Rattle.desk_run.specs.LanePlaces.{ticket, count_accepted, outs};
ghost use Rattle.desk_run.specs.Offers.{IsOfferFault, MayOffer};
ghost use Rattle.desk_run.specs.Plays.{SeatState, FetchesAt, table_seen};
ghost use Rattle.desk_run.specs.Seats.{board_id};
ghost use Rattle.desk_run.specs.Sitting.{Collects, Receives, out_places, place_if_out, board_name};
ghost use Rattle.desk_run.specs.Views.{with_state};
ghost use Rattle.desk_run.specs.declared.content.Content.TheVariants.{Empty};
ghost use Rattle.desk_run.specs.declared.view.View.TheVariants.{Table};
ghost use Rattle.desk_core.specs.Ticketed.{Ticketed};
ghost use Rattle.desk_core.specs.declared.event.Event.TheVariants.{Submit, Close, Take, Withdraw};
ghost use Rattle.desk_core.specs.declared.reply.Reply.TheVariants as reply;
ghost use Rattle.desk_run.specs.declared.place_state.PlaceState.TheVariants.{Fresh, Vacant, Out};

use crate::board::Board;
use crate::lane_places::LanePlaces;
use crate::offer::OfferBack;
use crate::place_state::PlaceState;
use crate::steps::Seat;
use desk_core::{Taken, Ticket};
use riichi_hand::Job;
use riichi_shape::Memory;
use std::marker::Model;

/// The seat of a table: its lane, and its places of the board. Each ticket of the lane that has
/// neither arrived nor was withdrawn is out with its job, at one place, and each other ticket that is
/// out was withdrawn.
#[derive(Drop)]
pub struct TableSeat {
    pub(crate) seat: Seat,
    pub(crate) base: usize,
    pub(crate) own: LanePlaces,
}

impl Model for TableSeat {
    ghost use Rattle.desk_run.specs.SeatStates.{TableState, table_state};
    ghost use Rattle.desk_run.specs.Sitting.{IsTableSeat};

    ghost Value = { TableState };

    ghost view = { λ t. table_state t.seat.table_id t.seat.me t.base t.own.lane t.own.states.items };

    ghost invariant = { λ t. IsTableSeat t.seat.table_id t.seat.me t.base t.own.lane t.own.states.items t.own.vacant.items };
}

impl TableSeat {
    /// Whether some place is free for one more job.
    pub(crate) fn has_place(&self) -> bool
        ensures place { result ≡ true → outs self.now.states ≢ length self.now.states }
        ensures none { result ≡ false → outs self.now.states ≡ length self.now.states }
    {
        self.own.has_place()
    }

    /// Offers the job to the workers. After a refusal nothing has changed.
    pub fn submit(&mut self, board: &Board, job: Job) -> Result<Ticket, OfferBack>
        requires { self.old.board ≡ board_name board.now }
        ensures same { (self.new.board ≡ self.old.board) × (self.new.base ≡ self.old.base)
            × (self.new.lost ≡ self.old.lost) }
        ensures ticket { IfOk result (λ x.
            x ≡ ticket self.old.lane.table (count_accepted self.old.lane)) }
        ensures lane { IfOk result (λ _. self.new.lane ≡ with_job self.old.lane job) }
        ensures step { IfOk result (λ x. IsStep self.old.lane (Submit self.old.lane.table job)
            (reply.Ticket x) self.new.lane) }
        ensures place { IfOk result (λ x. (k : _) × (get_elem? self.old.states k ≡ some Vacant)
            × (self.new.states ≡ slice_set self.old.states k (Out x job))) }
        ensures may { IfOk result (λ _. MayOffer self.old.lane self.old.states) }
        ensures fault { IfErr result
            (λ back. IsOfferFault self.old.lane self.old.states back.fault) }
        ensures back { IfErr result (λ back. back.job ≡ job) }
        ensures err { OnErr result (self.new ≡ self.old) }
    {
        match self.own.submit(&job) {
            Err(fault) => Err(OfferBack::of(fault, &job)),
            Ok((offset, ticket)) => {
                board.offer(&mut self.seat, self.base + offset, offset, ticket, &job);
                Ok(ticket)
            }
        }
    }

    /// Tries to fetch the piece of the ticket that is out at the place.
    fn fetch_at(&mut self, board: &Board, offset: usize) -> bool
        requires id { self.old.board ≡ board_name board.now }
        requires near { offset < length self.old.states }
        ensures board { (self.new.board ≡ self.old.board) × (self.new.base ≡ self.old.base) }
        ensures fetched { result ≡ true
            → Collects 1 self.old.lane self.old.states self.new.lane self.new.states
            × (self.new.states ≡ slice_set self.old.states offset Vacant) × (self.new.lost ≡ self.old.lost) }
        ensures lost { result ≡ false
            → (self.new.lane ≡ self.old.lane) × (self.new.states ≡ self.old.states)
            × (self.new.lost ≡ self.old.lost ++ place_if_out (self.old.base + offset) (slice_index_or self.old.states offset Fresh)) }
    {
        let PlaceState::Out(_, _) = &self.own.states[offset] else {
            return false;
        };
        let place = self.base + offset;
        if !board.fetch(&mut self.seat, place, offset) {
            return false;
        }
        take_in(&mut self.own, board, &mut self.seat, place, offset);
        true
    }

    /// Fetches the pieces that it finds done, and answers how many. Each is accepted, or its ticket
    /// was withdrawn; its place is free again either way.
    pub fn collect(&mut self, board: &Board) -> u32
        requires { self.old.board ≡ board_name board.now }
        ensures same { (self.new.board ≡ self.old.board) × (self.new.base ≡ self.old.base) }
        ensures arrived { Collects result self.old.lane self.old.states
            self.new.lane self.new.states }
        ensures lost { self.new.lost
            ≡ self.old.lost ++ out_places self.old.base self.new.states (length self.new.states) }
    {
        let mut count = 0;
        for offset in 0..self.place_count() {
            if self.fetch_at(board, offset) {
                count += 1;
            }
        }
        count
    }

    /// How many places the table has.
    fn place_count(&self) -> usize
        ensures { (result ≡ length self.now.states) × (result < 4096) }
    {
        self.own.states.len()
    }

    /// Gives the next answer where its piece has arrived, and forgets the job.
    pub fn take(&mut self) -> Taken
        ensures step { IsStep self.old.lane (Take self.old.lane.table)
            (reply.Taken result) self.new.lane }
        ensures first { GivesFirst self.old.lane result self.new.lane }
        ensures same { self.new ≡ record self.old { lane = self.new.lane } }
    {
        self.own.take()
    }

    /// Takes the job of a ticket back: true where its answer was not given and it was not withdrawn
    /// before. It may come after closing. A withdrawn job keeps its place until its piece is fetched.
    pub fn withdraw(&mut self, seq: u32) -> Result<bool, Memory>
        ensures step { IsStep self.old.lane (Withdraw (ticket self.old.lane.table seq))
            (withdraw_reply result) self.new.lane }
        ensures can { IfOk result (λ done. IsTrue done ↔ CanTakeBack self.old.lane seq) }
        ensures done { result ≡ Ok true → TakesBack self.old.lane seq self.new.lane }
        ensures not { result ≡ Ok false → self.new ≡ self.old }
        ensures err { OnErr result (self.new ≡ self.old) }
        ensures wanted { OnErr result (CanTakeBack self.old.lane seq) }
        ensures same { self.new ≡ record self.old { lane = self.new.lane } }
    {
        self.own.withdraw(seq)
    }

    /// Closes the table to further jobs: true the first time.
    pub fn close(&mut self) -> bool
        ensures step { IsStep self.old.lane (Close self.old.lane.table)
            (reply.Closed result) self.new.lane }
        ensures closed { self.new
            ≡ record self.old { lane = record self.old.lane { closed = true } } }
    {
        self.own.close()
    }

    /// The table's number.
    pub fn table(&self) -> u32
        ensures { result ≡ self.now.lane.table }
    {
        self.own.lane.table()
    }
}

/// Takes the piece that was fetched out of its slot, and into the lane. It stands apart from the fetch, since a call clears
/// the room of all its values when it begins, and most fetches find nothing.
#[inline(never)]
fn take_in(own: &mut LanePlaces, board: &Board, seat: &mut Seat, place: usize, offset: usize)
    requires id { seat.old.table_id ≡ board_id board.now }
    requires fetched { (m : SeatState) × FetchesAt m place offset seat.old.me
        × ((table_seen m.0).states ≡ own.old.states.items) }
    ensures id { seat.new.table_id ≡ seat.old.table_id }
    ensures me { (m : SeatState) → FetchesAt m place offset seat.old.me
        → seat.new.me ≡ (Table (with_state (table_seen m.0) offset Vacant), (place, Empty) ∷ m.1) }
    ensures taken { (piece : Ticketed)
        × (get_elem? own.old.states.items offset ≡ some (Out piece.ticket piece.job))
        × Receives own.old.lane piece own.new.lane }
    ensures states { (own.new.states.items ≡ slice_set own.old.states.items offset Vacant)
        × (own.new.vacant.items ≡ own.old.vacant.items ++ offset ∷ []) }
{
    let piece = board.take_piece(seat, place, offset);
    own.receive(offset, piece);
}
