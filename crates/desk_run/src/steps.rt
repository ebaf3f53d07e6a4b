//! The steps on the board, each with the one atomic call that it makes.
ghost use Rattle.std.specs.Prelude.{◌≡◌, ◌+◌, ◌<◌, ◌≤◌, ◌^◌, ◌∷◌, [], false, true, None, Some, ◌==◌};
ghost use mathlib.Core.Option.{some};
ghost use lib.ListN.{get_elem?};
ghost use Rattle.atomic_table.specs.Table.{rest};
ghost use Rattle.desk_run.specs.Counts.{times_listed};
ghost use Rattle.desk_run.specs.Rule.{count_places};
ghost use Rattle.desk_run.specs.Views.{new_table, new_worker, with_state, offering, table_lost, holding, worker_lost, having_finished, looking};
ghost use Rattle.desk_run.specs.Plays.{SeatState, Claims, Judges, FetchesAt, table_seen, worker_seen, stop_seen};
ghost use Rattle.desk_run.specs.Seats.{board_id, IsTable, IsWorker, IsStop};
ghost use Rattle.desk_run.specs.declared.place_state.PlaceState.TheVariants.{Fresh, Vacant, Out};
ghost use Rattle.desk_run.specs.declared.view.View.TheVariants.{Entering, Table, Worker, Stop};
ghost use Rattle.desk_run.specs.declared.content.Content.TheVariants.{Empty, Offer, Done};

use crate::board::Board;
use crate::rule::{
    Another, Claim, EnterStop, EnterTable, EnterWorker, Fetch, Finish, Halt, Look, SeeDone,
    SeeReady, Submit, TakeUp, Try,
};
use crate::slot::Slot;
use crate::view::View;
use desk_core::{Piece, Ticket};
use riichi_hand::Job;
use riichi_shape::RowSource;

pub type Seat = atomic_table::Seat<Slot, View>;

// Word 0 is the roll, word 1 the stop, and each place has a word from FIRST on.
const ROLL: usize = 0;

const STOP: usize = 1;

const FIRST: usize = 2;

const IDLE: u64 = 0;

const READY: u64 = 1;

const TAKEN: u64 = 2;

const DONE: u64 = 3;

impl Board {
    /// The offer goes home, and its place is ready.
    pub(crate) fn offer(
        &self,
        seat: &mut Seat,
        place: usize,
        _offset: usize,
        ticket: Ticket,
        job: &Job,
    )
        requires id { (seat.old.table_id ≡ board_id self.now)
            × (place < (board_id self.now).slots) }
        requires table { IsTable seat.old.me × (place ≡ (table_seen seat.old.me.0).base + _offset) }
        requires vacant { get_elem? (table_seen seat.old.me.0).states _offset ≡ some Vacant }
        requires front { seat.old.me.1 ≡ (place, Empty) ∷ rest seat.old.me.1 }
        requires ticket { (ticket.table ≡ (table_seen seat.old.me.0).number)
            × (ticket.seq ≡ (table_seen seat.old.me.0).offers) }
        ensures id { seat.new.table_id ≡ seat.old.table_id }
        ensures me { seat.new.me
            ≡ (
              Table (offering
                  (table_seen seat.old.me.0) _offset ticket job.now),
              rest seat.old.me.1,
            ) }
    {
        self.lay_offer(seat, place, ticket, job);
        self.table
            .shared
            .store::<Submit>(seat, FIRST + place, READY);
    }

    /// Lays the offer into the slot in front.
    fn lay_offer(&self, seat: &mut Seat, place: usize, ticket: Ticket, job: &Job)
        requires id { seat.old.table_id ≡ board_id self.now }
        requires front { seat.old.me.1 ≡ (place, Empty) ∷ rest seat.old.me.1 }
        ensures id { seat.new.table_id ≡ seat.old.table_id }
        ensures me { seat.new.me
            ≡ (seat.old.me.0, (place, Offer ticket job.now) ∷ rest seat.old.me.1) }
    {
        let slot = seat.slot_mut(&self.table.shared, place);
        slot.offer(ticket, job);
    }

    /// Whether the place looks done, by a plain load. Where not, the table notes it as lost.
    pub(crate) fn looks_done(&self, seat: &mut Seat, place: usize, _offset: usize) -> bool
        requires id { (seat.old.table_id ≡ board_id self.now)
            × (place < (board_id self.now).slots) }
        requires table { IsTable seat.old.me × (place ≡ (table_seen seat.old.me.0).base + _offset) }
        ensures id { seat.new.table_id ≡ seat.old.table_id }
        ensures done { result ≡ true → seat.new.me ≡ seat.old.me }
        ensures lost { result ≡ false
            → seat.new.me ≡ (Table (table_lost (table_seen seat.old.me.0) place), seat.old.me.1) }
    {
        self.table.shared.load::<SeeDone>(seat, FIRST + place) == DONE
    }

    /// Whether the place was done. Its piece is then with the seat, in front. Only where it looks done is the word taken.
    pub(crate) fn fetch(&self, seat: &mut Seat, place: usize, offset: usize) -> bool
        requires id { (seat.old.table_id ≡ board_id self.now)
            × (place < (board_id self.now).slots) }
        requires table { IsTable seat.old.me × (place ≡ (table_seen seat.old.me.0).base + offset) }
        requires state { (state : _)
            × (get_elem? (table_seen seat.old.me.0).states offset ≡ some state) }
        ensures id { seat.new.table_id ≡ seat.old.table_id }
        ensures done { result ≡ true → FetchesAt seat.old.me place offset seat.new.me }
        ensures lost { result ≡ false
            → seat.new.me ≡ (Table (table_lost (table_seen seat.old.me.0) place), seat.old.me.1) }
    {
        if !self.looks_done(seat, place, offset) {
            return false;
        }
        self.fetch_done(seat, place, offset)
    }

    /// Takes the word of the place where it is done.
    fn fetch_done(&self, seat: &mut Seat, place: usize, _offset: usize) -> bool
        requires id { (seat.old.table_id ≡ board_id self.now)
            × (place < (board_id self.now).slots) }
        requires table { IsTable seat.old.me × (place ≡ (table_seen seat.old.me.0).base + _offset) }
        requires state { (state : _)
            × (get_elem? (table_seen seat.old.me.0).states _offset ≡ some state) }
        ensures id { seat.new.table_id ≡ seat.old.table_id }
        ensures done { result ≡ true → FetchesAt seat.old.me place _offset seat.new.me }
        ensures lost { result ≡ false
            → seat.new.me ≡ (Table (table_lost (table_seen seat.old.me.0) place), seat.old.me.1) }
    {
        self.table
            .shared
            .compare_exchange::<Fetch>(seat, FIRST + place, DONE, IDLE)
            == DONE
    }

    /// Takes the piece that was fetched out of the slot in front.
    pub(crate) fn take_piece(&self, seat: &mut Seat, place: usize, _offset: usize) -> Piece
        requires id { seat.old.table_id ≡ board_id self.now }
        requires fetched { (m : SeatState) × FetchesAt m place _offset seat.old.me }
        ensures id { seat.new.table_id ≡ seat.old.table_id }
        ensures out { (m : SeatState) → FetchesAt m place _offset seat.old.me
            → get_elem? (table_seen m.0).states _offset ≡ some (Out result.ticket result.job) }
        ensures me { (m : SeatState) → FetchesAt m place _offset seat.old.me
            → seat.new.me ≡ (Table (with_state (table_seen m.0) _offset Vacant), (place, Empty) ∷ m.1) }
    {
        let slot = seat.slot_mut(&self.table.shared, place);
        let piece = slot.piece();
        slot.clear();
        piece
    }

    /// The table takes the content of a place that it has not taken up.
    pub(crate) fn take_up(&self, seat: &mut Seat, place: usize, _offset: usize)
        requires id { (seat.old.table_id ≡ board_id self.now)
            × (place < (board_id self.now).slots) }
        requires table { IsTable seat.old.me × (place ≡ (table_seen seat.old.me.0).base + _offset) }
        requires fresh { get_elem? (table_seen seat.old.me.0).states _offset ≡ some Fresh }
        ensures id { seat.new.table_id ≡ seat.old.table_id }
        ensures me { seat.new.me
            ≡ (
              Table (with_state (table_seen seat.old.me.0) _offset Vacant),
              (place, Empty) ∷ seat.old.me.1,
            ) }
    {
        self.table.shared.store::<TakeUp>(seat, FIRST + place, IDLE);
    }

    /// Whether the place looks ready, by a plain load. Where not, the worker notes it as lost.
    pub(crate) fn looks_ready(&self, seat: &mut Seat, place: usize) -> bool
        requires id { (seat.old.table_id ≡ board_id self.now)
            × (place < (board_id self.now).slots) }
        requires free { IsWorker seat.old.me × ((worker_seen seat.old.me.0).held ≡ None) }
        ensures id { seat.new.table_id ≡ seat.old.table_id }
        ensures ready { result ≡ true → seat.new.me ≡ seat.old.me }
        ensures lost { result ≡ false
            → seat.new.me ≡ (Worker (worker_lost (worker_seen seat.old.me.0) place), seat.old.me.1) }
    {
        self.table.shared.load::<SeeReady>(seat, FIRST + place) == READY
    }

    /// Whether the place was ready. Its offer is then with the seat, in front. Only where it looks ready is the word taken.
    pub(crate) fn claim(&self, seat: &mut Seat, place: usize) -> bool
        requires id { (seat.old.table_id ≡ board_id self.now)
            × (place < (board_id self.now).slots) }
        requires free { IsWorker seat.old.me × ((worker_seen seat.old.me.0).held ≡ None) }
        ensures id { seat.new.table_id ≡ seat.old.table_id }
        ensures ready { result ≡ true → Claims seat.old.me place seat.new.me }
        ensures lost { result ≡ false
            → seat.new.me ≡ (Worker (worker_lost (worker_seen seat.old.me.0) place), seat.old.me.1) }
    {
        if !self.looks_ready(seat, place) {
            return false;
        }
        self.claim_ready(seat, place)
    }

    /// Takes the word of the place where it is ready.
    fn claim_ready(&self, seat: &mut Seat, place: usize) -> bool
        requires id { (seat.old.table_id ≡ board_id self.now)
            × (place < (board_id self.now).slots) }
        requires free { IsWorker seat.old.me × ((worker_seen seat.old.me.0).held ≡ None) }
        ensures id { seat.new.table_id ≡ seat.old.table_id }
        ensures ready { result ≡ true → Claims seat.old.me place seat.new.me }
        ensures lost { result ≡ false
            → seat.new.me ≡ (Worker (worker_lost (worker_seen seat.old.me.0) place), seat.old.me.1) }
    {
        self.table
            .shared
            .compare_exchange::<Claim>(seat, FIRST + place, READY, TAKEN)
            == READY
    }

    /// Whether the place seems ready now. No seat is asked, and nothing is known of it.
    pub(crate) fn seems_ready(&self, place: usize) -> bool
        requires { place < (board_id self.now).slots }
    {
        self.table.shared.peek(FIRST + place) == READY
    }

    /// Claims the place where it is ready, and else changes nothing.
    pub(crate) fn try_claim(&self, seat: &mut Seat, place: usize) -> bool
        requires id { (seat.old.table_id ≡ board_id self.now)
            × (place < (board_id self.now).slots) }
        requires free { IsWorker seat.old.me × ((worker_seen seat.old.me.0).held ≡ None) }
        ensures id { seat.new.table_id ≡ seat.old.table_id }
        ensures ready { result ≡ true → Claims seat.old.me place seat.new.me }
        ensures other { result ≡ false → seat.new.me ≡ seat.old.me }
    {
        self.table
            .shared
            .compare_exchange::<Try>(seat, FIRST + place, READY, TAKEN)
            == READY
    }

    /// Judges the job that was claimed, in its slot in front, and answers its ticket.
    pub(crate) fn judge<S: RowSource>(
        &self,
        seat: &mut Seat,
        source: &mut S,
        place: usize,
    ) -> Ticket
        requires id { seat.old.table_id ≡ board_id self.now }
        requires claimed { (m : SeatState) × Claims m place seat.old.me }
        ensures id { seat.new.table_id ≡ seat.old.table_id }
        ensures me { (m : SeatState) → Claims m place seat.old.me
            → Judges m place result seat.new.me }
        ensures stays { source.new ≡ source.old }
    {
        let slot = seat.slot_mut(&self.table.shared, place);
        slot.judge(source)
    }

    /// The piece in front goes home, and the place is done.
    pub(crate) fn finish(&self, seat: &mut Seat, place: usize, _ticket: Ticket)
        requires id { (seat.old.table_id ≡ board_id self.now)
            × (place < (board_id self.now).slots) }
        requires judged { (m : SeatState) × Judges m place _ticket seat.old.me }
        ensures id { seat.new.table_id ≡ seat.old.table_id }
        ensures me { (m : SeatState) → Judges m place _ticket seat.old.me
            → seat.new.me ≡ (Worker (having_finished (worker_seen m.0) _ticket), m.1) }
        ensures once { (m : SeatState) → Judges m place _ticket seat.old.me
            → times_listed _ticket (worker_seen m.0).finished ≡ 0 }
    {
        self.table.shared.store::<Finish>(seat, FIRST + place, DONE);
    }

    /// Sets the stop word.
    pub(crate) fn halt(&self, seat: &mut Seat)
        requires id { seat.old.table_id ≡ board_id self.now }
        requires stop { IsStop seat.old.me }
        ensures id { seat.new.table_id ≡ seat.old.table_id }
        ensures me { seat.new.me
            ≡ (
              Stop (record {
                number =
                    (stop_seen seat.old.me.0).number;
                knows_stop = true;
              }),
              seat.old.me.1,
            ) }
    {
        self.table.shared.store::<Halt>(seat, STOP, 1);
    }

    /// One look at the stop word.
    pub(crate) fn look(&self, seat: &mut Seat) -> bool
        requires id { seat.old.table_id ≡ board_id self.now }
        requires free { IsWorker seat.old.me × ((worker_seen seat.old.me.0).held ≡ None) }
        ensures id { seat.new.table_id ≡ seat.old.table_id }
        ensures me { seat.new.me
            ≡ (Worker (looking (worker_seen seat.old.me.0) result), seat.old.me.1) }
        ensures always { (worker_seen seat.old.me.0).knows_stop ≡ true → result ≡ true }
    {
        self.table.shared.load::<Look>(seat, STOP) == 1
    }

    /// Enters as the table of this number where it is the next one, and else changes nothing.
    pub(crate) fn enter_table(&self, seat: &mut Seat, number: u64) -> bool
        requires id { seat.old.table_id ≡ board_id self.now }
        requires new { (seat.old.me.0 ≡ Entering self.now.size) × (number < self.now.size.tables)
            × (number < 2 ^ 32) }
        ensures id { seat.new.table_id ≡ seat.old.table_id }
        ensures me { result ≡ true
            → seat.new.me ≡ (Table (new_table number self.now.size), seat.old.me.1) }
    {
        self.table
            .shared
            .compare_exchange::<EnterTable>(seat, ROLL, number, number + 1)
            == number
    }

    /// Enters as the worker of this number where it is the next one, and else changes nothing.
    pub(crate) fn enter_worker(&self, seat: &mut Seat, number: u64) -> bool
        requires id { seat.old.table_id ≡ board_id self.now }
        requires new { (seat.old.me.0 ≡ Entering self.now.size) × (self.now.size.tables ≤ number)
            × (number < self.now.size.tables + self.now.size.workers) × (number < 2 ^ 32) }
        ensures id { seat.new.table_id ≡ seat.old.table_id }
        ensures me { result ≡ true → seat.new.me ≡ (Worker (new_worker number), seat.old.me.1) }
    {
        self.table
            .shared
            .compare_exchange::<EnterWorker>(seat, ROLL, number, number + 1)
            == number
    }

    /// Enters as the seat that stops the workers where this number is the next one, and else
    /// changes nothing.
    pub(crate) fn enter_stop(&self, seat: &mut Seat, number: u64) -> bool
        requires id { seat.old.table_id ≡ board_id self.now }
        requires new { (seat.old.me.0 ≡ Entering self.now.size)
            × (number ≡ self.now.size.tables + self.now.size.workers) × (number < 2 ^ 32) }
        ensures id { seat.new.table_id ≡ seat.old.table_id }
        ensures me { result ≡ true
            → seat.new.me ≡ (Stop (record { number = number; knows_stop = false }), seat.old.me.1) }
    {
        self.table
            .shared
            .compare_exchange::<EnterStop>(seat, ROLL, number, number + 1)
            == number
    }

    /// One more seat that has not entered.
    pub(crate) fn another(&self, seat: &mut Seat) -> Seat
        requires id { seat.old.table_id ≡ board_id self.now }
        requires new { seat.old.me.0 ≡ Entering self.now.size }
        ensures id { (seat.new.table_id ≡ seat.old.table_id)
            × (result.table_id ≡ seat.old.table_id) }
        ensures me { (seat.new.me ≡ seat.old.me) × (result.me ≡ (Entering self.now.size, [])) }
    {
        self.table.shared.split_seat::<Another>(seat)
    }
}
