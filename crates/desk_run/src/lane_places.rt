ghost use Rattle.std.specs.Prelude.{◌≡◌, ◌≢◌, ◌↔◌, ◌≤◌, ◌<◌, ◌+◌, ◌∷◌, ◌++◌, [], true, false, Ok, IsTrue, IfOk, IfErr, OnErr, length, slice_set, replicate, vec_len, vec_capacity};
ghost use mathlib.Core.Option.{some};
ghost use lib.ListN.{get_elem?};
ghost use Rattle.desk_core.specs.LaneState.{new_lane, with_job, CanTakeBack, TakesBack};
ghost use Rattle.desk_core.specs.GivesFirst.{GivesFirst};
ghost use Rattle.desk_core.specs.Step.{IsStep};
ghost use Rattle.desk_core.specs.Replies.{withdraw_reply};
ghost use Rattle.desk_run.specs.LanePlaces.{Agrees, ticket, count_accepted, outs};
ghost use Rattle.desk_run.specs.Sitting.{Receives};
ghost use Rattle.desk_run.specs.Offers.{IsOfferFault, MayOffer};
ghost use Rattle.desk_core.specs.declared.event.Event.TheVariants.{Submit, Close, Take, Withdraw};
ghost use Rattle.desk_core.specs.declared.reply.Reply.TheVariants as reply;
ghost use Rattle.desk_run.specs.declared.place_state.PlaceState.TheVariants.{Vacant, Out};

use crate::offer::OfferFault;
use crate::place_state::PlaceState;
use desk_core::{Lane, Piece, Taken, Ticket};
use riichi_hand::Job;
use riichi_shape::Memory;
use std::alloc::{AllocError, Global};

/// What a table has of its own: its lane, the state of each of its places, and the vacant places,
/// whose content the seat has.
#[derive(Drop)]
pub struct LanePlaces {
    pub(crate) lane: Lane,
    pub(crate) states: Vec<PlaceState>,
    /// The seat has the contents of these places, in this order from the last one on.
    pub(crate) vacant: Vec<usize>,
    ghost room: { vec_len states ≤ vec_capacity vacant },
    ghost agrees: { Agrees lane states.items vacant.items },
}

impl LanePlaces {
    /// What a new table has of its own: all its places are vacant.
    pub(crate) fn opening(
        alloc: Global,
        table: u32,
        places: usize,
        vacant: Vec<usize>,
    ) -> Result<LanePlaces, AllocError>
        requires agrees { Agrees (new_lane table) (replicate places Vacant) vacant.items }
        requires room { places ≤ vec_capacity vacant }
        ensures lane { IfOk result (λ own. own.lane ≡ new_lane table) }
        ensures states { IfOk result (λ own. (own.states.items ≡ replicate places Vacant)
            × (own.vacant.items ≡ vacant.items)) }
    {
        let states = PlaceState::all_vacant(alloc, places)?;
        Ok(LanePlaces {
            lane: Lane::new(alloc, table),
            states,
            vacant,
        })
    }

    /// The place and the ticket of a new job.
    pub(crate) fn submit(&mut self, job: &Job) -> Result<(usize, Ticket), OfferFault>
        ensures ticket { IfOk result (λ r. r.1
            ≡ ticket self.old.lane.table (count_accepted self.old.lane)) }
        ensures lane { IfOk result (λ r. self.new.lane ≡ with_job self.old.lane job.now) }
        ensures step { IfOk result (λ r. IsStep self.old.lane (Submit self.old.lane.table job.now)
            (reply.Ticket r.1) self.new.lane) }
        ensures states { IfOk result (λ r. (get_elem? self.old.states.items r.0 ≡ some Vacant)
            × (self.new.states.items ≡ slice_set self.old.states.items r.0 (Out r.1 job.now))
            × (self.old.vacant.items ≡ self.new.vacant.items ++ r.0 ∷ [])) }
        ensures may { IfOk result (λ _. MayOffer self.old.lane self.old.states.items) }
        ensures fault { IfErr result
            (λ fault. IsOfferFault self.old.lane self.old.states.items fault) }
        ensures err { OnErr result ((self.new.lane ≡ self.old.lane)
            × (self.new.states.items ≡ self.old.states.items)
            × (self.new.vacant.items ≡ self.old.vacant.items)) }
    {
        if self.lane.closed() {
            return Err(OfferFault::Closed);
        }
        if self.lane.full() {
            return Err(OfferFault::Limit);
        }
        if self.vacant.is_empty() {
            return Err(OfferFault::NoPlace);
        }
        let ticket = match self.lane.submit(*job) {
            Ok(ticket) => ticket,
            Err(_) => return Err(OfferFault::Memory),
        };
        let offset = self.vacant.take_last();
        self.states[offset] = PlaceState::out(ticket, job);
        Ok((offset, ticket))
    }

    /// Whether some place is free for one more job.
    pub(crate) fn has_place(&self) -> bool
        ensures place { result ≡ true
            → outs self.now.states.items ≢ length self.now.states.items }
        ensures none { result ≡ false
            → outs self.now.states.items ≡ length self.now.states.items }
    {
        !self.vacant.is_empty()
    }

    /// Takes in the piece for the ticket that is out at the place. That of a withdrawn ticket is let
    /// go.
    pub(crate) fn receive(&mut self, offset: usize, piece: Piece)
        requires { get_elem? self.old.states.items offset ≡ some (Out piece.ticket piece.job) }
        ensures lane { Receives self.old.lane piece self.new.lane }
        ensures states { (self.new.states.items ≡ slice_set self.old.states.items offset Vacant)
            × (self.new.vacant.items ≡ self.old.vacant.items ++ offset ∷ []) }
    {
        self.lane.arrive(piece);
        self.states[offset] = PlaceState::Vacant;
        self.vacant.push_reserved(offset);
    }

    /// Gives the next answer where its piece has arrived.
    pub(crate) fn take(&mut self) -> Taken
        ensures step { IsStep self.old.lane (Take self.old.lane.table)
            (reply.Taken result) self.new.lane }
        ensures first { GivesFirst self.old.lane result self.new.lane }
        ensures states { (self.new.states.items ≡ self.old.states.items)
            × (self.new.vacant.items ≡ self.old.vacant.items) }
    {
        self.lane.take()
    }

    /// Takes the job of a ticket back.
    pub(crate) fn withdraw(&mut self, seq: u32) -> Result<bool, Memory>
        ensures step { IsStep self.old.lane (Withdraw (ticket self.old.lane.table seq))
            (withdraw_reply result) self.new.lane }
        ensures can { IfOk result (λ done. IsTrue done ↔ CanTakeBack self.old.lane seq) }
        ensures done { result ≡ Ok true → TakesBack self.old.lane seq self.new.lane }
        ensures not { result ≡ Ok false → self.new.lane ≡ self.old.lane }
        ensures err { OnErr result (self.new.lane ≡ self.old.lane) }
        ensures wanted { OnErr result (CanTakeBack self.old.lane seq) }
        ensures states { (self.new.states.items ≡ self.old.states.items)
            × (self.new.vacant.items ≡ self.old.vacant.items) }
    {
        self.lane.withdraw(seq)
    }

    /// Closes the table to further jobs: true the first time.
    pub(crate) fn close(&mut self) -> bool
        ensures step { IsStep self.old.lane (Close self.old.lane.table)
            (reply.Closed result) self.new.lane }
        ensures closed { self.new.lane ≡ record self.old.lane { closed = true } }
        ensures states { (self.new.states.items ≡ self.old.states.items)
            × (self.new.vacant.items ≡ self.old.vacant.items) }
    {
        self.lane.close()
    }
}
