ghost use Rattle.std.specs.Prelude.{◌≡◌, ◌↔◌, ◌⊎◌, ℕ, ◌<◌, ◌≤◌, ◌+◌, [], ◌∷◌, ◌++◌, length, List, vec_capacity, IfSome, IfOk, IfErr, OnErr};
ghost use Rattle.std.specs.List.{zip};
ghost use Rattle.desk_core.specs.LaneState.{IsNewDesk};

use crate::event::Event;
use crate::lane::Lane;
use crate::refusal::{CoreFault, RunBack};
use crate::reply::Reply;
use std::alloc::Global;
use std::marker::Model;

/// The tables of a desk, numbered from 0, seen as the list of their lanes.
#[derive(Drop)]
pub struct DeskCore {
    alloc: Global,
    lanes: Vec<Lane>,
}

impl Model for DeskCore {
    ghost use Rattle.std.specs.Prelude.{List};
    ghost use Rattle.desk_core.specs.LaneState.{LaneState};

    ghost Value = { List LaneState };

    ghost view = { λ d. d.lanes.items };
}

impl DeskCore {
    ghost use Rattle.desk_core.specs.History.{Turn, table_of};
    ghost use Rattle.desk_core.specs.declared.refusal.SubmitFault.{SubmitFault};
    ghost use Rattle.desk_core.specs.Desk.{DeskStandsFor, IsDeskRun, KeepsItsPromise};

    /// A desk of 1 to 64 tables with no jobs.
    pub fn new(alloc: Global, tables: u32) -> Result<DeskCore, CoreFault>
        ensures count { IfOk result (λ core. length core ≡ tables) }
        ensures stands { IfOk result (λ core. DeskStandsFor core []) }
        ensures tables { (result ≡ Err CoreFault.Tables) ↔ ((tables ≡ 0) ⊎ (64 < tables)) }
    {
        if tables == 0 || tables > 64 {
            return Err(CoreFault::Tables);
        }
        match new_lanes(alloc, tables) {
            Some(lanes) => Ok(DeskCore { alloc, lanes }),
            None => Err(CoreFault::Memory),
        }
    }

    /// Does an event and returns its reply. Only a submission and a withdrawal take memory.
    pub fn step(&mut self, event: Event) -> Reply
        ensures step { IsDeskRun self.old ((event, result) ∷ []) self.new }
        ensures tables { length self.new ≡ length self.old }
        ensures unknown { (result ≡ Reply.NoTable) ↔ (length self.old ≤ table_of event) }
        ensures no_table { result ≡ Reply.NoTable → self.new ≡ self.old }
        ensures refused { (fault : SubmitFault) → result ≡ Reply.Refused fault
            → self.new ≡ self.old }
    {
        match self.lanes.get_mut(event.table() as usize) {
            None => Reply::NoTable,
            Some(lane) => lane.serve(event),
        }
    }

    /// The replies of `step` to the events in order. Where their room is refused nothing was done,
    /// and the events come back.
    #[tactic(auto, using(crate::proofs::Promise::KeepsItsPromise_IsLegal))]
    pub fn run(&mut self, events: Vec<Event>) -> Result<Vec<Reply>, RunBack>
        ensures count { IfOk result (λ replies. length replies.items ≡ length events.items) }
        ensures stands { IfOk result (λ replies. IsDeskRun self.old
            (zip events.items replies.items) self.new) }
        ensures promise { IfOk result (λ replies. (history : List Turn)
            → DeskStandsFor self.old history
            → KeepsItsPromise (length self.old) (history ++ zip events.items replies.items)) }
        ensures tables { length self.new ≡ length self.old }
        ensures back { IfErr result (λ back. back.events.items ≡ events.items) }
        ensures err { OnErr result (self.new ≡ self.old) }
    {
        let mut replies = match Vec::with_capacity(self.alloc, events.len()) {
            Ok(replies) => replies,
            Err(_) => return Err(RunBack { events }),
        };
        self.run_all(events, &mut replies);
        Ok(replies)
    }

    fn run_all(&mut self, events: Vec<Event>, replies: &mut Vec<Reply>)
        requires empty { replies.old.items ≡ [] }
        requires room { length events.items ≤ vec_capacity replies.old }
        ensures count { length replies.new.items ≡ length events.items }
        ensures run { IsDeskRun self.old (zip events.items replies.new.items) self.new }
        ensures tables { length self.new ≡ length self.old }
    {
        for event in events {
            let reply = self.step(event);
            add_reply(replies, reply);
        }
    }
}

fn new_lanes(alloc: Global, tables: u32) -> Option<Vec<Lane>>
    ensures { IfSome result (λ lanes. IsNewDesk tables lanes.items) }
{
    let mut lanes = Vec::new(alloc);
    for table in 0..tables {
        if lanes.push(Lane::new(alloc, table)).is_err() {
            return None;
        }
    }
    Some(lanes)
}

fn add_reply(replies: &mut Vec<Reply>, reply: Reply)
    requires room { length replies.old.items < vec_capacity replies.old }
    ensures items { replies.new.items ≡ replies.old.items ++ reply ∷ [] }
    ensures capacity { vec_capacity replies.new ≡ vec_capacity replies.old }
{
    // The checker can't follow an enum within an enum into a `Vec` but by its variant.
    match reply {
        Reply::Taken(taken) => replies.push_reserved(Reply::Taken(taken)),
        other => replies.push_reserved(other),
    }
}
