ghost use Rattle.std.specs.Prelude.{◌≡◌, ◌≢◌, ◌↔◌, ℕ, ◌<◌, ◌+◌, List, length, Ok, [], true, false, IsTrue, IfOk, IfErr, OnOk, OnErr};

use crate::arrived::Arrived;
use crate::entry::Entry;
use crate::event::Event;
use crate::piece::Piece;
use crate::refusal::{SubmitBack, SubmitFault};
use crate::reply::Reply;
use crate::taken::Taken;
use crate::ticket::Ticket;
use riichi_hand::Job;
use riichi_shape::Memory;
use std::alloc::Global;
use std::collections::{BTreeSet, VecDeque};
use std::marker::Model;
use std::mem::replace;

/// How many jobs a table may submit, those given and withdrawn included.
pub const LIMIT: u32 = 1_000_000;

/// One table: its jobs from the first one that was neither given nor withdrawn.
#[derive(Drop)]
pub struct Lane {
    table: u32,
    next: u32,
    window: VecDeque<Entry>,
    withdrawn: BTreeSet<u32, Global>,
    closed: bool,
}

impl Model for Lane {
    ghost use Rattle.std.specs.Prelude.{◌+◌, ◌≤◌, length, map};
    ghost use Rattle.desk_core.specs.LaneState.{LaneState};

    ghost Value = { LaneState };

    ghost use Rattle.desk_core.specs.Entry.{job_with_arrival};

    ghost view = { λ l. record { table = l.table; next = l.next; window = map job_with_arrival l.window.items; withdrawn = l.withdrawn.keys; closed = l.closed } };

    ghost invariant = { λ l. l.next + length l.window.items ≤ 1000000 };
}

impl Lane {
    ghost use Rattle.desk_core.specs.History.{Turn, table_of, turns_of, submitted, has_closed};
    ghost use Rattle.desk_core.specs.Step.{IsStep, StandsFor};
    ghost use Rattle.desk_core.specs.LaneState.{new_lane, with_job, AcceptsJob, RefusesJob, is_among, TakesInPiece, PassesWithdrawn, CanTakeBack, TakesBack, Awaits};
    ghost use Rattle.desk_core.specs.GivesFirst.{GivesFirst};
    ghost use Rattle.desk_core.specs.Replies.{submit_reply, withdraw_reply};
    ghost use Rattle.desk_core.specs.declared.refusal.SubmitFault.{SubmitFault};

    /// A table with no jobs. It takes no memory.
    pub fn new(alloc: Global, table: u32) -> Lane
        ensures empty { result ≡ new_lane table }
        ensures stands { (tables : ℕ) → table < tables → StandsFor result tables [] }
    {
        Lane {
            table,
            next: 0,
            window: VecDeque::new(alloc),
            withdrawn: BTreeSet::new(alloc),
            closed: false,
        }
    }

    /// The table's number.
    pub fn table(&self) -> u32
        ensures { result ≡ self.now.table }
    {
        self.table
    }

    /// Whether the table has closed, so that a job is refused by C1.
    pub fn closed(&self) -> bool
        ensures value { result ≡ self.now.closed }
        ensures told { (tables : ℕ) (history : List Turn) → StandsFor self.now tables history
            → result ≡ has_closed (turns_of self.now.table history) }
    {
        self.closed
    }

    /// Whether the table has submitted as many jobs as it may, so that a job is refused by C2.
    pub fn full(&self) -> bool
        ensures value { IsTrue result ↔ (self.now.next + length self.now.window ≡ LIMIT) }
        ensures submitted { (tables : ℕ) (history : List Turn) → StandsFor self.now tables history
            → IsTrue result ↔ (length (submitted (turns_of self.now.table history)) ≡ LIMIT) }
    {
        self.next as usize + self.window.len() == LIMIT as usize
    }

    /// Submits a job, and makes the room for its answer. Tickets are numbered from 0 without gaps.
    pub fn submit(&mut self, job: Job) -> Result<Ticket, SubmitBack>
        ensures step { IsStep self.old (Event.Submit self.old.table job)
            (submit_reply result) self.new }
        ensures back { IfErr result (λ back. back.job ≡ job) }
        ensures fault { IfErr result (λ back. RefusesJob self.old back.fault) }
        ensures accepts { OnOk result (AcceptsJob self.old) }
        ensures err { OnErr result (self.new ≡ self.old) }
        ensures ok { OnOk result (self.new ≡ with_job self.old job) }
        ensures ticket { IfOk result (λ ticket. ticket
            ≡ record { table = self.old.table; seq = self.old.next + length self.old.window }) }
    {
        if self.closed {
            return Err(SubmitBack {
                fault: SubmitFault::Closed,
                job,
            });
        }
        if self.full() {
            return Err(SubmitBack {
                fault: SubmitFault::Limit,
                job,
            });
        }
        let seq = self.next + self.window.len() as u32;
        match self.window.push_back(Entry::waiting(&job)) {
            Ok(()) => Ok(Ticket {
                table: self.table,
                seq,
            }),
            Err(_) => Err(SubmitBack {
                fault: SubmitFault::Memory,
                job,
            }),
        }
    }

    /// Takes in a piece: a stranger where its ticket is another table's or was not given out,
    /// withdrawn where the ticket was, doubled where a piece was accepted for it, whatever job this
    /// one carries, a stranger where another job was submitted under it, and else accepted. It takes
    /// no memory.
    #[tactic(auto, using(crate::proofs::Lists::not_lt, crate::proofs::Steps::arrive_facts))]
    pub fn arrive(&mut self, piece: Piece) -> Arrived
        ensures step { piece.ticket.table ≡ self.old.table
            → IsStep self.old (Event.Arrive piece) (Reply.Arrived result) self.new }
        ensures other_table { piece.ticket.table ≢ self.old.table → result ≡ Arrived.Stranger }
        ensures accepted { result ≡ Arrived.Accepted → TakesInPiece self.old piece self.new }
        ensures awaited { Awaits self.old piece → result ≡ Arrived.Accepted }
        ensures withdrawn { piece.ticket.table ≡ self.old.table
            → (result ≡ Arrived.Withdrawn) ↔ (is_among self.old.withdrawn piece.ticket.seq ≡ true) }
        ensures kept { result ≢ Arrived.Accepted → self.new ≡ self.old }
    {
        let ticket = piece.ticket();
        if ticket.table != self.table {
            return Arrived::Stranger;
        }
        if self.is_withdrawn(ticket.seq) {
            return Arrived::Withdrawn;
        }
        if ticket.seq < self.next {
            return Arrived::Doubled;
        }
        let place = (ticket.seq - self.next) as usize;
        match self.window.get_mut(place) {
            None => Arrived::Stranger,
            Some(entry) => entry.arrive(piece),
        }
    }

    /// Closes the table to further jobs: true the first time.
    pub fn close(&mut self) -> bool
        ensures step { IsStep self.old (Event.Close self.old.table) (Reply.Closed result) self.new }
        ensures closed { self.new ≡ record self.old { closed = true } }
    {
        !replace(&mut self.closed, true)
    }

    /// Gives the next answer where its piece has arrived, and forgets the job. It takes no memory.
    pub fn take(&mut self) -> Taken
        ensures step { IsStep self.old (Event.Take self.old.table) (Reply.Taken result) self.new }
        ensures first { GivesFirst self.old result self.new }
    {
        match self.window.front() {
            Some(Entry::Scored(piece)) => {
                let answer = piece.answer();
                let seq = self.next;
                let _ = self.window.pop_front();
                self.next += 1;
                self.pass_withdrawn();
                Taken::Answer { seq, answer }
            }
            Some(Entry::Waiting(_)) => Taken::Waiting,
            None if self.closed => Taken::Finished,
            None => Taken::Waiting,
        }
    }

    /// Takes the job of a ticket back: true where the ticket was given out, its answer was not
    /// given and it was not withdrawn before. It may come after closing. A piece that arrives for
    /// the ticket from then on is answered `Withdrawn`. Memory is taken where the answer is true.
    pub fn withdraw(&mut self, seq: u32) -> Result<bool, Memory>
        ensures step { IsStep self.old (Event.Withdraw
            (record { table = self.old.table; seq = seq })) (withdraw_reply result) self.new }
        ensures can { IfOk result (λ done. IsTrue done ↔ CanTakeBack self.old seq) }
        ensures done { result ≡ Ok true → TakesBack self.old seq self.new }
        ensures not { result ≡ Ok false → self.new ≡ self.old }
        ensures err { OnErr result (self.new ≡ self.old) }
        ensures wanted { OnErr result (CanTakeBack self.old seq) }
    {
        let submitted = self.next as usize + self.window.len();
        if seq < self.next || submitted <= seq as usize {
            return Ok(false);
        }
        match self.withdrawn.insert(seq) {
            Ok(true) => {
                self.pass_withdrawn();
                Ok(true)
            }
            Ok(false) => Ok(false),
            Err(_) => Err(Memory),
        }
    }

    /// Whether the ticket of this number was withdrawn.
    #[tactic(auto, using(crate::proofs::Passing::among_contains))]
    fn is_withdrawn(&self, seq: u32) -> bool
        ensures { result ≡ is_among self.now.withdrawn seq }
    {
        self.withdrawn.contains(&seq)
    }

    /// Drops the withdrawn jobs at the front of the window.
    fn pass_withdrawn(&mut self)
        ensures { PassesWithdrawn self.old self.new }
    {
        while !self.window.is_empty() && self.is_withdrawn(self.next) {
            let _passed = self.window.pop_front();
            self.next += 1;
        }
    }

    /// What an event of this table does and replies.
    pub(crate) fn serve(&mut self, event: Event) -> Reply
        ensures step { table_of event ≡ self.old.table → IsStep self.old event result self.new }
        ensures table { self.new.table ≡ self.old.table }
        ensures known { result ≢ Reply.NoTable }
        ensures refused { (fault : SubmitFault) → result ≡ Reply.Refused fault
            → self.new ≡ self.old }
    {
        match event {
            Event::Submit { job, .. } => match self.submit(job) {
                Ok(ticket) => Reply::Ticket(ticket),
                Err(back) => Reply::Refused(back.fault),
            },
            Event::Arrive(piece) => Reply::Arrived(self.arrive(piece)),
            Event::Close { .. } => Reply::Closed(self.close()),
            Event::Take { .. } => Reply::Taken(self.take()),
            Event::Withdraw(ticket) => match self.withdraw(ticket.seq) {
                Ok(withdrawn) => Reply::Withdrawn(withdrawn),
                Err(Memory) => Reply::Refused(SubmitFault::Memory),
            },
        }
    }
}
