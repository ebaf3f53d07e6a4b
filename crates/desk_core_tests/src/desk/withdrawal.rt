//! Hands that are taken back.

use super::{FIRST, QUICK, SHAPE, WAITS, a_desk, a_lane_with, job};
use crate::facts::holds;
use desk_core::{Arrived, Event, Lane, Piece, Reply, SubmitFault, Taken, Ticket, judge};
use riichi_hand::Job;
use riichi_shape::Memory;
use std::alloc::Global;
use std::io::Print;
use std::process::Abort;

/// The ticket of table 0 with this number.
fn ticket(seq: u32) -> Ticket {
    Ticket { table: 0, seq }
}

/// A table's submission.
fn submission(job: &Job) -> Event {
    Event::Submit {
        table: 0,
        job: *job,
    }
}

/// The arrival of a job's piece.
fn arrival(job: &Job) -> Event {
    Event::Arrive(Piece::score(FIRST, *job))
}

/// Submits a job; where memory is refused, the second try has it.
fn submits(lane: &mut Lane, job: &Job) -> Option<Ticket> {
    match lane.submit(*job) {
        Ok(ticket) => Some(ticket),
        Err(_) => lane.submit(*job).ok(),
    }
}

/// A lane of table 0 with these jobs.
fn a_lane_of(alloc: Global, first: &Job, second: &Job, third: &Job) -> Option<Lane> {
    let mut lane = Lane::new(alloc, 0);
    let _ = submits(&mut lane, first)?;
    let _ = submits(&mut lane, second)?;
    let _ = submits(&mut lane, third)?;
    Some(lane)
}

/// What becomes of the piece of a job.
fn arrives(lane: &mut Lane, seq: u32, job: &Job) -> Arrived {
    lane.arrive(Piece::score(ticket(seq), *job))
}

/// Withdraws a ticket; where memory is refused nothing was changed, and the second try has it.
fn withdraws(lane: &mut Lane, seq: u32) -> Result<bool, Memory> {
    match lane.withdraw(seq) {
        Err(Memory) => lane.withdraw(seq),
        done => done,
    }
}

#[test]
fn the_day_of_a_table_that_takes_hands_back(rt: HostRuntime) {
    let (Some(a), Some(b)) = (job(WAITS), job(SHAPE)) else {
        holds(&rt, false);
        return;
    };
    let Some(mut lane) = a_lane_of(rt.alloc(), &a, &b, &a) else {
        holds(&rt, false);
        return;
    };
    holds(&rt, withdraws(&mut lane, 0) == Ok(true));
    holds(&rt, lane.withdraw(0) == Ok(false));
    holds(&rt, lane.withdraw(3) == Ok(false));
    holds(&rt, arrives(&mut lane, 0, &b) == Arrived::Withdrawn);
    holds(&rt, lane.take() == Taken::Waiting);
    holds(&rt, arrives(&mut lane, 1, &b) == Arrived::Accepted);
    let answer = judge(&b);
    holds(&rt, lane.take() == Taken::Answer { seq: 1, answer });
    holds(&rt, lane.withdraw(1) == Ok(false));
    holds(&rt, arrives(&mut lane, 2, &a) == Arrived::Accepted);
    holds(&rt, lane.close());
    holds(&rt, withdraws(&mut lane, 2) == Ok(true));
    holds(&rt, arrives(&mut lane, 2, &a) == Arrived::Withdrawn);
    holds(&rt, lane.take() == Taken::Finished);
}

#[test]
fn all_hands_taken_back_in_any_order(rt: HostRuntime) {
    let Some(job) = job(QUICK) else {
        holds(&rt, false);
        return;
    };
    for order in ORDERS {
        let Some(mut lane) = a_lane_of(rt.alloc(), &job, &job, &job) else {
            holds(&rt, false);
            return;
        };
        for seq in order {
            holds(&rt, lane.take() == Taken::Waiting);
            holds(&rt, withdraws(&mut lane, seq) == Ok(true));
        }
        holds(&rt, lane.take() == Taken::Waiting);
        // A hand that was taken back keeps its number.
        holds(&rt, submits(&mut lane, &job) == Some(ticket(3)));
        holds(&rt, withdraws(&mut lane, 3) == Ok(true));
        holds(&rt, lane.close());
        holds(&rt, lane.take() == Taken::Finished);
    }
}

/// The orders in which three pieces may arrive.
const ORDERS: [[u32; 3]; 6] = [
    [0, 1, 2],
    [0, 2, 1],
    [1, 0, 2],
    [1, 2, 0],
    [2, 0, 1],
    [2, 1, 0],
];

/// Which of three tickets have arrived, were withdrawn and were given, as the rules of a desk tell it.
#[derive(Drop)]
struct Tickets {
    arrived: [bool; 3],
    withdrawn: [bool; 3],
    given: [bool; 3],
}

/// Whether a ticket is marked.
fn has(marks: &[bool; 3], seq: u32) -> bool {
    matches!(marks.get(seq as usize), Some(true))
}

/// Marks a ticket.
fn mark(marks: &mut [bool; 3], seq: u32) {
    if let Some(place) = marks.get_mut(seq as usize) {
        *place = true;
    }
}

impl Tickets {
    /// The least ticket that was neither given nor withdrawn.
    fn next(&self) -> Option<u32> {
        (0..3).find(|seq| !has(&self.given, *seq) && !has(&self.withdrawn, *seq))
    }

    /// What the next taking gives: a ticket that has arrived.
    fn taken(&self) -> Option<u32> {
        let next = self.next()?;
        if has(&self.arrived, next) {
            Some(next)
        } else {
            None
        }
    }
}

/// Takes what the rules let a table take, and compares each answer.
fn take_all(rt: &(impl Abort + Print), lane: &mut Lane, jobs: &[Job; 3], tickets: &mut Tickets) {
    for _ in 0..4 {
        let Some(seq) = tickets.taken() else {
            holds(rt, lane.take() == Taken::Waiting);
            return;
        };
        let Some(job) = jobs.get(seq as usize) else {
            holds(rt, false);
            return;
        };
        let answer = judge(job);
        holds(rt, lane.take() == Taken::Answer { seq, answer });
        mark(&mut tickets.given, seq);
    }
}

/// A piece arrives, and what became of it is compared.
fn arrive_one(
    rt: &(impl Abort + Print),
    lane: &mut Lane,
    jobs: &[Job; 3],
    tickets: &mut Tickets,
    seq: u32,
) {
    let Some(job) = jobs.get(seq as usize) else {
        holds(rt, false);
        return;
    };
    let wanted = if has(&tickets.withdrawn, seq) {
        Arrived::Withdrawn
    } else {
        Arrived::Accepted
    };
    holds(rt, arrives(lane, seq, job) == wanted);
    mark(&mut tickets.arrived, seq);
}

/// Withdraws a ticket, and compares whether it could be.
fn withdraw_one(rt: &(impl Abort + Print), lane: &mut Lane, tickets: &mut Tickets, seq: u32) {
    let wanted = !has(&tickets.given, seq) && !has(&tickets.withdrawn, seq);
    holds(rt, withdraws(lane, seq) == Ok(wanted));
    holds(rt, lane.withdraw(seq) == Ok(false));
    if wanted {
        mark(&mut tickets.withdrawn, seq);
    }
}

#[test]
fn a_hand_taken_back_between_arrivals(rt: HostRuntime) {
    let (Some(first), Some(second), Some(third)) = (
        job(WAITS),
        job(b"waits 123456789m1134p"),
        job(b"waits 123456789m1122z"),
    ) else {
        holds(&rt, false);
        return;
    };
    let jobs = [first, second, third];
    for order in ORDERS {
        for seq in 0..3 {
            for place in 0..4 {
                let Some(mut lane) = a_lane_of(rt.alloc(), &first, &second, &third) else {
                    holds(&rt, false);
                    return;
                };
                let mut tickets = Tickets {
                    arrived: [false; 3],
                    withdrawn: [false; 3],
                    given: [false; 3],
                };
                for (turn, arriving) in order.iter().enumerate() {
                    if turn == place {
                        withdraw_one(&rt, &mut lane, &mut tickets, seq);
                    }
                    arrive_one(&rt, &mut lane, &jobs, &mut tickets, *arriving);
                    take_all(&rt, &mut lane, &jobs, &mut tickets);
                }
                if place == 3 {
                    withdraw_one(&rt, &mut lane, &mut tickets, seq);
                }
                holds(&rt, lane.close());
                holds(&rt, lane.take() == Taken::Finished);
            }
        }
    }
}

#[test]
fn a_desk_takes_hands_back(rt: HostRuntime) {
    let (Some(job), Some(mut desk)) = (job(QUICK), a_desk(rt.alloc(), 1)) else {
        holds(&rt, false);
        return;
    };
    let strange = Ticket { table: 1, seq: 0 };
    holds(&rt, desk.step(Event::Withdraw(strange)) == Reply::NoTable);
    holds(
        &rt,
        desk.step(Event::Withdraw(FIRST)) == Reply::Withdrawn(false),
    );
    let refused = Reply::Refused(SubmitFault::Memory);
    if desk.step(submission(&job)) == refused {
        holds(&rt, desk.step(submission(&job)) == Reply::Ticket(FIRST));
    }
    if desk.step(Event::Withdraw(FIRST)) == refused {
        holds(
            &rt,
            desk.step(Event::Withdraw(FIRST)) == Reply::Withdrawn(true),
        );
    }
    holds(
        &rt,
        desk.step(Event::Withdraw(FIRST)) == Reply::Withdrawn(false),
    );
    holds(
        &rt,
        desk.step(arrival(&job)) == Reply::Arrived(Arrived::Withdrawn),
    );
}

#[test]
fn nothing_changes_where_memory_is_refused(rt: HostRuntime) {
    let Some(job) = job(QUICK) else {
        holds(&rt, false);
        return;
    };
    let Some(mut lane) = a_lane_with(rt.alloc(), &job) else {
        holds(&rt, false);
        return;
    };
    if lane.withdraw(0) == Err(Memory) {
        // The ticket waits for its piece as before, and is withdrawn at the next try.
        holds(&rt, arrives(&mut lane, 0, &job) == Arrived::Accepted);
        holds(&rt, lane.withdraw(0) == Ok(true));
    }
    holds(&rt, arrives(&mut lane, 0, &job) == Arrived::Withdrawn);
    holds(&rt, lane.take() == Taken::Waiting);
}
