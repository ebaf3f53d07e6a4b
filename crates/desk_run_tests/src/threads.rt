//! Runs over threads.
use crate::common::{shape_b, waits_a};
use crate::facts::holds;
use desk_core::{Answer, Ticket, answer_text, judge};
use desk_run::{Gate, NoGate, RunFault, Start, run_tables, run_tables_started, run_tables_with};
use riichi_hand::Job;
use std::sync::atomic::Ordering::SeqCst;
use std::sync::atomic::{AtomicBool, AtomicU64};
use std::test::Fail;
use std::thread;

/// Whether the tables were answered so, list by list.
pub(crate) fn are(answers: &[Vec<Answer>], wanted: &[&[Answer]]) -> bool {
    answers.len() == wanted.len()
        && answers
            .iter()
            .zip(wanted)
            .all(|(given, list)| given.as_slice() == *list)
}

#[test]
fn answers_in_order_for_every_number_of_workers(rt: HostRuntime) -> Result<(), Fail> {
    let alloc = rt.alloc();
    let (a, b) = (waits_a(&rt), shape_b(&rt));
    let (first, second) = (judge(&a), judge(&b));
    holds(&rt, answer_text(&first).as_str() == "waits 123456789m");
    holds(
        &rt,
        answer_text(&second).as_str() == "shanten 0 accepts 2p:4 5p:4 live 8",
    );
    let jobs = [
        vec![in alloc; a, b, a]?,
        Vec::new(alloc),
        vec![in alloc; b]?,
    ];
    for (workers, places) in [(1, 1), (3, 4)] {
        match run_tables(&rt, alloc, &jobs, workers, places) {
            Ok(answers) => {
                holds(
                    &rt,
                    are(&answers, &[&[first, second, first], &[], &[second]]),
                );
            }
            Err(_) => panic!(rt; "no answers"),
        }
    }
    Ok(())
}

#[test]
fn runs_out_of_range(rt: HostRuntime) -> Result<(), Fail> {
    let alloc = rt.alloc();
    let a = waits_a(&rt);
    let one = [vec![in alloc; a]?];
    let many = [vec![in alloc; a; 1_000_001]?];
    let runs: [(&[Vec<Job>], u32, u32); 4] = [
        (&[], 1, 1),
        (&one, 0, 1),
        (&one, 1, 33),
        (&many, 1, 1),
    ];
    for (jobs, workers, places) in runs {
        let answers = run_tables(&rt, alloc, jobs, workers, places);
        holds(&rt, answers.is_err_and(|fault| fault == RunFault::Range));
    }
    Ok(())
}

/// A gate that counts its calls, and waits until the other job has come as far.
#[derive(Clone, Copy, Drop)]
struct Meeting<'f> {
    first: &'f AtomicBool,
    second: &'f AtomicBool,
    missed: &'f AtomicBool,
    calls: &'f AtomicU64,
}

impl<'f> Gate for Meeting<'f> {
    fn before_finish(&mut self, ticket: Ticket) {
        let _ = self.calls.fetch_add(1, SeqCst);
        let (own, other) = if ticket.seq == 0 {
            (self.first, self.second)
        } else {
            (self.second, self.first)
        };
        own.store(true, SeqCst);
        for _look in 0..1_000_000_000u32 {
            if other.load(SeqCst) {
                return;
            }
        }
        self.missed.store(true, SeqCst);
    }
}

#[test]
fn two_workers_meet(rt: HostRuntime) -> Result<(), Fail> {
    let alloc = rt.alloc();
    let (a, b) = (waits_a(&rt), shape_b(&rt));
    let (first, second, missed) = (
        AtomicBool::new(false),
        AtomicBool::new(false),
        AtomicBool::new(false),
    );
    let calls = AtomicU64::new(0);
    let gate = Meeting {
        first: &first,
        second: &second,
        missed: &missed,
        calls: &calls,
    };
    let jobs = [vec![in alloc; a, b]?];
    match run_tables_with(&rt, alloc, &jobs, vec![in alloc; gate, gate]?, 2) {
        Ok(answers) => holds(&rt, are(&answers, &[&[judge(&a), judge(&b)]])),
        Err(_) => panic!(rt; "no answers"),
    }
    holds(
        &rt,
        first.load(SeqCst) && second.load(SeqCst) && !missed.load(SeqCst),
    );
    holds(&rt, calls.load(SeqCst) == 2);
    Ok(())
}

/// A gate that waits until all workers are at theirs.
#[derive(Clone, Copy, Drop)]
struct Gathering<'f> {
    here: &'f AtomicU64,
    missed: &'f AtomicBool,
}

impl<'f> Gate for Gathering<'f> {
    fn before_finish(&mut self, _ticket: Ticket) {
        let _ = self.here.fetch_add(1, SeqCst);
        for _look in 0..1_000_000_000u32 {
            if self.here.load(SeqCst) >= 16 {
                return;
            }
            thread::yield_now();
        }
        self.missed.store(true, SeqCst);
    }
}

#[test]
fn sixteen_workers_gather(rt: HostRuntime) -> Result<(), Fail> {
    let alloc = rt.alloc();
    let a = waits_a(&rt);
    let (here, missed) = (AtomicU64::new(0), AtomicBool::new(false));
    let gate = Gathering {
        here: &here,
        missed: &missed,
    };
    let jobs = [vec![in alloc; a; 16]?];
    match run_tables_with(&rt, alloc, &jobs, vec![in alloc; gate; 16]?, 16) {
        Ok(answers) => holds(&rt, are(&answers, &[&[judge(&a); 16]])),
        Err(_) => panic!(rt; "no answers"),
    }
    holds(&rt, here.load(SeqCst) == 16 && !missed.load(SeqCst));
    Ok(())
}

/// Refuses the worker of this number, and counts how often it was asked.
#[derive(Drop)]
struct RefusedAt {
    worker: u32,
    asked: u32,
}

impl Start for RefusedAt {
    fn start(&mut self, worker: u32) -> bool {
        let in_turn = worker == self.asked;
        self.asked = self.asked.saturating_add(1);
        in_turn && worker != self.worker
    }
}

#[test]
fn a_worker_that_cannot_be_started(rt: HostRuntime) -> Result<(), Fail> {
    let alloc = rt.alloc();
    let (a, b) = (waits_a(&rt), shape_b(&rt));
    let jobs = [vec![in alloc; a, b]?];
    for worker in 0..4 {
        let mut start = RefusedAt { worker, asked: 0 };
        let gates = vec![in alloc; NoGate; 3]?;
        match run_tables_started(&rt, alloc, &jobs, gates, 2, &mut start) {
            Ok(answers) => {
                holds(&rt, worker == 3 && start.asked == 3);
                holds(&rt, are(&answers, &[&[judge(&a), judge(&b)]]));
            }
            Err(fault) => {
                holds(&rt, fault == RunFault::Thread && start.asked == worker + 1);
            }
        }
    }
    Ok(())
}
