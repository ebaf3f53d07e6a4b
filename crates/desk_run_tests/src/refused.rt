//! Runs of which one request for memory may be refused: each answers right, or names what was
//! refused.

use crate::common::waits_a;
use crate::facts::holds;
use crate::threads::are;
use desk_core::{Ticket, judge};
use desk_run::{Gate, RunFault, Start, run_tables, run_tables_started, run_tables_with};
use riichi_hand::Job;
use std::alloc::{AllocError, Global};
use std::process::Abort;
use std::sync::atomic::AtomicBool;
use std::sync::atomic::Ordering::SeqCst;
use std::test::Fail;

fn try_six(alloc: Global, job: &Job) -> Result<Vec<Job>, AllocError> {
    vec![in alloc; *job; 6]
}

/// A list of six jobs, where one request for memory may be refused.
fn six(rt: &impl Abort, alloc: Global, job: &Job) -> Vec<Job> {
    let made = match try_six(alloc, job) {
        Err(_) => try_six(alloc, job),
        made => made,
    };
    let Ok(jobs) = made else {
        panic!(rt; "no jobs")
    };
    jobs
}

/// A gate that notes that it was called.
#[derive(Clone, Copy, Drop)]
struct Noting<'f> {
    called: &'f AtomicBool,
}

impl<'f> Gate for Noting<'f> {
    fn before_finish(&mut self, _ticket: Ticket) {
        self.called.store(true, SeqCst);
    }
}

fn try_two<'f>(alloc: Global, gate: Noting<'f>) -> Result<Vec<Noting<'f>>, AllocError> {
    Ok(vec![in alloc; gate, gate]?)
}

/// Two gates, where one request for memory may be refused.
fn two<'f>(rt: &impl Abort, alloc: Global, called: &'f AtomicBool) -> Vec<Noting<'f>> {
    let gate = Noting { called };
    let made = match try_two(alloc, gate) {
        Err(_) => try_two(alloc, gate),
        made => made,
    };
    let Ok(gates) = made else {
        panic!(rt; "no gates")
    };
    gates
}

/// Lets each worker start, and counts the questions.
#[derive(Drop)]
struct Counting {
    asked: u32,
}

impl Start for Counting {
    fn start(&mut self, _worker: u32) -> bool {
        self.asked = self.asked.saturating_add(1);
        true
    }
}

#[test]
fn refused_in_run_tables(rt: HostRuntime) -> Result<(), Fail> {
    let a = waits_a(&rt);
    let jobs = [six(&rt, rt.alloc(), &a)];
    match run_tables(&rt, rt.alloc(), &jobs, 2, 1) {
        Ok(answers) => holds(&rt, are(&answers, &[&[judge(&a); 6]])),
        Err(fault) => holds(&rt, fault != RunFault::Range),
    }
    Ok(())
}

/// Want of memory while the tables play is not told as a thread that could not be started: by then
/// a gate was called.
#[test]
fn refused_in_run_tables_with(rt: HostRuntime) -> Result<(), Fail> {
    let a = waits_a(&rt);
    let jobs = [six(&rt, rt.alloc(), &a)];
    let called = AtomicBool::new(false);
    let gates = two(&rt, rt.alloc(), &called);
    match run_tables_with(&rt, rt.alloc(), &jobs, gates, 1) {
        Ok(answers) => holds(&rt, are(&answers, &[&[judge(&a); 6]])),
        Err(RunFault::Memory) => {}
        Err(RunFault::Thread) => holds(&rt, !called.load(SeqCst)),
        Err(RunFault::Range) => panic!(rt; "in range"),
    }
    Ok(())
}

/// A worker is asked for after all that the board wants, and before its thread.
#[test]
fn refused_in_run_tables_started(rt: HostRuntime) -> Result<(), Fail> {
    let a = waits_a(&rt);
    let jobs = [six(&rt, rt.alloc(), &a)];
    let called = AtomicBool::new(false);
    let gates = two(&rt, rt.alloc(), &called);
    let mut start = Counting { asked: 0 };
    match run_tables_started(&rt, rt.alloc(), &jobs, gates, 1, &mut start) {
        Ok(answers) => {
            holds(&rt, start.asked == 2 && called.load(SeqCst));
            holds(&rt, are(&answers, &[&[judge(&a); 6]]));
        }
        Err(RunFault::Memory) => holds(&rt, start.asked == 0 || start.asked == 2),
        Err(RunFault::Thread) => holds(&rt, start.asked > 0 && !called.load(SeqCst)),
        Err(RunFault::Range) => panic!(rt; "in range"),
    }
    Ok(())
}
