//! Whole runs: the answers of many tables' jobs, with a thread for each worker.
ghost use Rattle.std.specs.Prelude.{◌≡◌, ◌≢◌, ◌↔◌, ◌⊎◌, Err, IfOk, IsTrue, length, vec_len};
ghost use Rattle.desk_run.specs.Runs.{IsRunnable, IsReady, AreValues};
ghost use Rattle.desk_run.specs.Started.{MayStart, IsStartRefused};

use crate::board::Board;
use crate::gate::{Gate, NoGate};
use crate::opening::in_range;
use crate::parts::BoardParts;
use crate::run_fault::RunFault;
use crate::running::TablesThread;
use crate::size::BoardSize;
use crate::start::{Always, Start, ask_all};
use crate::worker_thread::WorkerThread;
use desk_core::{Answer, LIMIT};
use riichi_hand::Job;
use std::alloc::{AllocError, Global};
use std::sync::Wait;
use std::thread;
use std::thread::Threads;

/// Whether a board for these lists of jobs is in range, and no table has more jobs than it may
/// submit.
fn is_runnable(jobs: &[Vec<Job>], workers: usize, places: u32) -> bool
    ensures { IsTrue result ↔ IsRunnable jobs.now workers places }
{
    let (Ok(tables), Ok(workers)) = (u32::try_from(jobs.len()), u32::try_from(workers)) else {
        return false;
    };
    let size = BoardSize {
        tables,
        workers,
        places,
    };
    in_range(size) && jobs.iter().all(|list| list.len() <= LIMIT as usize)
}

fn no_gates(alloc: Global, count: u32) -> Result<Vec<NoGate>, AllocError>
    ensures { IfOk result (λ gates. vec_len gates ≡ count) }
{
    vec![in alloc; NoGate; count as usize]
}

/// The answers of all tables' jobs, in order, by so many workers in threads of their own over a
/// board with so many places for each table. The calling thread plays all tables.
pub fn run_tables<R: Threads + Wait + Sync>(
    rt: &R,
    alloc: Global,
    jobs: &[Vec<Job>],
    workers: u32,
    places: u32,
) -> Result<Vec<Vec<Answer>>, RunFault>
    ensures range { (result ≡ Err RunFault.Range) ↔ (¬ IsRunnable jobs.now workers places) }
    ensures values { IfOk result (λ answers. AreValues jobs.now answers.items) }
{
    if !is_runnable(jobs, workers as usize, places) {
        return Err(RunFault::Range);
    }
    match no_gates(alloc, workers) {
        Ok(gates) => run_tables_with(rt, alloc, jobs, gates, places),
        Err(_) => Err(RunFault::Memory),
    }
}

/// `run_tables` with a worker for each gate.
pub fn run_tables_with<R: Threads + Wait + Sync, G: Gate + Send + Drop>(
    rt: &R,
    alloc: Global,
    jobs: &[Vec<Job>],
    gates: Vec<G>,
    places: u32,
) -> Result<Vec<Vec<Answer>>, RunFault>
    ensures range { (result ≡ Err RunFault.Range) ↔ (¬ IsRunnable jobs.now (vec_len gates) places) }
    ensures values { IfOk result (λ answers. AreValues jobs.now answers.items) }
{
    run_tables_started(rt, alloc, jobs, gates, places, &mut Always)
}

/// `run_tables_with` that asks for each worker, in the order of the gates, when there is memory for
/// all of them. Once it is refused it asks no further, and starts none.
pub fn run_tables_started<R: Threads + Wait + Sync, G: Gate + Send + Drop, S: Start>(
    rt: &R,
    alloc: Global,
    jobs: &[Vec<Job>],
    gates: Vec<G>,
    places: u32,
    start: &mut S,
) -> Result<Vec<Vec<Answer>>, RunFault>
    ensures range { (result ≡ Err RunFault.Range) ↔ (¬ IsRunnable jobs.now (vec_len gates) places) }
    ensures unasked { result ≡ Err RunFault.Range → start.new ≡ start.old }
    ensures memory { result ≡ Err RunFault.Memory
        → (start.new ≡ start.old) ⊎ MayStart S.asked (vec_len gates) start.old start.new }
    ensures thread { result ≡ Err RunFault.Thread
        → IsStartRefused S.asked (vec_len gates) start.old start.new
        ⊎ MayStart S.asked (vec_len gates) start.old start.new }
    ensures started { IfOk result (λ _. MayStart S.asked (vec_len gates) start.old start.new) }
    ensures values { IfOk result (λ answers. AreValues jobs.now answers.items) }
{
    if !is_runnable(jobs, gates.len(), places) {
        return Err(RunFault::Range);
    }
    let Ok(parts) = Board::new(alloc, jobs.len() as u32, gates.len() as u32, places) else {
        return Err(RunFault::Memory);
    };
    let BoardParts {
        board,
        tables,
        workers,
        stop,
    } = parts;
    let board = &board;
    let count = gates.len() as u32;
    let Ok(threads) = WorkerThread::all(alloc, board, workers, gates) else {
        return Err(RunFault::Memory);
    };
    if !ask_all(start, count) {
        return Err(RunFault::Thread);
    }
    let tables_thread = TablesThread {
        board,
        tables,
        stop,
    };
    thread::scope(
        thread::scope_env(),
        rt,
        move |scope| -> Result<Vec<Vec<Answer>>, RunFault>
            requires { IsReady tables_thread (length jobs.now) }
            ensures range { result ≢ Err RunFault.Range }
            ensures values { IfOk result (λ answers. AreValues jobs.entry.now answers.items) }
        { tables_thread.run(scope, rt, alloc, jobs, threads) },
    )
}
