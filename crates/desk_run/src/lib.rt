//! The board that tables and workers share: many tables, many workers, and no lock. A table lays a
//! job at one of its places, some worker takes it, scores it and lays the piece back, and the table
//! fetches it. In any interleaving of their steps a job is at home in its place or with exactly one
//! seat, and what a table fetches is the piece for the ticket and the job that it laid there.
//!
//! A `Board` is made with its seats, which are tokens that can be sent to threads: `BoardParts` has
//! a `TableSeat` for each table, with the table's `Lane`, a `WorkerSeat` for each worker, and the
//! `StopSeat`. Each step of a seat is one atomic step on the board; no call waits. A `Gate` is called
//! between the score of a job and the step that marks it done.
//!
//! ```text
//! let BoardParts { board, mut tables, mut workers, .. } = Board::new(alloc, 1, 1, 8)?;
//! let (Some(mut table), Some(mut worker)) = (tables.pop(), workers.pop()) else { .. };
//! let mut cache = RowCache::new(alloc, 512)?;
//! let ticket = table.submit(&board, job)?;          // lays the job at a place
//! let _ = worker.work_once(&board, &mut NoGate, &mut cache);    // Worked::Did(ticket)
//! let _ = table.collect(&board);                    // 1
//! let _ = table.take();                             // Taken::Answer { seq: 0, answer: judge(&job) }
//! ```
#![tactic(auto)]

mod board;
mod content;
mod decided;
mod gate;
mod held;
mod lane_places;
mod making;
mod offer;
mod opening;
mod parts;
mod place_state;
mod player;
mod playing;
mod rule;
mod run_fault;
mod running;
mod runs;
mod size;
mod slot;
mod start;
mod steps;
mod stop_seat;
mod table_seat;
mod view;
mod worked;
mod worker_seat;
mod worker_thread;

pub use board::Board;
pub use gate::{Gate, NoGate};
pub use offer::{OfferBack, OfferFault};
pub use parts::{BoardFault, BoardParts};
pub use run_fault::RunFault;
pub use runs::{run_tables, run_tables_started, run_tables_with};
pub use start::Start;
pub use stop_seat::StopSeat;
pub use table_seat::TableSeat;
pub use worked::Worked;
pub use worker_seat::WorkerSeat;
