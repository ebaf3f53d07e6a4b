//! The core of a scoring desk. Tables submit jobs, pieces arrive with the answers of jobs in any
//! order, and each table is given the answers of its own jobs in the order in which it submitted
//! them, each once.
//!
//! A `Lane` is one table: `submit` gives a `Ticket` for a `Job`, `arrive` takes in a `Piece`, which
//! is a ticket, a job and by its type the job's `Answer`, and `take` gives the next answer where its
//! piece is there. A `DeskCore` is the lanes of all tables; `step` does one `Event` and returns its
//! `Reply`, and `run` does a list of them. Its contract carries the promise of the desk. `is_ready` says of a hand what its
//! shanten and its waits agree on.
//!
//! ```text
//! let mut lane = Lane::new(alloc, 0);
//! let Ok(ticket) = lane.submit(job) else { return };
//! let _ = lane.arrive(Piece::score(ticket, job));  // Arrived::Accepted
//! let _ = lane.take();                             // Taken::Answer { seq: 0, answer: judge(&job) }
//! ```
#![tactic(auto)]

mod answer;
mod arrived;
mod decided;
mod desk;
mod entry;
mod event;
mod judging;
mod lane;
pub mod laws;
mod piece;
mod ready;
mod refusal;
mod reply;
mod taken;
mod text;
mod ticket;

pub use answer::Answer;
pub use arrived::Arrived;
pub use desk::DeskCore;
pub use event::Event;
pub use judging::{judge, judge_with};
pub use lane::{LIMIT, Lane};
pub use piece::Piece;
pub use ready::is_ready;
pub use refusal::{CoreFault, RunBack, SubmitBack, SubmitFault};
pub use reply::Reply;
pub use taken::Taken;
pub use text::{answer_text, push_answer};
pub use ticket::Ticket;
