//! The script of a desk: commands of tables in, the answer to each out.
//!
//! A [`Script`] reads one line at a time. A line is no command, or it is answered at once with the reason of its
//! refusal or the number of a new table, or it asks the desk for something: to take a job, a piece or a closing, or
//! to give the next answer. Its answer is a [`Told`], and `told_text` is the text of that.
//!
//! Inside, `read_command` reads the words of a line, `Names` numbers the tables in the order in which they
//! were opened, and `ask` joins the two: what a line asks, after the names that are open. The desk itself is
//! a `desk_core::DeskCore` of 64 tables.
//!
//! ```text
//! let mut script = Script::new(alloc)?;
//! script.answer(b"open east")?;                           // `table 0`
//! script.answer(b"submit east waits 1112345678999m")?;    // `ticket 0`
//! script.answer(b"fly")?;                                 // `refused P1`
//! ```
#![tactic(auto)]

mod action;
mod asking;
mod command;
mod decided;
pub mod laws;
mod line_request;
mod names;
mod refusal;
mod script;
mod seq;
mod text;
mod told;
mod words;

pub use refusal::Refusal;
pub use script::Script;
pub use text::{LONGEST, told_text};
pub use told::Told;
