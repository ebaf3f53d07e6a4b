//! A game as a sheet: rows of columns, to be printed, read and signed by people.
//!
//! Each call whose name begins with `push` writes rows behind a text, with line feeds between them and none behind the last.
//! [`push_begun`] begins a sheet by the names of the four, [`push_outcome`] tells an outcome, [`push_stands`] the state of a game,
//! and [`push_over`] its end, with a line for each player to sign.
//!
//! A row is 80 columns wide: 9 for its label, 23 for what is told and 12 for each player. A text fills its columns by its width on a
//! terminal, which the crate `unicode_width` knows; what is wider is cut, with an ellipsis at its end. Each text has at most as many
//! bytes as the constant beside its call says. No call takes memory.
//!
//! ```text
//! deal     session 1                      Anna          Bo         Cyd         Dee
//! start    table 3                       30000       30000       30000       30000
//! E1       ron Bo                            0       +1000       -1000           0
//!          from Cyd                      30000       31000       29000       30000
//! ```
#![tactic(auto)]

mod begun;
mod cells;
mod deals;
mod ends;
pub mod laws;
mod rows;

pub use begun::{MOST_BEGUN, push_begun};
pub use deals::{MOST_OUTCOME, MOST_STANDS, push_outcome, push_stands};
pub use ends::{MOST_OVER, push_over};
