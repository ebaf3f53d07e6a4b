//! Many wins as arrays, without any text.
//!
//! A [`WinRow`] is a win as 64 bytes, a [`ScoreRow`] what is told of it in 32: C sees both as they lie. [`wins`] answers as many
//! rows as both of its arrays have. A row that is no record of a win says so by its `told`, and the others are answered all the
//! same. No call takes memory.
#![tactic(auto)]

mod indicators;
mod score_row;
mod told;
mod win_row;

pub use score_row::{Paid, ScoreRow, fault_number, paid_by};
pub use told::wins;
pub use win_row::{WinRow, by_in, wind_in};
