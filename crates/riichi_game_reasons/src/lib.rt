//! Why the points of a game are what they are, in words: below a deal who pays whom, how much and why, and below the end of a game how
//! the final points are made.
//!
//! [`push_value`] says what a hand is worth. [`push_move`] says what one of the moves of an outcome is, as
//! `riichi_settle::moves_of` lists them: so what is told adds up to what is settled. [`end_reason`] says why a game is over, and
//! [`push_end_reason`] writes it. [`push_final_reasons`] writes who share the bonuses of which places, and the sum of each player's
//! final points.
//!
//! Each line begins with two spaces and is written without its end, of at most as many bytes as the constant beside it says. All of
//! these are plain values, and no call takes memory.
#![tactic(auto)]

mod end_words;
mod ends;
pub mod laws;
mod moved;
mod sums;
mod values;

pub use end_words::{MOST_END_REASON, push_end_reason};
pub use ends::{EndReason, end_reason};
pub use moved::{MOST_MOVE, push_move, unparted, win_of};
pub use sums::{MOST_FINAL_REASONS, push_final_reasons};
pub use values::{MOST_VALUE, push_value};
