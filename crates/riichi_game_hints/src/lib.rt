//! What a refused line of a game may have been meant to be.
//!
//! [`push_game_hint`] writes the lines that stand below the answer to a refused line: what is wrong, in words; behind `here` what is
//! guessed, where something is; and a line to try, or how such a line is written. The words of the line are read loosely by
//! `riichi_game_drafts`. Its line is shown as one to try only where `riichi_game_text::read_entry` accepts it in the state of the game.
//! Where nothing is guessed, it stands behind `try:` and has the numbers and the players of the refused line; else it stands behind
//! `guess:`. [`push_begin_hint`] does so where no game has a state.
//!
//! All of these are plain values, and no call takes memory.
//!
//! ```text
//! refused G5
//!   Bob is no player: Bo?
//!   here Bob is read as Bo.
//!   guess: ron Bo from Cyd 1.30
//! ```
#![tactic(auto)]

mod begin;
mod hint;
mod keeping;
mod line;
mod payment;
mod reason;
mod sums;

pub use begin::{MOST_BEGIN_HINT, push_begin_hint};
pub use hint::{MOST_GAME_HINT, push_game_hint};
