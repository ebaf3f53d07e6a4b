//! What is said beside the answers to record lines: of a text, of a line, and of two lines that stand one after the other.
//!
//! An [`Opening`] sees by the first bytes of a text that it is none of record lines ([`Sign`]): one of games, or one that an
//! editor saved with a byte order mark or as UTF-16. [`meaning_of`] says what a refusal means, as `explain` does below the answer,
//! and [`WhyWords`] names the command that explains an answer. [`look_through`] finds the wins that are paid the counters and
//! sticks that the win before them was paid already ([`WinnersWords`]).
//!
//! No answer changes by any of it.
//!
//! ```text
//! riichi_desk: east.lines: line 5: this win and the one before it are by ron on the same tile, with the same counters and sticks..
//! ```
#![tactic(auto)]

mod looking;
mod meaning;
mod opening;
mod sign;
mod winners;

pub use looking::{Looked, look_through};
pub use meaning::{WhyWords, meaning_of};
pub use opening::Opening;
pub use sign::{Sign, SignWords};
pub use winners::WinnersWords;
