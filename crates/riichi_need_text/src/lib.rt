//! What a player needs for a place, as text.
//!
//! [`needs_text`] says who asks for which place, and for each way of winning the least payment with which the player has the place
//! strictly, and the least with which others may be equal, each with all hands that pay so.
//!
//! No call takes memory.
#![tactic(auto)]

mod need;

pub use need::{NEEDS_ROOM, NeedsText, needs_text};
