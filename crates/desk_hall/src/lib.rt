//! What is decided when the tables of a hall hand in their deals: without a socket, a file or a clock, and without memory.
//!
//! A table's **book** is a game, and its deals in the order of their numbers, deal 1 first. The deals are a text, a line each, ended by
//! a line feed; a withdrawn one has the words `# withdrawn ` before its line. The caller holds the books, and lends one to each call.
//!
//! [`hand_in`] says what a line at a number comes to, and [`withdraw`] what the withdrawal of a number does: a [`Judged`] with its
//! [`Decision`], and with the place in the text where the next book has more bytes. [`judge`] does so for a message to one of many
//! tables. What they know of a game is a [`Position`]: how far a line brings it. [`laws`] says what follows for whole histories of
//! messages.
#![tactic(auto)]

mod deal;
mod decision;
mod judged;
pub mod laws;
mod message;
mod played;
mod position;
mod sight;

pub use deal::MOST_HANDED_IN;
pub use decision::Decision;
pub use judged::{Judged, hand_in, withdraw};
pub use message::{Asked, Message, Reply, Table, judge};
pub use position::Position;
