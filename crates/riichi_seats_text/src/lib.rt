//! The texts of who sits where: a list of names is read, and the games of sessions are written, with notes of what can be said of
//! them.
//!
//! [`read_names`] reads a list of names, a line each, or says by a [`ListError`] why it is none. [`seating_text`] writes a line
//! `game` for each table of each session, as docs/GAME.md has them, and below these, as notes, which pairs meet more than once and
//! how often each player sits at each first seat; [`session_text`] writes the lines of one session, without notes.
#![tactic(auto)]

mod games;
mod names;
mod notes;

pub use games::{seating_text, session_text};
pub use names::{ListError, ListFault, read_names};
