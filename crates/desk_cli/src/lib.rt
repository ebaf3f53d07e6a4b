//! The words of the command line of `riichi_desk`.
//!
//! `commands` makes the commands with their help, `clap` matches the words with them, and `request_of` returns what they
//! ask for. They stand apart from the program, since they need nothing of the desk but the rule profiles.
//!
//! ```text
//! let matches = commands(alloc)?.try_get_matches_from(words)?;
//! match request_of(&matches) { Some(Request::Waits(hand)) => .. }
//! ```
#![tactic(auto)]

mod command;
mod help;
mod request;
mod rules;
mod words;

pub use command::CommandName;
pub use help::EXIT_STATUSES;
pub use request::{
    Form, GameForm, GameManner, Lines, Manner, NeedRequest, Request, SeatsRequest, StandingsForm,
    StandingsRequest, StudyForm, StudyManner, TieWord, request_of,
};
pub use rules::nearest_rule;
pub use words::commands;
