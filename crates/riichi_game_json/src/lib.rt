//! The answers to games as JSON: of each the members of one object, for programs.
//!
//! Each call whose name begins with `push` writes the members of one answer behind a text, in their order and without spaces: not
//! the brace before them, so that the caller may put a member of its own first, but the brace behind them. No line's end is
//! written. [`push_begun`] answers the line that begins a game, [`push_outcome`] an outcome by how far the game had come before it
//! and has come after it, with the list of its moves, [`push_refused`] a line that is refused, and [`push_stands`] and
//! [`push_over`] tell how a game stands and how it ended.
//!
//! Points are points, not thousands. Players have the numbers 0 to 3 there, which are also their places in the lists of four; the
//! table, in a move, is `null`. docs/GAME.md says each member, and docs/game.schema.json has them as a JSON Schema.
//!
//! Each text has at most as many bytes as the constant beside its call says. No call takes memory.
//!
//! ```text
//! "answer":"game","names":["Anna","Bo","Cyd","Dee"],"start":30000}
//! "answer":"penalty","player":2,"points":8000}
//! "answer":"refused","code":"G7","hand":{"answer":"no yaku"}}
//! ```
#![tactic(auto)]

mod begun;
mod deals;
mod finals;
mod moves;
mod refusals;
mod states;
mod values;

pub use begun::{MOST_BEGUN, push_begun};
pub use deals::{MOST_OUTCOME, push_outcome};
pub use finals::{MOST_OVER, push_over};
pub use refusals::{MOST_REFUSED, push_refused};
pub use states::{MOST_STANDS, push_stands};
