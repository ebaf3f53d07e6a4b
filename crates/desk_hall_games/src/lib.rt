//! The hall over games of four: a table's book as a text of games.
//!
//! A book's text is the line `game`, and a line for each deal behind it; [`open_book`] opens it. A [`GamePosition`] is how far its game
//! has come, as `desk_hall` asks for it, and [`push_answer`] writes the answer to a message. [`JudgedRow`] tells what it came to as
//! numbers. No call takes memory. docs/HALL.md has the messages and their answers.
#![tactic(auto)]

mod answers;
mod opened;
mod position;
mod row;

pub use answers::{MOST_JUDGED, push_answer};
pub use opened::open_book;
pub use position::GamePosition;
pub use row::JudgedRow;
