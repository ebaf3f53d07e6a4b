//! A text of games of four players: its lines are read, and answered as texts.
//!
//! A [`GameLine`] is what the line says that begins a game: the [`Names`] of the players and the rules of the table.
//! [`read_game`] reads it from the words behind `game`. [`read_entry`] reads each other line as the outcome that it says, or as its
//! first [`GameFault`]. Each call whose name begins with `push` writes one answer, of at most as many bytes as the constant beside
//! it says.
//!
//! All of these are plain values, and no call takes memory. docs/GAME.md has the lines, their answers and the codes of faults.
#![tactic(auto)]

mod answers;
mod entry;
mod fault;
mod final_texts;
mod forms;
mod game_line;
mod hand_line;
mod listed;
mod name;
mod numbers;
mod plain_lines;
mod ron_form;
mod rons;
mod setting;
mod stands;
mod table_words;
mod value;
mod values;
mod win;
mod won;
mod won_value;
mod words;

pub use answers::{
    MOST_BEGUN, MOST_DEAL, MOST_PENALTY, MOST_STANDS, point_changes, push_begun, push_deal,
    push_penalty, push_stands,
};
pub use entry::{AcceptedLine, is_odd, read_entry};
pub use fault::{GameFault, HandFault, MOST_REFUSED, push_refused};
pub use final_texts::{MOST_FINAL, MOST_OVER, push_over};
pub use game_line::{GameLine, read_game};
pub use listed::players_if_said;
pub use name::{MOST_NAME, Name, Names, read_name};
pub use won_value::{WonValue, won_values};
pub use words::next_said;
