//! What a line of a game may have been meant to be.
//!
//! [`Draft::read`] reads the words of a line loosely: names as players write them, words of several languages, values in other forms,
//! parts in another order. [`Draft::line`] writes the draft anew, with words in capitals for what is missing; what was guessed stands
//! in [`Draft::guess`]. Nothing is promised of the line but that it is one: whoever shows it reads it first.
//!
//! [`meaning_of`] has the words that players say for those of the notation. [`nearest_player`] finds the player whose name is nearly
//! written, and [`value_word`] what a word says of the worth of a hand. [`add`] and its kin put together texts of limited length, in
//! which what has no room is left out.
//!
//! All of these are plain values, and no call takes memory.
#![tactic(auto)]

mod draft;
mod guess;
mod meaning;
mod nearest;
mod reading;
mod text;
mod values;
mod worth;
mod writing;

pub use draft::Draft;
pub use guess::{Guess, MOST_GUESS};
pub use meaning::{Command, Meaning, meaning_of};
pub use nearest::{is_near, nearest_player};
pub use reading::Readers;
pub use text::{Line, MOST_LINE_SHOWN, MOST_WORD, Word, add, add_behind, put};
pub use worth::{ValueWord, value_word};
