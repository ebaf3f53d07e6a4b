//! The small texts that answers are written from: numbers, kinds, blocks and melds.
//!
//! Each is pushed behind a text of the caller's, of whatever room; no call takes memory. [`push_number`] writes a number of any
//! integer type in decimal. A kind is its digit and its letter, as `5p`, and two or more tiles are a digit for each with one
//! letter, as `555p`: so a block is written, and a meld with its name before it, as `pon:777z`. [`push_list`] writes what is a
//! [`ListItem`], one behind the other, with a separator between them.
#![tactic(auto)]

mod block;
mod kind;
mod list;
mod number;
mod room;

pub use block::{MOST_BLOCK, MOST_MELD, push_block, push_meld};
pub use kind::{digit_of, letter_of, push_four, push_kind, push_three, push_two};
pub use list::{ListItem, push_list};
pub use number::{MOST_I8, MOST_U8, MOST_U32, MOST_U64, push_number};
pub use room::{ANSWER_ROOM, AnswerText};
