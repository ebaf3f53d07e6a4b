//! What is wrong with a line, in words: the word of the line that is at fault, and what may stand there.
//!
//! [`push_refusal_lines`] writes the lines that follow a refusal. [`refusal_key`], [`refusal_place`] and [`refusal_words`] say the
//! same to programs: which key is at fault, where it stands, and what may stand there. [`fault_words`] says what holds of every line
//! without the fault.
//! What is shown of a line is seen: a byte that isn't stands as `\xNN`. No call takes memory.
//!
//! ```text
//! refused H4
//!   seat=s: a seat is E, S, W or N
//! refused N2 hand at 2
//!   12x3m
//!     ^ a digit or one of m p s z stands here
//! ```
#![tactic(auto)]

mod meaning;
mod refusal;
mod shown;
mod words;

pub use meaning::{refusal_key, refusal_place, refusal_words};
pub use refusal::{MOST_REFUSAL, push_refusal_lines};
pub use shown::seen;
pub use words::{MOST_FAULT_WORDS, fault_words};
