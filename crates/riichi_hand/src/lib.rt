//! Records of hands, and the lines that spell them.
//!
//! A [`Job`] is one question: what a [`WinRecord`] is worth, which tiles a [`HandRecord`] waits for, how far a
//! [`ShapeRecord`] is from a win. Each record keeps the conditions of its tiles and flags by its type, since its
//! constructor answers the first [`LineFault`] of what it is given. So whoever holds a record needs no test.
//! [`WinParts`] are the parts of a win, with [`Rules`], [`By`], [`Wind`] and [`Flags`].
//!
//! [`read_line`] reads a record line, as `win 234m567m345p67s99s on=5s by=ron seat=S round=E`: it answers the job,
//! nothing for a comment or a blank line, or the first fault of the line, whose text is [`fault_text`]. A [`LineCode`]
//! is a fault of the line or of the record; a fault of a notation text comes with the text's [`TextName`].
//! docs/NOTATION.md has the lines, their keys and the codes. [`read_placed`] answers in place of a fault alone a [`Refusal`]: the
//! fault, the word and the [`Key`] at which it stands, and the job that the line names.
//!
//! All of these are plain values: each can be copied and compared, and no call takes memory.
//!
//! ```
//! read_line(Rules::One, b"waits 1112345678999m");            // Ok(Some(Job::Waits(..)))
//! read_line(Rules::One, b"# a comment");                     // Ok(None)
//! let fault = read_line(Rules::One, b"waits 12x3m").err()?;  // LineFault::Notation(TextName::Hand, ..)
//! fault_text(&fault).as_str();                               // "refused N2 hand at 2"
//! ```
#![tactic(auto)]

mod decided;
mod fault;
mod hand;
mod job;
pub mod laws;
mod line;
mod rule_words;
mod rules;
mod rules_text;
mod shape;
mod switch;
mod win;

pub use fault::{
    LineCode, LineFault, TextName, fault_text, line_code_text, name_text, notation_code_text,
};
pub use hand::HandRecord;
pub use job::Job;
pub use line::{
    JobName, Key, MOST_LINE, Place, Refusal, from_key, has_other_byte, is_other_byte, next_word,
    read_line, read_placed, without_spaces, word_len, word_of,
};
pub use rule_words::{MOST_RULES_WORDS, push_house_words, rules_words};
pub use rules::Rules;
pub use rules_text::{RulesFault, read_rules};
pub use shape::ShapeRecord;
pub use switch::Switch;
pub use win::{By, Flags, WinParts, WinRecord, Wind, is_ron};
