//! A text of questions: what its lines are answered.
//!
//! [`study_text`] answers the lines that a `desk_io::Source` gives, and writes the answers into a `desk_io::Sink`. It returns a
//! `DeskReport` of how many were answered and how many refused, or the `DeskFault` for which it gave up. A line asks what
//! `riichi_study` reads of it: of a shape what stands beyond its next step, which calls of a thrown tile bring a hand nearer, how
//! likely a hand is to be ready, and to win, by so many draws, or what it is worth by these. The [`StudiesManner`] says in which [`StudiesForm`]: as a line, as a
//! line with lines in words below it, or as an object of JSON. Each
//! is put in pieces, since an answer may be longer than the room of one text. [`Questions`] is the `desk_lines::Teller` of such a
//! text. It takes memory for chances and worths alone, and [`answer_question`] none: the places that it needs are lent. [`study_text_by`] answers a
//! text that is at hand by several threads, and takes memory for all answers.
//! docs/NOTATION.md has the lines and the answers.
//!
//! ```text
//! let mut reader = FromReader::new(rt.reader());
//! let mut writer = ToWriter::new(io::writer(&rt));
//! let manner = StudiesManner { form: StudiesForm::Answers, is_numbered: false };
//! let report = study_text(rt.alloc(), &mut SuitMemo::in_value(), manner, &mut reader, &mut writer)?;
//! ```
#![tactic(auto)]

mod ahead;
mod beside;
mod calls;
mod chance_objects;
mod chances;
mod form;
mod found;
mod found_worths;
mod members;
mod objects;
mod part;
mod plain;
mod puts;
mod questions;
mod reasons;
mod safe;
mod safe_objects;
mod shapes;
mod text;
mod worth_objects;
mod worths;

pub use beside::study_text_by;
pub use desk_lines::{DeskFault, DeskReport};
pub use form::{StudiesForm, StudiesManner};
pub use questions::{Questions, answer_question};
pub use text::study_text;
