//! The answers to the texts of many tables, judged by many workers.
//!
//! [`score_text`] reads several `desk_io::Source`s to their ends, each the text of a table, has the lines of each judged
//! by many threads, and writes the answers table by table. It returns a `desk_lines::DeskReport` of how many lines were
//! answered and how many refused, or the [`ScoreFault`] for which it gave up. [`score_text_with`] also names the tables and
//! numbers the answers.
//!
//! Inside, `Tables` has the answers in memory, as a sink to a `desk_crew::Crew`, whose threads answer one text after another.
//! All is written at the end, in one piece.
//!
//! ```text
//! let report = score_text(&rt, rt.alloc(), Rules::One, readers, 4, &mut writer)?;
//! ```
#![tactic(auto)]

mod decided;
mod paper;
mod score;
mod score_fault;
mod tables;

pub use score::{ScoreReport, score_text, score_text_with};
pub use score_fault::ScoreFault;
