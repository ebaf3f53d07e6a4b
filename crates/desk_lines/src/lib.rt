//! The lines of the desk: what a text of hands is answered.
//!
//! [`desk_text`] answers the record lines that a `desk_io::Source` gives, one line for each, and
//! writes the answers into a `desk_io::Sink`. It returns a [`DeskReport`] of how many were answered
//! and how many refused, or the [`DeskFault`] for which it gave up. [`desk_text_by`] answers the same lines by any
//! kind of answer, which is a [`Responder`]: [`Plain`] words, with the reasons behind them ([`Explained`], [`EveryReading`]),
//! [`Objects`] of JSON, with the reasons in them ([`Reasoned`]). [`numbered_text_by`] puts each answer behind the number of its
//! line, and [`fill_by`] puts the answers to a text into a room, by [`next_line`] and [`put_at`].
//! [`replay_text`] does so with the commands of a
//! script, over a desk of 64 tables.
//! `waits_answer` answers one hand, as the command `waits` prints it.
//! [`laws`] says how the kinds of answers agree.
//!
//! Inside, [`answer_lines`] reads a stream to its end and has its lines answered by a [`Teller`] that it is lent,
//! which may be one of another crate. `Told` cuts
//! the text at hand into lines, has them answered one by one and counts the answers; its `Outbox` keeps these until they
//! are written in one piece. Of a line that has not ended the front is kept in a `LineBuffer`. `Records` is the
//! teller of record lines, under the profile that the first line may set; a `desk_script::Script` is that of a script.
//!
//! ```text
//! let mut reader = FromReader::new(rt.reader());
//! let mut writer = ToWriter::new(io::writer(&rt));
//! let report = desk_text(Rules::One, &mut reader, &mut writer)?;
//! ```
#![tactic(auto)]

mod answering;
mod cut;
mod decided;
mod explained;
mod fault;
mod filling;
mod first_line;
pub mod laws;
mod line_buffer;
mod line_kind;
mod numbered;
mod numbering;
mod objects;
mod outbox;
mod piece;
mod profile;
mod reasoned;
mod records;
mod replay;
mod report;
mod responder;
mod scripts;
mod slip;
mod stream;
mod tally;
mod teller;
mod text;
mod told;
mod waits;

pub use answering::Plain;
pub use cut::ended_bytes;
pub use explained::{EveryReading, Explained};
pub use fault::DeskFault;
pub use filling::{Filled, fill_by, next_line, put_at};
pub use line_kind::LineKind;
pub use numbered::Numbers;
pub use numbering::numbered_text_by;
pub use objects::{Members, Objects};
pub use outbox::{Outbox, write_all};
pub use piece::answer_piece;
pub use profile::{NextRecords, next_records, profile_of};
pub use reasoned::{Reasoned, ReasonedMembers, win_in};
pub use replay::replay_text;
pub use report::{DeskReport, Slip, TextReport};
pub use responder::Responder;
pub use riichi_hand::Rules;
pub use riichi_shape::SuitMemo;
pub use stream::answer_lines;
pub use tally::Tally;
pub use teller::Teller;
pub use text::{desk_text, desk_text_by};
pub use waits::{WaitsLine, waits_answer};
