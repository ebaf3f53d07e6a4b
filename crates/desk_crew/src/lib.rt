//! The answers to a text, by many threads.
//!
//! A [`Crew`] reads a `desk_io::Source` to its end and writes the answers to its record lines, as `desk_lines::desk_text_by`
//! does and byte for byte the same, but has the lines judged by several threads. It answers one text after another, and its
//! threads keep their rows of suits from text to text.
//!
//! It goes in rounds. A round reads until a room is full or the end is found. The room is cut into pieces, more than there are
//! threads, by number of bytes; a piece has the lines that end in it, so one begins where the last line before it has ended.
//! Each thread takes the next piece that none has taken, until none is left, and the answers are put together in the order of
//! the pieces. The calling thread takes pieces too, but first writes the answers of the round before and reads the next one. Of
//! a line that goes on only a front is held for the next round.
//!
//! ```text
//! let mut crew = Crew::new(rt.alloc(), 4)?;
//! let report = crew.answer_text::<Plain, _, _, _>(&rt, Rules::One, &mut reader, &mut writer)?;
//! ```
#![tactic(auto)]

mod crew;
mod gathering;
mod piece;
mod reading;
mod rooms;
mod round;
mod share;
mod standing;

pub use crew::Crew;
