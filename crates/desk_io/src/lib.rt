//! Readers and writers whose bytes, calls and failed calls a contract sees.
//!
//! A [`Source`] is read from and a [`Sink`] is written to, each in pieces of any size. Their ghost
//! members say what all calls so far have moved, how many calls there were and how many of them
//! failed, so that a text over streams can say: what it wrote is a function of what it read.
//!
//! [`FromReader`] and [`ToWriter`] make a source of any reader of std and a sink of any writer;
//! [`BytesIn`] and [`BytesOut`] are those over memory, which can fail at a chosen call. All four
//! keep their calls in a [`Journal`], which contracts read and which takes no memory. [`Reached`] is
//! what a terminal shows of how far a text is answered.
//!
//! ```text
//! let mut reader = BytesIn::new(b"waits 1m", 3, None);
//! let mut buffer = [0; 8];
//! let count = reader.read(&mut buffer)?; // 3: `wai`
//! ```
#![tactic(auto)]

mod bytes_in;
mod bytes_out;
mod countdown;
mod from_reader;
mod journal;
mod reached;
mod sink;
mod source;
mod to_writer;

pub use bytes_in::BytesIn;
pub use bytes_out::BytesOut;
pub use from_reader::FromReader;
pub use journal::Journal;
pub use reached::{Reached, lines_a_second, seconds_left, share_done};
pub use sink::Sink;
pub use source::Source;
pub use to_writer::ToWriter;
