//! Record lines: a word for the job, a word for the hand, and words of keys and values.
mod bytes;
mod cuts;
mod entry;
mod fields;
mod flags;
mod job_name;
mod jobs;
mod key;
mod needed;
mod open;
mod places;
mod record;
mod texts;
mod values;
mod words;

pub use bytes::{MOST_LINE, has_other_byte, is_other_byte};
pub use cuts::{next_word, without_spaces, word_len, word_of};
pub use job_name::JobName;
pub use key::Key;
pub use places::from_key;
pub use record::{Place, Refusal, read_line, read_placed};
