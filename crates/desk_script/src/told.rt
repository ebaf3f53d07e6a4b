use crate::refusal::Refusal;
use desk_core::Reply;

/// The answer to a line of a script.
#[derive(Clone, Copy, Debug, PartialEq, Eq)]
pub enum Told {
    /// Nothing: it is a comment, or empty.
    Nothing,
    Refused(Refusal),
    /// The number of the table that was opened.
    Table(u32),
    /// What the desk replied.
    Replied(Reply),
}
