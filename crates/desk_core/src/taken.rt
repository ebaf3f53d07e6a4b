use crate::answer::Answer;

/// What a table is given.
#[derive(Clone, Copy, Debug, PartialEq, Eq)]
pub enum Taken {
    /// The answer of the next ticket.
    Answer { seq: u32, answer: Answer },
    /// The next answer is not there yet, or the next job was not submitted yet.
    Waiting,
    /// The table has closed, and each ticket was given or withdrawn.
    Finished,
}
