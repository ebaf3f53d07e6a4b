//! What a line of a stream was answered.

/// What a line of a stream was answered.
#[derive(Clone, Copy)]
pub enum LineKind {
    /// Nothing: it is no record.
    NoRecord,
    /// What its hand or script comes to.
    Answered,
    /// Why it is refused.
    Refused,
}
