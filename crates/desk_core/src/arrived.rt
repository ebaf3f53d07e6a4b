/// What became of a piece.
#[derive(Clone, Copy, Debug, PartialEq, Eq)]
pub enum Arrived {
    /// It is the first one for its ticket, and carries the job of the ticket.
    Accepted,
    /// Its ticket was withdrawn.
    Withdrawn,
    /// A piece was accepted for its ticket before.
    Doubled,
    /// Its ticket was not given out, or another job was submitted under it.
    Stranger,
}
