//! What there is once in a session.

/// A player or a table of a session, by its number.
#[derive(Clone, Copy, Debug, PartialEq, Eq, Hash, Drop)]
pub struct Member {
    /// The session, from 1 on.
    pub session: u32,
    /// The number of the player or of the table.
    pub number: usize,
}
