//! What a message comes to.
ghost use Rattle.std.specs.Prelude.{◌≡◌};
ghost use Rattle.desk_hall.specs.Decided as spec;

use crate::deal::can_stand;
use crate::position::Position;

/// What a message comes to. Only what is taken and what is withdrawn changes the book.
#[derive(Clone, Copy)]
pub enum Decision<P> {
    /// The number is the next one, and the game accepts the line there: how far it brings the game.
    Taken(P),
    /// The number has this outcome already: it is answered as the first time.
    Again(P),
    /// The number has another outcome.
    Another {
        /// How far the game came by that of the book.
        first: P,
        /// How far it would come by the line handed in, in its place.
        other: P,
    },
    /// The number is beyond the next one.
    Early,
    /// The game refuses the line there, or it can't stand in a book.
    Refused,
    /// A line for a number whose deal was withdrawn.
    Gone,
    /// The last live deal is withdrawn.
    Withdrawn,
    /// The deal was withdrawn before.
    GoneAlready,
    /// A later live deal stands on the one to be withdrawn.
    NotLast,
    /// No deal has the number, nor can have it.
    NoDeal,
}

/// How far a line that is handed in brings a game; none where it can't stand in a book, or the game refuses it.
pub(crate) fn handed_in<P: Position>(front: &P, line: &[u8]) -> Option<P>
    ensures { result ≡ spec.handed_in P.reads front.now line.now }
{
    if can_stand(line) {
        front.read(line)
    } else {
        None
    }
}

/// What a line comes to at the next number.
pub(crate) fn at_next<P: Position>(front: &P, line: &[u8]) -> Decision<P>
    ensures { result ≡ spec.at_next (spec.handed_in P.reads front.now line.now) }
{
    match handed_in(front, line) {
        None => Decision::Refused,
        Some(position) => Decision::Taken(position),
    }
}

/// What a line comes to at a number that is taken by another line.
pub(crate) fn at_live<P: Position>(front: &P, first: &[u8], line: &[u8]) -> Decision<P>
    ensures { result ≡ spec.at_live P.same (P.reads front.now first.now)
        (spec.handed_in P.reads front.now line.now) }
{
    let Some(first) = front.read(first) else {
        return Decision::Refused;
    };
    match handed_in(front, line) {
        None => Decision::Refused,
        Some(other) if first.is_same(&other) => Decision::Again(first),
        Some(other) => Decision::Another { first, other },
    }
}
