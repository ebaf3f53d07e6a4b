//! Why chances aren't told.

/// The hand may come to more hands than there are places.
#[derive(Clone, Copy, Debug, PartialEq, Eq, Drop)]
pub struct TooManyHands;
