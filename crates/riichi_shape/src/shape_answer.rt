//! The answer of a shape.
use crate::accepts::Accepts;

/// How far a hand is from winning, and what brings it nearer.
#[derive(Clone, Copy, Debug, PartialEq, Eq)]
pub struct ShapeAnswer {
    /// 0 for a ready hand, -1 for a complete one.
    pub shanten: i8,
    pub accepts: Accepts,
}
