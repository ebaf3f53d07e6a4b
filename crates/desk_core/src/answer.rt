use riichi_score::WinAnswer;
use riichi_shape::ShapeAnswer;
use riichi_tiles::KindSet;

/// What a job is worth.
#[derive(Clone, Copy, Debug, PartialEq, Eq)]
pub enum Answer {
    Win(WinAnswer),
    /// The kinds that the hand waits for.
    Waits(KindSet),
    Shape(ShapeAnswer),
}
