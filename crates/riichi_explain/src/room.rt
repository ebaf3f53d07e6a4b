//! The room that the lines of reasons share.
use arrayvec::ArrayString;

/// The bytes of the room of reasons, as the header of the static library promises them to its callers. Every answer's reasons fit;
/// the readings beside the one that is shown are written as long as they do.
pub const REASONS_ROOM: usize = 4608;

/// Room for the lines that say why an answer is what it is.
pub type ReasonsText = ArrayString<REASONS_ROOM>;
