//! The room that the texts of answers share.
use arrayvec::ArrayString;

/// The bytes of an answer's room. The longest text that is put there, why a line is refused, has fewer; the header of the static
/// library promises this number to its callers.
pub const ANSWER_ROOM: usize = 3072;

/// Room for any answer, and for the lines that say why a line is refused.
pub type AnswerText = ArrayString<ANSWER_ROOM>;
