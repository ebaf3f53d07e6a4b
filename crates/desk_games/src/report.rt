//! What a text of games came to.
use crate::desk::GameDesk;
use desk_lines::DeskReport;

/// What a text of games came to.
#[derive(Drop)]
pub struct GamesReport {
    /// How many lines were answered, those with `end` among them, and how many refused. What is told behind the last line of a game
    /// counts for none.
    pub counts: DeskReport,
    /// The text of games behind its last line.
    pub desk: GameDesk,
}
