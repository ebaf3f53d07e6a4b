//! What one player has of one game.

/// So many results are counted at most.
pub const MOST_RESULTS: usize = 4_294_967_295;

/// What one player has of one game.
#[derive(Clone, Copy, Debug, PartialEq, Eq)]
pub struct SeatResult {
    /// The number of the player.
    pub player: u32,
    /// The session in which the game was played, where the game says it.
    pub session: Option<u32>,
    /// The place in the game, from 1 to 4.
    pub place: u8,
    /// The final points of the game.
    pub points: i32,
}
