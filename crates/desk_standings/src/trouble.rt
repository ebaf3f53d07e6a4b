//! Why the games of a text make no standings.
use crate::differing::TableRule;
use riichi_game_text::Name;

/// The game of a text that can't stand in a tournament.
#[derive(Clone, Copy, Debug, Drop)]
pub struct Trouble {
    /// The number of the game in its text, counted from 1; 0 before the first.
    pub game: u64,
    /// The number of the line in its text, counted from 1: a refused one, or else the first of the game.
    pub line: u64,
    pub why: Why,
}

/// Why a game can't stand in a tournament.
#[derive(Clone, Copy, Debug, Drop)]
pub enum Why {
    /// The text has no game.
    NoGame,
    /// A line is refused.
    Refused,
    /// The game isn't over.
    Unfinished,
    /// The game has this rule otherwise than the first of the tournament.
    OtherRules(TableRule),
    /// Some games say their session, and others don't.
    SessionUnsaid,
    /// The table has had a game of the session.
    TableTwice,
    /// This player has had a game of the session.
    PlayerTwice(Name),
    /// There is more than can be counted.
    TooMany,
    /// Memory isn't there.
    Memory,
}
