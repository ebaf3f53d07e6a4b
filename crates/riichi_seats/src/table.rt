//! A table of four.
ghost use Rattle.std.specs.Prelude.{◌≡◌};
ghost use Rattle.riichi_seats.specs.Tables as spec;

/// The most tables of a session.
pub const MOST_TABLES: u16 = 100;

/// The most players.
pub const MOST_PLAYERS: u16 = 400;

/// The most sessions.
pub const MOST_SESSIONS: u16 = 32;

/// The four players of a game by their first seats, each by number.
#[derive(Clone, Copy, Debug, PartialEq, Eq)]
pub struct Table {
    pub east: u16,
    pub south: u16,
    pub west: u16,
    pub north: u16,
}

/// A first seat.
#[derive(Clone, Copy, Debug, PartialEq, Eq)]
pub enum Seat {
    East,
    South,
    West,
    North,
}

impl Table {
    /// The player of a seat.
    pub fn at(&self, seat: Seat) -> u16
        ensures { result ≡ spec.player_at self.now seat }
    {
        match seat {
            Seat::East => self.east,
            Seat::South => self.south,
            Seat::West => self.west,
            Seat::North => self.north,
        }
    }

    /// Whether a player sits at the table.
    pub fn seats(&self, player: u16) -> bool
        ensures { result ≡ spec.sits player self.now }
    {
        self.east == player || self.south == player || self.west == player || self.north == player
    }
}
