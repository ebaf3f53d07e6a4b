//! Who sits where so far, and how often players meet.
ghost use Rattle.std.specs.Prelude.{◌<◌, ◌≤◌};

use crate::table::{MOST_PLAYERS, MOST_SESSIONS};
use std::alloc::{AllocError, Global};

/// A draft of the sessions: it may be changed at any place, and promises nothing.
#[derive(Drop)]
pub(crate) struct Draft {
    tables: u16,
    sessions: u16,
    /// The player of each place: of each session a row of [`MOST_PLAYERS`], of each table in turn four.
    places: Vec<u16>,
    /// How often two players meet: of each player a row of [`MOST_PLAYERS`].
    met: Vec<u8>,
}

/// A place of a session.
#[derive(Clone, Copy)]
pub(crate) struct Place {
    pub(crate) session: u16,
    /// Four times the number of the table, and the seat from 0 to 3 beside it.
    pub(crate) number: u16,
}

impl Place {
    /// The seat, from 0 to 3.
    pub(crate) fn seat(self) -> u16
        ensures { result < 4 }
    {
        self.number % 4
    }

    /// The place of another seat at the same table.
    pub(crate) fn at_seat(self, seat: u16) -> Place {
        Place {
            session: self.session,
            number: (self.number - self.number % 4).saturating_add(seat),
        }
    }

    /// Where it stands among the places.
    fn index(self) -> usize {
        usize::from(MOST_PLAYERS) * usize::from(self.session) + usize::from(self.number)
    }
}

/// Where a pair stands among the numbers of meetings.
fn pair_index(one: u16, other: u16) -> usize {
    usize::from(MOST_PLAYERS) * usize::from(one) + usize::from(other)
}

impl Draft {
    /// Nobody sits anywhere yet.
    pub(crate) fn new(alloc: Global, tables: u16, sessions: u16) -> Result<Draft, AllocError> {
        let row = usize::from(MOST_PLAYERS);
        Ok(Draft {
            tables,
            sessions,
            places: vec![in alloc; 0u16; row * usize::from(MOST_SESSIONS)]?,
            met: vec![in alloc; 0u8; row * row]?,
        })
    }

    pub(crate) fn tables(&self) -> u16 {
        self.tables
    }

    pub(crate) fn sessions(&self) -> u16 {
        self.sessions
    }

    /// The number of players.
    pub(crate) fn players(&self) -> u16 {
        self.tables.saturating_mul(4)
    }

    /// Who sits at a place.
    pub(crate) fn player(&self, place: Place) -> u16 {
        self.places.get(place.index()).copied().unwrap_or(0)
    }

    /// The players of a session by their places.
    pub(crate) fn session(&self, session: u16) -> &[u16] {
        let start = usize::from(MOST_PLAYERS) * usize::from(session);
        let end = start + usize::from(self.players());
        self.places.get(start..end).unwrap_or(&[])
    }

    /// Seats a player at a place, whoever sat there, and counts no meetings.
    pub(crate) fn put(&mut self, place: Place, player: u16) {
        if let Some(here) = self.places.get_mut(place.index()) {
            *here = player;
        }
    }

    /// The others at the table of a place.
    fn mates(&self, place: Place) -> [u16; 3] {
        let (first, second, third) = match place.seat() {
            0 => (1, 2, 3),
            1 => (0, 2, 3),
            2 => (0, 1, 3),
            _ => (0, 1, 2),
        };
        [
            self.player(place.at_seat(first)),
            self.player(place.at_seat(second)),
            self.player(place.at_seat(third)),
        ]
    }

    /// How often a player meets three others, added up.
    fn times_met(&self, player: u16, mates: [u16; 3]) -> u32
        ensures { result ≤ 765 }
    {
        self.met_by(player, mates[0])
            + self.met_by(player, mates[1])
            + self.met_by(player, mates[2])
    }

    fn met_by(&self, one: u16, other: u16) -> u32
        ensures { result ≤ 255 }
    {
        u32::from(self.met.get(pair_index(one, other)).copied().unwrap_or(0))
    }

    /// Whether two players meet more than once.
    pub(crate) fn has_repeated(&self) -> bool {
        self.met.iter().any(|times| *times > 1)
    }

    /// Counts the meetings of all who sit, of which none was counted before.
    pub(crate) fn count_meetings(&mut self) {
        for session in 0..self.sessions {
            self.count_session(session);
        }
    }

    fn count_session(&mut self, session: u16) {
        for number in 0..self.players() {
            self.count_place(Place { session, number });
        }
    }

    /// Whoever sits at a place meets the others at the table, who count that for themselves at theirs.
    fn count_place(&mut self, place: Place) {
        let player = self.player(place);
        for mate in self.mates(place) {
            self.raise(player, mate);
        }
    }

    /// A player and three others meet each other once more.
    fn meet(&mut self, player: u16, mates: [u16; 3]) {
        for mate in mates {
            self.raise(player, mate);
            self.raise(mate, player);
        }
    }

    /// A player and three others meet each other once less.
    fn part(&mut self, player: u16, mates: [u16; 3]) {
        for mate in mates {
            self.lower(player, mate);
            self.lower(mate, player);
        }
    }

    fn raise(&mut self, one: u16, other: u16) {
        if let Some(times) = self.met.get_mut(pair_index(one, other)) {
            *times = times.saturating_add(1);
        }
    }

    fn lower(&mut self, one: u16, other: u16) {
        if let Some(times) = self.met.get_mut(pair_index(one, other)) {
            *times = times.saturating_sub(1);
        }
    }

    /// By how much the meetings of pairs beyond their first add up to more where the players of two tables of a session change
    /// places; 0 where they don't.
    pub(crate) fn loss(&self, one: Place, other: Place) -> u32 {
        let (first, second) = (self.player(one), self.player(other));
        let (beside_first, beside_second) = (self.mates(one), self.mates(other));
        // (of those whom they meet now, each has met them at least once; there are six)
        let now = self.times_met(first, beside_first) + self.times_met(second, beside_second);
        let then = self.times_met(first, beside_second) + self.times_met(second, beside_first);
        (then + 6).saturating_sub(now)
    }

    /// The players of two tables of a session change places.
    pub(crate) fn exchange(&mut self, one: Place, other: Place) {
        let (first, second) = (self.player(one), self.player(other));
        let (beside_first, beside_second) = (self.mates(one), self.mates(other));
        self.part(first, beside_first);
        self.part(second, beside_second);
        self.meet(first, beside_second);
        self.meet(second, beside_first);
        self.put(one, second);
        self.put(other, first);
    }
}
