//! The games of a tournament so far.
ghost use Rattle.std.specs.Prelude.{◌≡◌, ◌↔◌, Err, IfOk, IfErr, IsPermutation, OnOk, false, length, map, not, option_to_list, string_bytes, true};
ghost use Rattle.std.specs.List.Sorted.{IsSorted};
ghost use Rattle.riichi_standings.specs.Standings.{standings_of};
ghost use Rattle.riichi_standings.specs.Tournaments as spec;

use crate::fault::StandingsFault;
use crate::member::Member;
use crate::names::PlayerNames;
use crate::places::TieBreak;
use crate::result::{MOST_RESULTS, SeatResult};
use crate::standing::{MOST_PLAYERS, Standing, standings};
use indexmap::IndexSet;
use std::alloc::{AllocError, Global};
use std::marker::Model;

/// The games of a tournament so far: the names of the players, in the order in which they came, what each has of each game, and which
/// players and tables have had a game of a session.
#[derive(Drop)]
pub struct Tournament {
    alloc: Global,
    names: PlayerNames,
    results: Vec<SeatResult>,
    seats: IndexSet<Member>,
    tables: IndexSet<Member>,
}

impl Model for Tournament {
    ghost use Rattle.riichi_standings.specs.Tournaments.{Games};

    ghost Value = { Games };

    ghost view = { λ t. record { names = t.names; results = t.results.items; seats = t.seats.keys; tables = t.tables.keys } };
}

impl Tournament {
    /// No games.
    pub fn new(alloc: Global) -> Tournament
        ensures { result ≡ spec.no_games }
    {
        Tournament {
            alloc,
            names: PlayerNames::new(alloc),
            results: Vec::new(alloc),
            seats: IndexSet::new(alloc),
            tables: IndexSet::new(alloc),
        }
    }

    /// The names of the players; the number of a player is the place of the name.
    pub fn names(&self) -> &[String]
        ensures { map string_bytes result.now ≡ self.now.names }
    {
        self.names.as_slice()
    }

    /// What players have of games.
    pub fn results(&self) -> &[SeatResult]
        ensures { result.now ≡ self.now.results }
    {
        self.results.as_slice()
    }

    /// Whether a game says its session or not, as the games before it do.
    pub fn says_alike(&self, session: Option<u32>) -> bool
        ensures { result ≡ spec.says_alike self.now session }
    {
        match self.results.as_slice().last() {
            None => true,
            Some(last) => last.session.is_some() == session.is_some(),
        }
    }

    /// Whether a table of a session has had a game; never where the table or the session isn't said.
    pub fn has_table(&self, session: Option<u32>, table: Option<u32>) -> bool
        ensures { result ≡ spec.has_table self.now session table }
    {
        has_member(&self.tables, member_of(session, widened(table)))
    }

    /// Whether a player has had a game of a session; never where the session isn't said.
    pub fn has_played(&self, name: &str, session: Option<u32>) -> bool
        ensures { result ≡ spec.has_played self.now session name.now }
    {
        has_member(&self.seats, member_of(session, self.names.number_of(name)))
    }

    /// A game begins at a table of a session. It is refused where some games say their session and others don't, and where the table
    /// of the session has had a game.
    pub fn take_table(
        &mut self,
        session: Option<u32>,
        table: Option<u32>,
    ) -> Result<(), StandingsFault>
        ensures ok { OnOk result ((spec.says_alike self.old session ≡ true)
            × (self.new ≡ spec.with_table_taken self.old session table)
            × (spec.has_table self.old session table ≡ false)) }
        ensures unsaid { (result ≡ Err StandingsFault.SessionUnsaid)
            ↔ (spec.says_alike self.old session ≡ false) }
        ensures twice { result ≡ Err StandingsFault.TableTwice
            → spec.has_table self.old session table ≡ true }
    {
        if !self.says_alike(session) {
            return Err(StandingsFault::SessionUnsaid);
        }
        if take_member(&mut self.tables, member_of(session, widened(table)))? {
            Ok(())
        } else {
            Err(StandingsFault::TableTwice)
        }
    }

    /// A player of a game has this place and these final points of it. It is refused where the player has had a game of the session.
    pub fn take_seat(
        &mut self,
        name: &str,
        session: Option<u32>,
        place: u8,
        points: i32,
    ) -> Result<(), StandingsFault>
        ensures ok { OnOk result (
            (self.new ≡ spec.with_seat self.old name.now session place points)
            × (spec.is_one_of (spec.seat_member self.old name.now session) self.old.seats ≡ false)) }
        ensures twice { result ≡ Err StandingsFault.PlayerTwice
            → spec.is_one_of (spec.seat_member self.old name.now session) self.old.seats ≡ true }
    {
        let player = self.number_of(name)?;
        if !take_member(&mut self.seats, member_of(session, Some(player as usize)))? {
            return Err(StandingsFault::PlayerTwice);
        }
        let result = SeatResult {
            player,
            session,
            place,
            points,
        };
        match self.results.push(result) {
            Ok(()) => Ok(()),
            Err(_) => Err(StandingsFault::Memory),
        }
    }

    /// The number of a player, who may be new.
    fn number_of(&mut self, name: &str) -> Result<u32, StandingsFault>
        ensures ok { IfOk result (λ number. (number ≡ spec.number_of_player self.old.names name.now)
            × (self.new ≡ record self.old { names = spec.with_name self.old.names name.now })) }
        ensures not_twice { result ≡ Err StandingsFault.PlayerTwice → ⊥ }
    {
        let number = match self.names.number_of(name) {
            Some(number) => number,
            None => self.names.add(name)?,
        };
        match u32::try_from(number) {
            Ok(number) => Ok(number),
            Err(_) => Err(StandingsFault::TooMany),
        }
    }

    /// The players in the order of their places and then of their names.
    pub fn standings(&self, ties: TieBreak) -> Result<Vec<Standing>, StandingsFault>
        ensures each_once { IfOk result (λ list.
            IsPermutation (standings_of ties self.now.names self.now.results) list.items) }
        ensures in_order { IfOk result (λ list. IsSorted ⟦<Standing as Ord>⟧.cmp list.items) }
    {
        let names = self.names.as_slice();
        let results = self.results.as_slice();
        if names.len() > MOST_PLAYERS || results.len() > MOST_RESULTS {
            return Err(StandingsFault::TooMany);
        }
        Ok(standings(self.alloc, ties, names, results)?)
    }
}

/// A player or a table of a session, where both are said.
fn member_of(session: Option<u32>, number: Option<usize>) -> Option<Member>
    ensures { result ≡ spec.member_of session number }
{
    match (session, number) {
        (Some(session), Some(number)) => Some(Member { session, number }),
        _ => None,
    }
}

/// The same number.
fn widened(number: Option<u32>) -> Option<usize>
    ensures { result ≡ number }
{
    match number {
        None => None,
        Some(number) => Some(number as usize),
    }
}

/// Whether there has been one in its session. What isn't said never was.
fn has_member(members: &IndexSet<Member>, member: Option<Member>) -> bool
    ensures { result ≡ spec.is_one_of member members.now.keys }
{
    match member {
        None => false,
        Some(member) => members.contains(&member),
    }
}

/// Takes what there is once in a session: whether it was new. What isn't said is always new.
fn take_member(members: &mut IndexSet<Member>, member: Option<Member>) -> Result<bool, AllocError>
    ensures ok { IfOk result (λ is_new. is_new ≡ not (spec.is_one_of member members.old.keys)) }
    ensures taken { result ≡ Ok true → members.new.keys ≡ spec.with_once member members.old.keys }
{
    match member {
        None => Ok(true),
        Some(member) => Ok(members.insert(member)?),
    }
}
