//! A session by the standings so far.
ghost use Rattle.std.specs.Prelude.{◌≡◌, ◌*◌, ◌<◌, ◌≤◌, IfOk, IsPermutation, map};
ghost use Rattle.desk_lines.specs.Streams.{WritesAll};
ghost use Rattle.riichi_seats.specs.Seatings.{tables_by_number};
ghost use Rattle.riichi_seats_text.specs.Games.{games_text};

use crate::failure::Failure;
use crate::noted::Notes;
use crate::progress::Progress;
use crate::standings::{hall_of, list_of};
use desk_cli::SeatsRequest;
use desk_io::Sink;
use desk_lines::write_all;
use desk_standings::{Standing, Tournament};
use riichi_game_text::Name;
use riichi_seats::seats_by_order;
use riichi_seats_text::session_text;
use riichi_standings::last_session;
use std::alloc::{AllocError, Global};
use std::io::{Eprint, Input};
use std::rt::Files;
use std::thread::Threads;
use std::time::Clock;

/// How many files are judged side by side.
const WORKERS: u32 = 4;

/// A tournament so far, by which a session is seated.
#[derive(Drop)]
pub struct SoFar {
    /// The players in the order of their places.
    names: Vec<Name>,
    /// The last session that was played.
    sessions: u32,
}

/// The players of a list in the order of their places in the games so far. Who had no game comes last, in the order of the list.
pub fn seated_so_far<'a, R: Input + Eprint + Files + Clock + Threads + Sync + AllocGlobal>(
    rt: &R,
    notes: &Notes<'a>,
    progress: &Progress<'_, R>,
    seats: &SeatsRequest<'_, 'a>,
    files: &[&'a str],
    names: &[Name],
) -> Result<SoFar, Failure<'a>>
    ensures { IfOk result (λ so_far. IsPermutation names.now so_far.names.items) }
{
    if seats.sessions != 1 {
        return Err(Failure::OneSession);
    }
    let hall = hall_of(rt, notes, progress, seats.rules, files, WORKERS)?;
    let list = list_of(&hall, seats.ties)?;
    let sessions = last_session(hall.tournament().results());
    if sessions == 0 {
        return Err(Failure::SessionsUnsaid);
    }
    let names = by_standings(rt.alloc(), names, hall.tournament(), list.as_slice())?;
    Ok(SoFar { names, sessions })
}

/// The names in the order of the standings, each once.
fn by_standings(
    alloc: Global,
    names: &[Name],
    tournament: &Tournament,
    list: &[Standing],
) -> Result<Vec<Name>, AllocError>
    ensures { IfOk result (λ order. IsPermutation names.now order.items) }
{
    let mut order = Vec::from_slice(alloc, names)?;
    order.sort_by_cached_key(|name| rank_of(name, tournament, list))?;
    Ok(order)
}

/// How many come before a player in the standings.
fn rank_of(name: &Name, tournament: &Tournament, list: &[Standing]) -> usize {
    let names = tournament.names();
    let place = list.iter().position(|standing| {
        names
            .get(standing.player as usize)
            .is_some_and(|own| own.as_str() == name.as_str())
    });
    place.unwrap_or(list.len())
}

/// Writes the games of the session behind those that were played: the first four at the first table, the next four at the second,
/// and so on.
#[tactic(auto, using(crate::proofs::PairingLemmas::games_by_number))]
pub fn write_session<'a, W: Sink>(
    alloc: Global,
    so_far: &SoFar,
    tables: u16,
    words: &[u8],
    writer: &mut W,
) -> Result<(), Failure<'a>>
    requires some { 0 < tables }
    requires few { tables ≤ 100 }
    ensures { let texts = map (λ name. name.bytes) so_far.now.names.items in
        IfOk result (λ _. WritesAll ⟦<W as Sink>⟧ writer.old writer.new (games_text texts tables words.now
        (so_far.now.sessions * tables) (tables_by_number tables))) }
{
    let games = seats_by_order(alloc, tables)?;
    let text = session_text(
        alloc,
        so_far.names.as_slice(),
        tables,
        words,
        so_far.sessions,
        games.as_slice(),
    )?;
    match write_all(writer, text.as_slice()) {
        Ok(()) => Ok(()),
        Err(fault) => Err(Failure::Explained(fault)),
    }
}
