//! The command `seats`: the games of the sessions of a tournament.
ghost use Rattle.std.specs.Prelude.{◌≡◌, ◌*◌, ◌/◌, ◌<◌, ◌≤◌, ◌++◌, List, false, map, min, IfOk};
ghost use Rattle.desk_lines.specs.Streams.{WritesAll};
ghost use Rattle.riichi_seats.specs.Seatings.{IsSeating};
ghost use Rattle.riichi_seats.specs.declared.table.Table.{Table};
ghost use Rattle.riichi_seats_text.specs.Games.{games_text};
ghost use Rattle.riichi_seats_text.specs.Notes.{notes_text};

use crate::failure::Failure;
use crate::files::{is_input, open_file};
use crate::noted::Notes;
use crate::pairing::{seated_so_far, write_session};
use crate::progress::Progress;
use desk_cli::SeatsRequest;
use desk_io::{Sink, ToWriter};
use desk_lines::{DeskFault, write_all};
use desk_score::ScoreFault;
use riichi_game_text::{Name, read_game};
use riichi_hand::Rules;
use riichi_seats::{Drawing, MOST_SESSIONS, Plan, Table};
use riichi_seats_text::{ListError, ListFault, read_names, seating_text};
use std::alloc::{AllocError, Global};
use std::io::{Eprint, Input, Print, Read};
use std::rt::Files;
use std::thread::Threads;
use std::time::Clock;

/// The most bytes of a list of names.
const MOST_LIST: usize = 1 << 20;

/// How often the search goes on at most.
const MOST_ROUNDS: u32 = 1_000_000;

/// Prints the games of the sessions, and what can be said of them; or those of one session by the standings so far. No line is
/// refused.
pub fn answer_seats<'a, R: Input + Print + Eprint + Files + Clock + Threads + Sync + AllocGlobal>(
    rt: &R,
    notes: &Notes<'a>,
    progress: &Progress<'_, R>,
    seats: &SeatsRequest<'_, 'a>,
) -> Result<bool, Failure<'a>>
    ensures { IfOk result (λ is_refused. is_refused ≡ false) }
{
    let words = seats.words.unwrap_or("");
    if !are_table_words(rt.alloc(), words)? {
        return Err(Failure::NoTableWords(words));
    }
    let text = text_of(rt, notes, progress, seats.file)?;
    let names = match read_names(rt.alloc(), text.as_slice()) {
        Ok(names) => names,
        Err(error) => return Err(no_list(seats.file, error)),
    };
    let plan = plan_of(names.len(), seats);
    let mut writer = ToWriter::new(notes.output(rt));
    if let Some(files) = seats.so_far {
        let so_far = seated_so_far(rt, notes, progress, seats, files, names.as_slice())?;
        write_session(
            rt.alloc(),
            &so_far,
            plan.tables,
            words.as_bytes(),
            &mut writer,
        )?;
        return Ok(false);
    }
    write_seating(
        rt.alloc(),
        progress,
        names.as_slice(),
        plan,
        words.as_bytes(),
        &mut writer,
    )?;
    Ok(false)
}

/// What is to be drawn for so many players.
fn plan_of(players: usize, seats: &SeatsRequest<'_, '_>) -> Plan
    requires some { 4 ≤ players }
    requires few { players ≤ 400 }
    ensures tables { result.tables ≡ players / 4 }
    ensures sessions { result.sessions ≡ min seats.now.sessions 32 }
    ensures seed { result.seed ≡ seats.now.seed }
{
    Plan {
        tables: (players / 4) as u16,
        sessions: seats.sessions.min(u32::from(MOST_SESSIONS)) as u16,
        seed: u64::from(seats.seed),
    }
}

/// Writes the games of the sessions, in each of which each player sits once, and what can be said of them.
fn write_seating<'a, R: Eprint + Clock, W: Sink>(
    alloc: Global,
    progress: &Progress<'_, R>,
    names: &[Name],
    plan: Plan,
    words: &[u8],
    writer: &mut W,
) -> Result<(), Failure<'a>>
    requires { 0 < plan.tables }
    ensures { let texts = map (λ name. name.bytes) names.now in
        IfOk result (λ _. (games : List Table) × IsSeating plan.tables plan.sessions games
        × WritesAll ⟦<W as Sink>⟧ writer.old writer.new
        (games_text texts plan.tables words.now 0 games ++ notes_text texts games (4 * plan.tables))) }
{
    let games = drawn(alloc, progress, plan)?;
    let text = seating_text(alloc, names, plan.tables, words, games.as_slice())?;
    progress.wipe();
    match write_all(writer, text.as_slice()) {
        Ok(()) => Ok(()),
        Err(fault) => Err(Failure::Explained(fault)),
    }
}

/// The games that are drawn, and how far the search for them is, as it goes.
fn drawn<R: Eprint + Clock>(
    alloc: Global,
    progress: &Progress<'_, R>,
    plan: Plan,
) -> Result<Vec<Table>, AllocError>
    ensures { IfOk result (λ games. IsSeating plan.tables plan.sessions games.items) }
{
    let mut drawing = Drawing::begin(alloc, plan)?;
    for _round in 0..MOST_ROUNDS {
        if !drawing.improve() {
            break;
        }
        progress.searched(drawing.hundredths());
    }
    drawing.finish(alloc)
}

/// Whether words say rules of a table, or nothing, beside a session, a table and four names.
fn are_table_words(alloc: Global, words: &str) -> Result<bool, AllocError> {
    let mut line = Vec::from_slice(alloc, b"1 2 3 4 session=1 at=1 ")?;
    line.extend_from_slice(words.as_bytes())?;
    Ok(read_game(Rules::One, line.as_slice()).is_some())
}

/// That a file is no list of names.
fn no_list<'a>(file: &'a str, error: ListError) -> Failure<'a> {
    match error {
        ListError::Fault(fault) => Failure::NoList { file, fault },
        ListError::Memory => Failure::Fault(ScoreFault::Memory),
    }
}

/// The text of a file, or of standard input.
fn text_of<'a, R: Input + Eprint + Files + Clock + AllocGlobal>(
    rt: &R,
    notes: &Notes<'a>,
    progress: &Progress<'_, R>,
    file: &'a str,
) -> Result<Vec<u8>, Failure<'a>> {
    if is_input(file) {
        return read_list(
            rt.alloc(),
            file,
            notes.text(progress, "standard input", rt.reader()),
        );
    }
    read_list(
        rt.alloc(),
        file,
        notes.text(progress, file, open_file(rt, notes, file)?),
    )
}

/// All that a reader gives, unless it is too much for a list of names.
fn read_list<'a, T: Read + Drop>(
    alloc: Global,
    file: &'a str,
    mut stream: T,
) -> Result<Vec<u8>, Failure<'a>> {
    let mut text = Vec::new(alloc);
    let mut buffer = [0u8; 4096];
    for _ in 0..MOST_LIST {
        match stream.read(&mut buffer) {
            Ok(0) => return Ok(text),
            Ok(count) => text.extend_from_slice(&buffer[..count])?,
            Err(_) => return Err(Failure::Explained(DeskFault::Read)),
        }
        if text.len() > MOST_LIST {
            break;
        }
    }
    Err(Failure::NoList {
        file,
        fault: ListFault::TooMany,
    })
}
