//! The command `standings`: the players of a tournament by the games of files.
ghost use Rattle.std.specs.Prelude.{◌≡◌};
ghost use Rattle.riichi_desk.specs.Standing as spec;

use crate::failure::Failure;
use crate::files::text_of;
use crate::noted::Notes;
use crate::progress::Progress;
use desk_cli::{StandingsForm, StandingsRequest, TieWord};
use desk_io::ToWriter;
use desk_lines::write_all;
use desk_score::ScoreFault;
use desk_standings::{
    EndedGame, Hall, Standing, StandingsFault, TieBreak, Tournament, Trouble, Why, judge_texts,
};
use riichi_hand::Rules;
use riichi_standings_text::{
    are_alike, standings_json, standings_sheet, standings_table, standings_text,
};
use std::alloc::{AllocError, Global};
use std::io::{Eprint, Input, Print};
use std::rt::Files;
use std::thread::Threads;
use std::time::Clock;

/// Prints the standings of a tournament. Names that may be one player's are told on standard error.
pub fn answer_standings<
    'a,
    R: Input + Print + Eprint + Files + Clock + Threads + Sync + AllocGlobal,
>(
    rt: &R,
    notes: &Notes<'a>,
    progress: &Progress<'_, R>,
    asked: &StandingsRequest<'_, 'a>,
) -> Result<bool, Failure<'a>> {
    let hall = hall_of(rt, notes, progress, asked.rules, asked.files, asked.workers)?;
    let list = list_of(&hall, asked.ties)?;
    let tournament = hall.tournament();
    tell_alike(rt, tournament.names());
    let text = text_in(asked.form, rt.alloc(), tournament, list.as_slice())?;
    let mut writer = ToWriter::new(notes.output(rt));
    match write_all(&mut writer, text.as_slice()) {
        Ok(()) => Ok(false),
        Err(fault) => Err(Failure::Explained(fault)),
    }
}

/// The players by their places, where the games make standings.
pub fn list_of<'a>(hall: &Hall, ties: TieWord) -> Result<Vec<Standing>, Failure<'a>> {
    match hall.standings(ties_of(ties)) {
        Ok(list) => Ok(list),
        Err(fault) => Err(no_standings(fault)),
    }
}

/// The standings in a form.
fn text_in(
    form: StandingsForm,
    alloc: Global,
    tournament: &Tournament,
    list: &[Standing],
) -> Result<Vec<u8>, AllocError> {
    match form {
        StandingsForm::Words => Ok(standings_text(alloc, tournament, list)?.into_bytes()),
        StandingsForm::Json => Ok(standings_json(alloc, tournament, list)?.into_bytes()),
        StandingsForm::Csv => standings_table(alloc, tournament, list),
        StandingsForm::Sheet => Ok(standings_sheet(alloc, tournament, list)?.into_bytes()),
    }
}

/// What parts equal totals.
fn ties_of(ties: TieWord) -> TieBreak
    ensures { result ≡ spec.ties_of ties }
{
    match ties {
        TieWord::Shared => TieBreak::Shared,
        TieWord::Firsts => TieBreak::Firsts,
        TieWord::Best => TieBreak::Best,
    }
}

/// Why the games make no standings.
fn no_standings<'a>(fault: StandingsFault) -> Failure<'a> {
    match fault {
        StandingsFault::FewerTables(session) => Failure::FewerTables(session),
        StandingsFault::Memory => Failure::Fault(ScoreFault::Memory),
        _ => Failure::Fault(ScoreFault::Range),
    }
}

/// The games of files, so many of which are judged side by side. What is at fault is that of the first file that has a fault.
pub fn hall_of<'a, R: Input + Eprint + Files + Clock + Threads + Sync + AllocGlobal>(
    rt: &R,
    notes: &Notes<'a>,
    progress: &Progress<'_, R>,
    given: Rules,
    files: &[&'a str],
    workers: u32,
) -> Result<Hall, Failure<'a>> {
    let mut texts = Vec::new(rt.alloc());
    for file in files {
        let text = text_of(rt, notes, progress, *file)?;
        if texts.push(text).is_err() {
            return Err(Failure::Fault(ScoreFault::Memory));
        }
    }
    let mut hall = Hall::new(rt.alloc());
    let mut names = files.iter();
    for part in texts.as_slice().chunks(workers.max(1) as usize) {
        for judged in judge_texts(rt, rt.alloc(), given, part)? {
            let file = names.next().copied().unwrap_or("");
            take_judged(&mut hall, file, &judged)?;
        }
    }
    Ok(hall)
}

/// Takes the games of a file.
fn take_judged<'a>(
    hall: &mut Hall,
    file: &'a str,
    judged: &Result<Vec<EndedGame>, Trouble>,
) -> Result<(), Failure<'a>> {
    let trouble = match judged {
        Err(trouble) => *trouble,
        Ok(games) => match hall.take_games(games.as_slice()) {
            Ok(()) => return Ok(()),
            Err(trouble) => trouble,
        },
    };
    Err(match trouble.why {
        Why::Memory => Failure::Fault(ScoreFault::Memory),
        _ => Failure::NoTournament { file, trouble },
    })
}

/// Tells the names that may be one player's, each with those before it.
fn tell_alike<R: Eprint>(rt: &R, names: &[String]) {
    for (number, name) in names.iter().enumerate() {
        tell_like(rt, &names[..number], name.as_str());
    }
}

/// Tells the names that are like one.
fn tell_like<R: Eprint>(rt: &R, names: &[String], own: &str) {
    for name in names {
        if are_alike(name.as_str(), own) {
            let other = name.as_str();
            let _ = eprintln!(rt; "riichi_desk: `{other}` and `{own}` may be one player");
        }
    }
}
