//! What a line of a script asks.
ghost use Rattle.std.specs.Prelude.{◌≡◌, Some, IfOk, OnErr, OnOk};
ghost use Rattle.desk_script.specs.Said.{said_of};
ghost use Rattle.desk_script.specs.Asked.{asked_by, names_by, asked_of_command, names_of_command, asked_at, piece_of, refused, opens};

use crate::action::Action;
use crate::command::{Command, read_command};
use crate::line_request::LineRequest;
use crate::names::Names;
use crate::refusal::Refusal;
use crate::told::Told;
use crate::words::is_blank;
use desk_core::{Event, Piece, Ticket};
use riichi_hand::{Job, Rules, read_line};
use riichi_shape::RowSource;
use std::alloc::AllocError;

/// The longest line of a script.
const MOST_LINE: usize = 8_192;

/// What a line asks, after the names that are open. The name of a table that it opens is added. Memory is wanted
/// for a new name alone, and where there is none the names stay.
#[tactic(auto, unfolding(crate::specs::Asked::asked_by, crate::specs::Asked::names_by))]
pub(crate) fn ask<S: RowSource>(
    names: &mut Names,
    line: &[u8],
    source: &mut S,
) -> Result<LineRequest, AllocError>
    ensures asked { IfOk result (λ asked. asked ≡ asked_by names.old line.now) }
    ensures names { OnOk result (names.new ≡ names_by names.old line.now) }
    ensures err { OnErr result ((names.new ≡ names.old)
        × (asked_by names.old line.now ≡ opens names.old)) }
{
    if line.len() > MOST_LINE {
        return Ok(refused(Refusal::NoCommand));
    }
    if is_blank(line) {
        return Ok(LineRequest::Told(Told::Nothing));
    }
    match read_command(line) {
        None => Ok(refused(Refusal::NoCommand)),
        Some(command) => ask_command(names, &command, source),
    }
}

/// What a command asks.
fn ask_command<S: RowSource>(
    names: &mut Names,
    command: &Command<'_>,
    source: &mut S,
) -> Result<LineRequest, AllocError>
    ensures asked { IfOk result (λ asked. asked
        ≡ asked_of_command names.old (Some (said_of command.now))) }
    ensures names { OnOk result (names.new
        ≡ names_of_command names.old (Some (said_of command.now))) }
    ensures err { OnErr result ((names.new ≡ names.old)
        × (asked_of_command names.old (Some (said_of command.now)) ≡ opens names.old)) }
{
    match names.number_of(command.name) {
        Some(table) => Ok(ask_table(table, command.action, command.job_line, source)),
        None => match command.action {
            Action::Open => Ok(match names.open(command.name)? {
                Some(number) => LineRequest::Told(Told::Table(number)),
                None => refused(Refusal::AllOpen),
            }),
            _ => Ok(refused(Refusal::NotOpen)),
        },
    }
}

/// What a command asks of a table that is open.
fn ask_table<S: RowSource>(
    table: u32,
    action: Action,
    job_line: &[u8],
    source: &mut S,
) -> LineRequest
    ensures { result ≡ asked_at table action job_line.now }
{
    match action {
        Action::Open => refused(Refusal::OpenAlready),
        Action::Submit => match read_line(Rules::One, job_line) {
            Ok(Some(job)) => LineRequest::Event(submit(table, &job)),
            Ok(None) => refused(Refusal::NoCommand),
            Err(fault) => refused(Refusal::Record(fault)),
        },
        Action::Arrive { seq } => match read_line(Rules::One, job_line) {
            Ok(Some(job)) => LineRequest::Event(arrive(table, seq, &job, source)),
            Ok(None) => refused(Refusal::NoCommand),
            Err(fault) => refused(Refusal::Record(fault)),
        },
        Action::Close => LineRequest::Event(Event::Close { table }),
        Action::Take => LineRequest::Event(Event::Take { table }),
        Action::Withdraw { seq } => LineRequest::Event(Event::Withdraw(Ticket { table, seq })),
    }
}

fn submit(table: u32, job: &Job) -> Event
    ensures { result ≡ Event.Submit table job.now }
{
    Event::Submit { table, job: *job }
}

fn arrive<S: RowSource>(table: u32, seq: u32, job: &Job, source: &mut S) -> Event
    ensures { result ≡ Event.Arrive (piece_of table seq job.now) }
{
    Event::Arrive(Piece::score_with(source, Ticket { table, seq }, *job))
}

fn refused(refusal: Refusal) -> LineRequest
    ensures { result ≡ refused refusal }
{
    LineRequest::Told(Told::Refused(refusal))
}
