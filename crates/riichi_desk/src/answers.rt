//! Carries out what the command line asks for.
ghost use Rattle.std.specs.Prelude.{◌≡◌, ◌⊎◌, ℕ, List, false, nat_lt, IfOk, OnOk, OnErr};
ghost use Rattle.desk_lines.specs.Lines.{lines};
ghost use Rattle.desk_lines.specs.Scripts.{script_report};
ghost use Rattle.desk_lines.specs.Streams.{GivesAll, WritesAll};
ghost use Rattle.desk_lines.specs.Telling.{text_of};
ghost use Rattle.desk_script.specs.OnlyReplay.{IsOnlyReplay};
ghost use Rattle.desk_script.specs.Replay.{Replays};
ghost use Rattle.riichi_desk.specs.Failures.{EndsWith, IsReportedBy, IsUnwritten};
ghost use Rattle.riichi_desk.specs.Outcomes.{IsCarriedOut, TellsUnknown, TellsWaits};

use crate::beside::tell_beside;
use crate::codes::print_codes;
use crate::failure::{Failure, report};
use crate::files::{length_of, open_file};
use crate::games::{answer_games, is_hinted};
use crate::lines::{answer_lines, record_line};
use crate::needs::answer_need;
use crate::noted::Notes;
use crate::progress::{Progress, Terminals};
use crate::rules::print_rules;
use crate::scoring::{Scoring, score_files};
use crate::seats::answer_seats;
use crate::standings::answer_standings;
use crate::studies::answer_studies;
use crate::version::print_version;
use crate::yaku::print_yaku;
use clap::error::ErrorKind;
use desk_cli::{CommandName, Lines, Request, commands, nearest_rule, request_of};
use desk_io::{FromReader, Sink, Source, ToWriter};
use desk_lines::{replay_text, waits_answer};
use desk_score::ScoreFault;
use riichi_hand::Rules;
use std::alloc::Global;
use std::env::{self, Env};
use std::io::{self, Eprint, Input, Print};
use std::rt::Files;
use std::thread::Threads;
use std::time::Clock;

/// Reads the words, writes the answer, and returns the exit status: 1 where a line of the answer is a refusal. Where nobody
/// reads the answer any more it ends quietly with 0.
pub fn answer<R: Input + Print + Eprint + Env + Files + Clock + AllocGlobal + Threads + Sync>(
    rt: &R,
    terminals: Terminals,
) -> u8 {
    let words = match words_of(rt) {
        Ok(words) => words,
        Err(failure) => return report(rt, &failure),
    };
    let notes = Notes::new();
    end_with(
        rt,
        &answer_words(rt, terminals, &notes, words.as_slice()),
        &notes,
    )
}

/// The exit status: 1 where a line is refused. A failure is reported.
fn end_with<R: Print + Eprint>(rt: &R, outcome: &Result<bool, Failure<'_>>, notes: &Notes<'_>) -> u8
    ensures { EndsWith outcome.now result }
{
    match outcome {
        Ok(is_refused) => u8::from(*is_refused),
        Err(failure) => report_with(rt, failure, notes),
    }
}

/// Reports a failure, and below it the stream that failed, in the system's words.
fn report_with<R: Print + Eprint>(rt: &R, failure: &Failure<'_>, notes: &Notes<'_>) -> u8
    ensures { IsReportedBy failure.now result ⊎ (IsUnwritten failure.now × (result ≡ 0)) }
{
    if failure.is_write() && notes.is_unread() {
        return 0;
    }
    let status = report(rt, failure);
    if failure.is_of_stream() {
        notes.tell(rt);
    }
    status
}

fn words_of<R: Env + AllocGlobal>(rt: &R) -> Result<Vec<String>, Failure<'static>> {
    match env::args(rt) {
        Ok(words) => Ok(words.collect::<Vec<String>>(rt.alloc())?),
        Err(error) => Err(match error.kind() {
            io::ErrorKind::OutOfMemory => Failure::Fault(ScoreFault::Memory),
            _ => Failure::Text,
        }),
    }
}

/// Carries out what the words ask for; the first is the name of the program.
fn answer_words<'a, R: Input + Print + Eprint + Files + Clock + Threads + Sync + AllocGlobal>(
    rt: &R,
    terminals: Terminals,
    notes: &Notes<'a>,
    words: &'a [String],
) -> Result<bool, Failure<'a>> {
    let matches = match commands(rt.alloc())?.try_get_matches_from(words) {
        Ok(matches) => matches,
        Err(error) => match error.kind() {
            ErrorKind::DisplayVersion => return print_version(rt, notes, &error),
            ErrorKind::DisplayHelp => return print_help(rt, notes, &error),
            _ => return Err(Failure::from(error)),
        },
    };
    let Some(request) = request_of(&matches) else {
        return Err(Failure::Text);
    };
    let progress = progress_of(rt, terminals, &request);
    let answered = answer_request(rt, terminals, notes, &progress, &request);
    progress.wipe();
    answered
}

/// What shows how far the answers are. Where those to lines come to the terminal too, they show it themselves; those of a score
/// come once all is judged.
fn progress_of<'r, R: Eprint + Clock + Files>(
    rt: &'r R,
    terminals: Terminals,
    request: &Request<'_, '_>,
) -> Progress<'r, R> {
    match request {
        Request::Lines {
            lines: Lines::Files(files),
            is_quiet: false,
            ..
        } if terminals.has_errors && !terminals.has_output => {
            Progress::begin(rt, length_of(rt, *files))
        }
        Request::Score {
            files,
            is_quiet: false,
            ..
        } if terminals.has_errors => Progress::begin(rt, length_of(rt, *files)),
        Request::Seats(seats) if terminals.has_errors && !seats.is_quiet => {
            Progress::begin(rt, None)
        }
        _ => Progress::none(rt),
    }
}

/// Carries out a request.
fn answer_request<'a, R: Input + Print + Eprint + Files + Clock + Threads + Sync + AllocGlobal>(
    rt: &R,
    terminals: Terminals,
    notes: &Notes<'a>,
    progress: &Progress<'_, R>,
    request: &Request<'_, 'a>,
) -> Result<bool, Failure<'a>>
    ensures { IsCarriedOut request.now result }
{
    match request {
        Request::Waits(hand) => print_waits(rt, notes, terminals, *hand),
        Request::Lines { lines, manner, .. } => {
            answer_lines(rt, notes, progress, terminals, *lines, *manner)
        }
        Request::Study { lines, manner } => {
            let mut writer = ToWriter::new(notes.output(rt));
            answer_studies(rt, notes, progress, *lines, *manner, &mut writer)
        }
        Request::HelpCodes => print_codes(rt, notes),
        Request::HelpRules => print_rules(rt, notes),
        Request::HelpYaku => print_yaku(rt, notes),
        Request::UnknownRules(word) => unknown_rule(rt.alloc(), *word),
        Request::UnknownPlace(word) => Err(Failure::UnknownPlace(*word)),
        Request::Games { files, manner } => {
            let is_hinted = is_hinted(*manner, terminals);
            answer_games(rt, notes, progress, *files, *manner, is_hinted)
        }
        Request::Need(need) => answer_need(rt, notes, progress, need),
        Request::Seats(seats) => answer_seats(rt, notes, progress, seats),
        Request::Standings(asked) => answer_standings(rt, notes, progress, asked),
        Request::Replay(file) => replay_file(rt, notes, progress, *file),
        Request::Score {
            files,
            workers,
            rules,
            is_numbered,
            ..
        } => {
            let scoring = Scoring {
                workers: *workers,
                rules: *rules,
                is_numbered: *is_numbered,
            };
            score_files(rt, notes, progress, *files, scoring)
        }
    }
}

/// That no rule has this name, and which one is near.
fn unknown_rule<'a>(alloc: Global, word: &'a str) -> Result<bool, Failure<'a>>
    ensures { TellsUnknown word.now result }
{
    let word = match word.split_once('+') {
        Some((first, _)) => first,
        None => word,
    };
    let nearest = nearest_rule(alloc, word)?;
    Err(Failure::UnknownRule { word, nearest })
}

/// What a print answers: no line is refused, or the failure of standard output, which is noted.
pub fn printed<'a>(notes: &Notes<'a>, print: io::Result<()>) -> Result<bool, Failure<'a>>
    ensures printed { OnOk print (result ≡ Ok false) }
    ensures failed { OnErr print (result ≡ Err (Failure.Fault ScoreFault.Write)) }
{
    match print {
        Ok(()) => Ok(false),
        Err(error) => {
            notes.output_failed(&error);
            Err(Failure::Fault(ScoreFault::Write))
        }
    }
}

/// Prints the help that clap has made.
fn print_help<'a, R: Print + Eprint>(
    rt: &R,
    notes: &Notes<'a>,
    help: &clap::Error,
) -> Result<bool, Failure<'a>> {
    printed(notes, help.print(rt))
}

/// Prints the waits of a hand, or why it can't be read. On a terminal it says below that what there is to say beside it.
fn print_waits<'a, R: Print + Eprint + AllocGlobal>(
    rt: &R,
    notes: &Notes<'a>,
    terminals: Terminals,
    hand: &str,
) -> Result<bool, Failure<'a>>
    ensures { IfOk result (TellsWaits hand.now) }
{
    let answer = waits_answer(hand.as_bytes());
    let text = answer.text;
    printed(notes, println!(rt; "{text}"))?;
    if terminals.has_errors {
        let line = record_line(rt.alloc(), CommandName::Waits, hand)?;
        tell_beside(rt, Rules::One, answer.refused, line.as_str());
    }
    Ok(answer.refused)
}

/// Answers the script of a file on standard output.
fn replay_file<'a, R: Print + Eprint + Files + Clock + AllocGlobal>(
    rt: &R,
    notes: &Notes<'a>,
    progress: &Progress<'_, R>,
    file: &'a str,
) -> Result<bool, Failure<'a>> {
    let mut reader = FromReader::new(notes.text(progress, file, open_file(rt, notes, file)?));
    let mut writer = ToWriter::new(notes.output(rt));
    replay_reader(rt.alloc(), &mut reader, &mut writer)
}

/// Answers the script that a reader gives: whether a line of the answer is a refusal.
fn replay_reader<'a, S: Source, W: Sink>(
    alloc: Global,
    reader: &mut S,
    writer: &mut W,
) -> Result<bool, Failure<'a>>
    ensures { IfOk result (λ is_refused. (text : List ℕ) × (answers : List (List ℕ))
        × GivesAll ⟦<S as Source>⟧ reader.old reader.new text
        × Replays (lines text) answers
        × IsOnlyReplay (lines text) answers
        × WritesAll ⟦<W as Sink>⟧ writer.old writer.new (text_of answers)
        × (is_refused ≡ nat_lt 0 (script_report answers).refused)) }
{
    let report = replay_text(alloc, reader, writer)?;
    Ok(report.refused > 0)
}
