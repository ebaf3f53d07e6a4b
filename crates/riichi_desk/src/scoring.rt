//! The command `score`: files of hands, each a table.
ghost use Rattle.std.specs.Prelude.{◌≡◌, ◌<◌, ℕ, List, None, Some, Err, IfOk, IfErr, length, nat_lt, if◌then◌else◌};
ghost use Rattle.desk_cli.specs.Requests.{texts};
ghost use Rattle.desk_lines.specs.Streams.{WritesAll};
ghost use Rattle.desk_score.specs.Score.{AllGive, score_by, score_report, score_slips};
ghost use Rattle.desk_score.specs.declared.score_fault.ScoreFault.{ScoreFault};
ghost use Rattle.riichi_desk.specs.Failures.{IsLimited, limit_fault};

use crate::failure::Failure;
use crate::files::open_file;
use crate::noted::{Notes, Watched};
use crate::progress::Progress;
use crate::slips::tell_slip;
use desk_io::{FromReader, Sink, Source, ToWriter};
use desk_lines::Rules;
use desk_notes::{Looked, WinnersWords, look_through};
use desk_score::{ScoreFault, ScoreReport, score_text_with};
use std::fs;
use std::io::{Eprint, Print};
use std::rt::Files;
use std::thread::Threads;
use std::time::Clock;

/// The most files. That there are more is reported before any is opened.
const MOST_FILES: usize = 64;

/// The most hands of a file.
const MOST_HANDS: u64 = 1_000_000;

/// The most bytes of a file that is read twice to look for two winners: an evening has a fiftieth of it.
const MOST_TWICE: u64 = 1 << 20;

/// How tables are answered.
#[derive(Clone, Copy)]
pub struct Scoring {
    /// By how many workers.
    pub workers: u32,
    /// Under which rules, where a table sets none.
    pub rules: Rules,
    /// Whether with the names of the files and the numbers of their lines.
    pub is_numbered: bool,
}

/// A limit that a score met.
#[derive(Clone, Copy, Debug, PartialEq, Eq)]
pub enum ScoreLimit<'a> {
    /// There are so many files, which are too many.
    Files(usize),
    /// A file has too many hands: this one, where it is known which.
    Hands(Option<&'a str>),
    /// There is no memory for the answers.
    Memory,
}

impl ScoreLimit<'_> {
    /// The fault that it is.
    pub fn fault(&self) -> ScoreFault
        ensures { result ≡ limit_fault self.now }
    {
        match self {
            ScoreLimit::Files(_) | ScoreLimit::Hands(_) => ScoreFault::Range,
            ScoreLimit::Memory => ScoreFault::Memory,
        }
    }
}

/// Answers the record lines of files on standard output, table by table: whether a line is refused.
pub fn score_files<'a, R: Files + Print + Eprint + Clock + Threads + Sync + AllocGlobal>(
    rt: &R,
    notes: &Notes<'a>,
    progress: &Progress<'_, R>,
    files: &[&'a str],
    scoring: Scoring,
) -> Result<bool, Failure<'a>>
    ensures { 64 < length files.now
        → result ≡ Err (Failure.Score (ScoreLimit.Files (length files.now))) }
{
    if are_too_many(files) {
        return Err(Failure::Score(ScoreLimit::Files(files.len())));
    }
    let rules = scoring.rules;
    let outcome = score_opened(rt, notes, progress, files, scoring);
    if outcome.is_ok() {
        tell_all_winners(rt, progress, rules, files);
    }
    limited(rt, rules, files, outcome)
}

/// The same of no more files than tables may be, without what is said of winners.
fn score_opened<'a, R: Files + Print + Eprint + Clock + Threads + Sync + AllocGlobal>(
    rt: &R,
    notes: &Notes<'a>,
    progress: &Progress<'_, R>,
    files: &[&'a str],
    scoring: Scoring,
) -> Result<bool, Failure<'a>> {
    let readers = open_files(rt, notes, progress, files)?;
    let mut writer = ToWriter::new(notes.output(rt));
    let report = score_readers(rt, scoring, files, readers, &mut writer)?;
    for (name, slip) in files.iter().zip(report.slips.as_slice()) {
        tell_slip(progress, *name, slip);
    }
    Ok(is_refused(&report))
}

/// Says of each file which of its wins are paid what the win before them was paid.
fn tell_all_winners<R: Files + Eprint + Clock + AllocGlobal>(
    rt: &R,
    progress: &Progress<'_, R>,
    rules: Rules,
    files: &[&str],
) {
    for file in files {
        tell_winners(rt, progress, rules, *file);
    }
}

/// Whether there are more files than tables may be.
fn are_too_many(files: &[&str]) -> bool
    ensures { result ≡ nat_lt MOST_FILES (length files.now) }
{
    files.len() > MOST_FILES
}

/// Whether a line of any table is refused.
fn is_refused(report: &ScoreReport) -> bool
    ensures { result ≡ nat_lt 0 report.now.counts.refused }
{
    report.counts.refused > 0
}

/// Answers the texts that readers give, each a table.
fn score_readers<'a, S: Source + Drop, W: Sink, R: Threads + Sync + AllocGlobal>(
    rt: &R,
    scoring: Scoring,
    files: &[&str],
    readers: Vec<S>,
    writer: &mut W,
) -> Result<ScoreReport, Failure<'a>>
    ensures ok { let names = if scoring.is_numbered then Some (texts files.now) else None in
        IfOk result (λ report. (texts : List (List ℕ))
        × AllGive ⟦<S as Source>⟧ readers.items texts
        × WritesAll ⟦<W as Sink>⟧ writer.old writer.new (score_by names scoring.rules texts)
        × (report.counts ≡ score_report scoring.rules texts)
        × (report.slips.items ≡ score_slips scoring.rules texts)) }
    ensures failed { IfErr result
        (λ failure. (fault : ScoreFault) × (failure ≡ Failure.Fault fault)) }
{
    let Scoring {
        workers,
        rules,
        is_numbered,
    } = scoring;
    let names = if is_numbered { Some(files) } else { None };
    Ok(score_text_with(rt, rt.alloc(), rules, names, readers, workers, writer)?)
}

/// The outcome of a score, a failure by the limit that it met where it met one: the file is looked for that has more hands than it
/// may.
fn limited<'a, R: Files + AllocGlobal>(
    rt: &R,
    rules: Rules,
    files: &[&'a str],
    outcome: Result<bool, Failure<'a>>,
) -> Result<bool, Failure<'a>>
    ensures { IsLimited outcome.entry result }
{
    match outcome {
        Err(Failure::Fault(ScoreFault::Range)) => {
            let file = longest_file(rt, rules, files);
            Err(Failure::Score(ScoreLimit::Hands(file)))
        }
        Err(Failure::Fault(ScoreFault::Memory)) => Err(Failure::Score(ScoreLimit::Memory)),
        other => other,
    }
}

/// The first file that has more hands than a table may.
fn longest_file<'a, R: Files + AllocGlobal>(
    rt: &R,
    rules: Rules,
    files: &[&'a str],
) -> Option<&'a str> {
    for file in files {
        if has_too_many(rt, rules, *file) {
            return Some(*file);
        }
    }
    None
}

/// Whether a file has more hands than a table may.
fn has_too_many<R: Files + AllocGlobal>(rt: &R, rules: Rules, file: &str) -> bool {
    look_at(rt, rules, file).is_some_and(|looked| looked.counts.answered > MOST_HANDS)
}

/// Says which wins of a file are paid the counters and sticks that the win before them was paid, unless it is a long one.
fn tell_winners<R: Files + Eprint + Clock + AllocGlobal>(
    rt: &R,
    progress: &Progress<'_, R>,
    rules: Rules,
    file: &str,
) {
    if !is_short(rt, file) {
        return;
    }
    if let Some(looked) = look_at(rt, rules, file) {
        for line in looked.paid_again.as_slice() {
            let words = WinnersWords {
                name: file,
                line: *line,
            };
            let _ = eprintln!(progress.wiped(); "{words}");
        }
    }
}

/// Whether a file is no longer than those that are read twice.
fn is_short<R: Files>(rt: &R, file: &str) -> bool {
    match fs::metadata(rt, file) {
        Ok(told) => told.len() <= MOST_TWICE,
        Err(_) => false,
    }
}

/// What is seen of a file that is read once more. Of a pipe, which gives its text once, that is nothing.
fn look_at<R: Files + AllocGlobal>(rt: &R, rules: Rules, file: &str) -> Option<Looked> {
    if !fs::metadata(rt, file).ok()?.is_file() {
        return None;
    }
    let stream = fs::open(rt, file).ok()?;
    look_through(rt.alloc(), rules, &mut FromReader::new(stream)).ok()
}

/// Opens the files in the order given. The first that can't be opened ends it.
fn open_files<'n, 'a, R: Files + Eprint + Clock + AllocGlobal>(
    rt: &R,
    notes: &'n Notes<'a>,
    progress: &'n Progress<'n, R>,
    files: &[&'a str],
) -> Result<Vec<FromReader<Watched<'n, 'a, R, R::File>>>, Failure<'a>> {
    let mut readers = Vec::new(rt.alloc());
    for file in files {
        let reader = notes.lines(progress, *file, open_file(rt, notes, *file)?);
        if readers.push(FromReader::new(reader)).is_err() {
            return Err(Failure::Fault(ScoreFault::Memory));
        }
    }
    Ok(readers)
}
