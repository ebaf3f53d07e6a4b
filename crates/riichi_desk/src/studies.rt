//! The command `study`: questions of standard input, of files, or of the command line.
ghost use Rattle.std.specs.Prelude.{◌≡◌, ℕ, List, IfOk, length, string_bytes};
ghost use Rattle.desk_lines.specs.Streams.{GivesAll};
ghost use Rattle.riichi_desk.specs.Studies as spec;

use crate::failure::Failure;
use crate::files::{is_input, open_file, text_of};
use crate::lines::{each_line, one_line};
use crate::noted::Notes;
use crate::progress::Progress;
use desk_cli::{Lines, StudyForm, StudyManner};
use desk_io::{FromReader, Sink, Source};
use desk_lines::SuitMemo;
use desk_study::{StudiesForm, StudiesManner, study_text, study_text_by};
use std::alloc::Global;
use std::io::{Eprint, Input};
use std::rt::Files;
use std::thread::Threads;
use std::time::Clock;

/// Answers questions in a manner: whether a line is refused.
pub fn answer_studies<
    'a,
    R: Input + Eprint + Files + Clock + Threads + Sync + AllocGlobal,
    W: Sink,
>(
    rt: &R,
    notes: &Notes<'a>,
    progress: &Progress<'_, R>,
    lines: Lines<'_, 'a>,
    manner: StudyManner,
    writer: &mut W,
) -> Result<bool, Failure<'a>>
    ensures answered { IfOk result (spec.AnswersQuestions ⟦<W as Sink>⟧
        (spec.manner_of manner) writer.old writer.new lines.entry) }
    ensures told { IfOk result (spec.TellsStudied lines.entry) }
{
    match lines {
        Lines::Files(files) => answer_files(rt, notes, progress, files, manner, writer),
        Lines::Each(words) => {
            answer_text(rt, each_line(rt.alloc(), words)?.as_bytes(), manner, writer)
        }
        Lines::One(words) => answer_text(
            rt,
            one_line(rt.alloc(), words)?.as_bytes(),
            manner,
            writer,
        ),
        Lines::Input | Lines::Record { .. } => {
            answer_file(rt, notes, progress, "-", manner, writer)
        }
    }
}

/// Answers the questions of files, one after another. The first that can't be opened or read ends it.
fn answer_files<'a, R: Input + Eprint + Files + Clock + Threads + Sync + AllocGlobal, W: Sink>(
    rt: &R,
    notes: &Notes<'a>,
    progress: &Progress<'_, R>,
    files: &[&'a str],
    manner: StudyManner,
    writer: &mut W,
) -> Result<bool, Failure<'a>>
    ensures { IfOk result (λ is_refused. (texts : List (List ℕ)) × (length texts ≡ length files.now)
        × spec.AnswersAllStudies ⟦<W as Sink>⟧ (spec.manner_of manner)
        writer.old texts writer.new is_refused) }
{
    let mut is_refused = false;
    for file in files {
        is_refused |= answer_file(rt, notes, progress, *file, manner, writer)?;
    }
    Ok(is_refused)
}

/// Answers the questions of a file, or of standard input. Where several threads may, the text is read whole first.
fn answer_file<'a, R: Input + Eprint + Files + Clock + Threads + Sync + AllocGlobal, W: Sink>(
    rt: &R,
    notes: &Notes<'a>,
    progress: &Progress<'_, R>,
    file: &'a str,
    manner: StudyManner,
    writer: &mut W,
) -> Result<bool, Failure<'a>>
    ensures { IfOk result (λ is_refused. (text : List ℕ)
        × spec.AnswersStudies ⟦<W as Sink>⟧ (spec.manner_of manner)
        writer.old writer.new text is_refused) }
{
    if manner.workers.is_some() {
        let text = text_of(rt, notes, progress, file)?;
        return answer_text(rt, text.as_slice(), manner, writer);
    }
    if is_input(file) {
        let mut reader = FromReader::new(notes.text(progress, "standard input", rt.reader()));
        return answer_source(rt.alloc(), manner, &mut reader, writer);
    }
    let mut reader = FromReader::new(notes.text(progress, file, open_file(rt, notes, file)?));
    answer_source(rt.alloc(), manner, &mut reader, writer)
}

/// Answers the questions of a text, by as many threads as there may be.
fn answer_text<'a, R: Threads + Sync + AllocGlobal, W: Sink>(
    rt: &R,
    text: &[u8],
    manner: StudyManner,
    writer: &mut W,
) -> Result<bool, Failure<'a>>
    ensures { IfOk result (spec.AnswersStudies ⟦<W as Sink>⟧ (spec.manner_of manner)
        writer.old writer.new text.now) }
{
    let workers = manner.workers.unwrap_or(1) as usize;
    match study_text_by(
        rt,
        rt.alloc(),
        workers,
        studies_manner(manner),
        text,
        writer,
    ) {
        Ok(report) => Ok(report.refused > 0),
        Err(fault) => Err(Failure::Explained(fault)),
    }
}

/// Answers the questions that a source gives.
fn answer_source<'a, S: Source, W: Sink>(
    alloc: Global,
    manner: StudyManner,
    reader: &mut S,
    writer: &mut W,
) -> Result<bool, Failure<'a>>
    ensures { IfOk result (λ is_refused. (text : List ℕ)
        × GivesAll ⟦<S as Source>⟧ reader.old reader.new text
        × spec.AnswersStudies ⟦<W as Sink>⟧ (spec.manner_of manner)
        writer.old writer.new text is_refused) }
{
    let mut rows = SuitMemo::in_value();
    match study_text(alloc, &mut rows, studies_manner(manner), reader, writer) {
        Ok(report) => Ok(report.refused > 0),
        Err(fault) => Err(Failure::Explained(fault)),
    }
}

/// The manner that the command line asks for.
fn studies_manner(manner: StudyManner) -> StudiesManner
    ensures { result ≡ spec.manner_of manner }
{
    StudiesManner {
        form: form_of(manner.form),
        is_numbered: manner.is_numbered,
    }
}

/// The form of answers that the command line asks for.
fn form_of(form: StudyForm) -> StudiesForm
    ensures { result ≡ spec.study_form_of form }
{
    match form {
        StudyForm::Answers => StudiesForm::Answers,
        StudyForm::Explained => StudiesForm::Explained,
        StudyForm::Objects => StudiesForm::Objects,
    }
}
