//! The command `game`: texts of games, each by itself.
ghost use Rattle.std.specs.Prelude.{◌≡◌, ℕ, List, true, false, IfOk, length, nat_lt};
ghost use Rattle.riichi_desk.specs.Games as spec;

use crate::failure::Failure;
use crate::files::{is_input, open_file};
use crate::noted::Notes;
use crate::progress::{Progress, Terminals};
use desk_cli::{GameForm, GameManner};
use desk_game_hints::hinted_games_text;
use desk_games::{GamesForm, games_text_with};
use desk_io::{FromReader, Sink, Source, ToWriter};
use desk_lines::DeskReport;
use std::io::{Eprint, Input, Print};
use std::rt::Files;
use std::time::Clock;

/// Answers texts of games on standard output, those of files or of standard input: whether a line is refused.
pub fn answer_games<'a, R: Input + Print + Eprint + Files + Clock>(
    rt: &R,
    notes: &Notes<'a>,
    progress: &Progress<'_, R>,
    files: Option<&[&'a str]>,
    manner: GameManner,
    is_hinted: bool,
) -> Result<bool, Failure<'a>> {
    let mut writer = ToWriter::new(notes.output(rt));
    match files {
        None | Some([]) => answer_file(rt, notes, progress, "-", manner, is_hinted, &mut writer),
        Some(files) => answer_files(rt, notes, progress, files, manner, is_hinted, &mut writer),
    }
}

/// Answers the texts of files, one after another. The first that can't be opened or read ends it.
fn answer_files<'a, R: Input + Eprint + Files + Clock, W: Sink>(
    rt: &R,
    notes: &Notes<'a>,
    progress: &Progress<'_, R>,
    files: &[&'a str],
    manner: GameManner,
    is_hinted: bool,
    writer: &mut W,
) -> Result<bool, Failure<'a>>
    ensures { IfOk result (λ is_refused. (texts : List (List ℕ)) × (length texts ≡ length files.now)
        × spec.AnswersAllGames ⟦<W as Sink>⟧ manner is_hinted writer.old texts writer.new is_refused) }
{
    let mut is_refused = false;
    for file in files {
        is_refused |= answer_file(rt, notes, progress, *file, manner, is_hinted, writer)?;
    }
    Ok(is_refused)
}

/// Answers the text of a file, or of standard input.
fn answer_file<'a, R: Input + Eprint + Files + Clock, W: Sink>(
    rt: &R,
    notes: &Notes<'a>,
    progress: &Progress<'_, R>,
    file: &'a str,
    manner: GameManner,
    is_hinted: bool,
    writer: &mut W,
) -> Result<bool, Failure<'a>>
    ensures { IfOk result (λ is_refused. (text : List ℕ)
        × spec.AnswersGames ⟦<W as Sink>⟧ manner is_hinted writer.old writer.new text is_refused) }
{
    if is_input(file) {
        let mut reader = FromReader::new(notes.text(progress, "standard input", rt.reader()));
        return answer_source(manner, is_hinted, &mut reader, writer);
    }
    let mut reader = FromReader::new(notes.text(progress, file, open_file(rt, notes, file)?));
    answer_source(manner, is_hinted, &mut reader, writer)
}

/// Answers the text that a source gives, with hints or without.
fn answer_source<'a, S: Source, W: Sink>(
    manner: GameManner,
    is_hinted: bool,
    reader: &mut S,
    writer: &mut W,
) -> Result<bool, Failure<'a>>
    ensures { IfOk result (λ is_refused. (text : List ℕ)
        × spec.AnswersGames ⟦<W as Sink>⟧ manner is_hinted writer.old writer.new text is_refused) }
{
    if is_hinted {
        answer_hinted(manner, reader, writer)
    } else {
        answer_plain(manner, reader, writer)
    }
}

fn answer_plain<'a, S: Source, W: Sink>(
    manner: GameManner,
    reader: &mut S,
    writer: &mut W,
) -> Result<bool, Failure<'a>>
    ensures { IfOk result (λ is_refused. (text : List ℕ)
        × spec.AnswersGames ⟦<W as Sink>⟧ manner false writer.old writer.new text is_refused) }
{
    let form = form_of(manner.form);
    match games_text_with(manner.rules, manner.is_numbered, form, reader, writer) {
        Ok(report) => Ok(has_refusal(&report.counts)),
        Err(fault) => Err(Failure::Explained(fault)),
    }
}

fn answer_hinted<'a, S: Source, W: Sink>(
    manner: GameManner,
    reader: &mut S,
    writer: &mut W,
) -> Result<bool, Failure<'a>>
    ensures { IfOk result (λ is_refused. (text : List ℕ)
        × spec.AnswersGames ⟦<W as Sink>⟧ manner true writer.old writer.new text is_refused) }
{
    let form = form_of(manner.form);
    match hinted_games_text(manner.rules, manner.is_numbered, form, reader, writer) {
        Ok(report) => Ok(has_refusal(&report.counts)),
        Err(fault) => Err(Failure::Explained(fault)),
    }
}

/// Whether it is said below a refused line what is wrong: with reasons, and where the answers alone are shown on a terminal.
pub fn is_hinted(manner: GameManner, terminals: Terminals) -> bool
    ensures { result ≡ spec.has_hints manner.form terminals.has_output }
{
    matches!(manner.form, GameForm::Explained)
        || matches!(manner.form, GameForm::Answers) && terminals.has_output
}

/// The form of answers that the command line asks for.
fn form_of(form: GameForm) -> GamesForm
    ensures { result ≡ spec.form_of form }
{
    match form {
        GameForm::Answers => GamesForm::Answers,
        GameForm::Explained => GamesForm::Explained,
        GameForm::Objects => GamesForm::Objects,
        GameForm::Sheet => GamesForm::Sheet,
    }
}

/// Whether a line of a text is refused.
fn has_refusal(counts: &DeskReport) -> bool
    ensures { result ≡ nat_lt 0 counts.now.refused }
{
    counts.refused > 0
}
