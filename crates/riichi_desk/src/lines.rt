//! Record lines that are answered: those of standard input, of files, or of the command line.
ghost use Rattle.std.specs.Prelude.{◌≡◌, ◌∷◌, ◌++◌, ℕ, List, IfOk, IfErr, length, string_bytes};
ghost use Rattle.desk_cli.specs.Commands.{command_word};
ghost use Rattle.desk_cli.specs.Requests.{texts};
ghost use Rattle.desk_lines.specs.Lines.{lines};
ghost use Rattle.desk_lines.specs.declared.fault.DeskFault.{DeskFault};
ghost use Rattle.riichi_desk.specs.Answering as spec;
ghost use Rattle.riichi_desk.specs.Failures.{IsOfFiles, failure_in};
ghost use Rattle.riichi_desk.specs.Told as told;

use crate::answering::{Answering, has_refusal};
use crate::beside::tell_beside;
use crate::failure::Failure;
use crate::files::{is_input, open_file};
use crate::noted::Notes;
use crate::progress::{Progress, Terminals};
use crate::slips::tell_slip;
use desk_cli::{CommandName, Lines, Manner};
use desk_io::{FromReader, Sink, ToWriter};
use std::alloc::{AllocError, Global};
use std::io::{Eprint, Input, Print, Read};
use std::rt::Files;
use std::thread::Threads;
use std::time::Clock;

/// Answers record lines on standard output: whether a line is refused. Below the answer to one line of a command of its own it is
/// said on a terminal what there is to say beside it.
pub fn answer_lines<'a, R: Input + Print + Eprint + Files + Clock + Threads + Sync + AllocGlobal>(
    rt: &R,
    notes: &Notes<'a>,
    progress: &Progress<'_, R>,
    terminals: Terminals,
    lines: Lines<'_, 'a>,
    manner: Manner,
) -> Result<bool, Failure<'a>>
    ensures { IfOk result (told.TellsRefused manner.rules lines.entry) }
{
    let mut answering = Answering::new(rt.alloc(), manner, ToWriter::new(notes.output(rt)));
    match lines {
        Lines::Input => answering.input(rt, notes, progress),
        Lines::Files(files) => answering.files(rt, notes, progress, files),
        Lines::Each(words) => answering.text(rt, &each_line(rt.alloc(), words)?),
        Lines::One(words) => answering.text(rt, &one_line(rt.alloc(), words)?),
        Lines::Record { job, hand, words } => {
            let mut text = record_line(rt.alloc(), job, hand)?;
            if let Some(words) = words {
                push_spaced(&mut text, words)?;
            }
            let is_refused = answering.text(rt, &text)?;
            if terminals.has_errors {
                tell_beside(rt, manner.rules, is_refused, text.as_str());
            }
            Ok(is_refused)
        }
    }
}

impl<W: Sink> Answering<W> {
    fn input<'a, R: Input + Eprint + Clock + Threads + Sync + AllocGlobal>(
        &mut self,
        rt: &R,
        notes: &Notes<'a>,
        progress: &Progress<'_, R>,
    ) -> Result<bool, Failure<'a>>
        ensures answered { IfOk result (λ is_refused. (text : List ℕ)
            × spec.WritesInManner ⟦<W as Sink>⟧ self.old.writer self.new.writer
            self.old.manner (lines text)
            × (is_refused ≡ spec.has_refusal self.old.manner.rules text)) }
        ensures failed { IfErr result (λ failure. (fault : DeskFault)
            × (failure ≡ failure_in self.old.manner.form fault)) }
        ensures kept { self.new.manner ≡ self.old.manner }
    {
        self.stream(rt, notes, progress, "standard input", rt.reader())
    }

    /// Answers the lines of a stream: whether one is refused. The first line that looks like a profile line and sets none is told
    /// under the name of the stream.
    fn stream<'a, R: Eprint + Clock + Threads + Sync + AllocGlobal, T: Read + Drop>(
        &mut self,
        rt: &R,
        notes: &Notes<'a>,
        progress: &Progress<'_, R>,
        name: &'a str,
        stream: T,
    ) -> Result<bool, Failure<'a>>
        ensures answered { IfOk result (λ is_refused. (text : List ℕ)
            × spec.WritesInManner ⟦<W as Sink>⟧ self.old.writer self.new.writer
            self.old.manner (lines text)
            × (is_refused ≡ spec.has_refusal self.old.manner.rules text)) }
        ensures failed { IfErr result (λ failure. (fault : DeskFault)
            × (failure ≡ failure_in self.old.manner.form fault)) }
        ensures kept { self.new.manner ≡ self.old.manner }
    {
        let mut reader = FromReader::new(notes.lines(progress, name, stream));
        let report = self.source(rt, &mut reader)?;
        tell_slip(progress, name, &report.slip);
        Ok(has_refusal(&report))
    }

    /// Answers the lines of files, each of which may set its own profile. The first that can't be opened or read ends it.
    fn files<'a, R: Input + Eprint + Files + Clock + Threads + Sync + AllocGlobal>(
        &mut self,
        rt: &R,
        notes: &Notes<'a>,
        progress: &Progress<'_, R>,
        files: &[&'a str],
    ) -> Result<bool, Failure<'a>>
        ensures answered { IfOk result (λ is_refused. (given : List (List ℕ))
            × (length given ≡ length files.now)
            × spec.AnswersTexts ⟦<W as Sink>⟧ self.old.manner
            self.old.writer given self.new.writer is_refused) }
        ensures failed { IfErr result (IsOfFiles (texts files.now)) }
    {
        let mut is_refused = false;
        for file in files {
            let file = *file;
            if is_input(file) {
                is_refused |= self.input(rt, notes, progress)?;
            } else {
                let stream = open_file(rt, notes, file)?;
                is_refused |= self.stream(rt, notes, progress, file, stream)?;
            }
        }
        Ok(is_refused)
    }
}

/// The words, each with its line feed.
pub(crate) fn each_line(alloc: Global, words: &[&str]) -> Result<String, AllocError>
    ensures { IfOk result (λ text. string_bytes text ≡ told.each_line (texts words.now)) }
{
    let mut text = String::new(alloc);
    for word in words {
        text.push_str(word)?;
        text.push('\n')?;
    }
    Ok(text)
}

/// The words, parted by spaces.
pub(crate) fn one_line(alloc: Global, words: &[&str]) -> Result<String, AllocError>
    ensures { IfOk result (λ text. string_bytes text ≡ told.one_line (texts words.now)) }
{
    let Some((first, others)) = words.split_first() else {
        return Ok(String::new(alloc));
    };
    let mut text = String::from_str(alloc, first)?;
    push_spaced(&mut text, others)?;
    Ok(text)
}

/// A job and its hand.
pub fn record_line(alloc: Global, job: CommandName, hand: &str) -> Result<String, AllocError>
    ensures { IfOk result (λ text. string_bytes text ≡ command_word job ++ 32 ∷ hand.now) }
{
    let mut text = String::from_str(alloc, job.word())?;
    text.push(' ')?;
    text.push_str(hand)?;
    Ok(text)
}

/// Words behind a text, a space before each.
fn push_spaced(text: &mut String, words: &[&str]) -> Result<(), AllocError>
    ensures { IfOk result (λ _. string_bytes text.new
        ≡ string_bytes text.old ++ told.spaced_words (texts words.now)) }
{
    for word in words {
        text.push(' ')?;
        text.push_str(word)?;
    }
    Ok(())
}
