//! The proved core of the commands: a text of record lines is answered in the form that was asked for.
ghost use Rattle.std.specs.Prelude.{◌≡◌, ℕ, List, true, false, length, max, min, nat_lt, IfOk, IfErr, OnOk, string_bytes};
ghost use Rattle.desk_lines.specs.declared.fault.DeskFault.{DeskFault};
ghost use Rattle.desk_lines.specs.Lines.{lines};
ghost use Rattle.desk_lines.specs.Slips.{text_report};
ghost use Rattle.desk_lines.specs.Streams.{GivesAll};
ghost use Rattle.riichi_desk.specs.Answering as spec;
ghost use Rattle.riichi_desk.specs.Failures.{failure_in};

use crate::failure::Failure;
use desk_cli::{Form, Manner};
use desk_crew::Crew;
use desk_io::{BytesIn, Sink, Source};
use desk_lines::{
    DeskFault, EveryReading, Explained, Members, Numbers, Objects, Plain, Reasoned,
    ReasonedMembers, Responder, SuitMemo, TextReport, desk_text_by, numbered_text_by,
};
use std::alloc::{AllocError, Global};
use std::thread::Threads;

/// Answers lines: how, with the rows that are kept, and where to.
#[derive(Drop)]
pub(crate) struct Answering<W> {
    pub(crate) manner: Manner,
    rows: SuitMemo,
    writer: W,
}

impl<W: Sink> Answering<W> {
    /// Nothing is answered yet.
    pub(crate) fn new(alloc: Global, manner: Manner, writer: W) -> Answering<W>
        ensures manner { result.manner ≡ manner }
        ensures writer { result.writer ≡ writer }
    {
        Answering {
            manner,
            rows: SuitMemo::new(alloc),
            writer,
        }
    }

    /// Answers the lines of a text: whether one is refused.
    pub(crate) fn text<'a, R: Threads + Sync + AllocGlobal>(
        &mut self,
        rt: &R,
        text: &String,
    ) -> Result<bool, Failure<'a>>
        ensures answered { OnOk result (spec.WritesInManner ⟦<W as Sink>⟧ self.old.writer
            self.new.writer self.old.manner (lines (string_bytes text.now))) }
        ensures refused { IfOk result (λ is_refused. is_refused
            ≡ spec.has_refusal self.old.manner.rules (string_bytes text.now)) }
    {
        let report = self.source(rt, &mut BytesIn::new(text.as_bytes(), text.len() + 1, None))?;
        Ok(has_refusal(&report))
    }

    /// Answers the lines of a source.
    pub(crate) fn source<'a, S: Source, R: Threads + Sync + AllocGlobal>(
        &mut self,
        rt: &R,
        reader: &mut S,
    ) -> Result<TextReport, Failure<'a>>
        ensures answered { IfOk result (λ report. (text : List ℕ)
            × GivesAll ⟦<S as Source>⟧ reader.old reader.new text
            × spec.WritesInManner ⟦<W as Sink>⟧ self.old.writer self.new.writer
            self.old.manner (lines text)
            × (report ≡ text_report self.old.manner.rules (lines text))) }
        ensures failed { IfErr result (λ failure. (fault : DeskFault)
            × (failure ≡ failure_in self.old.manner.form fault)) }
        ensures kept { self.new.manner ≡ self.old.manner }
    {
        let report = match self.manner.form {
            Form::Words => self.by_kind::<Plain, Plain, S, R>(rt, reader),
            Form::Json => self.by_kind::<Objects, Members, S, R>(rt, reader),
            Form::Reasons => self.by_kind::<Explained, Explained, S, R>(rt, reader),
            Form::AllReasons => self.by_kind::<EveryReading, EveryReading, S, R>(rt, reader),
            Form::JsonReasons => self.by_kind::<Reasoned, ReasonedMembers, S, R>(rt, reader),
        };
        match report {
            Ok(report) => Ok(report),
            Err(fault) => Err(failure_in(self.manner.form, fault)),
        }
    }

    /// Answers by a kind of answer, or by another one where it stands behind the number of its line; by threads where they are
    /// wanted.
    fn by_kind<A, N, S, R>(&mut self, rt: &R, reader: &mut S) -> Result<TextReport, DeskFault>
    where
        A: Responder + Send + Sync,
        N: Numbers,
        S: Source,
        R: Threads + Sync + AllocGlobal,
        ensures plain { self.old.manner.is_numbered ≡ false
            → IfOk result (λ report. (text : List ℕ)
            × GivesAll ⟦<S as Source>⟧ reader.old reader.new text
            × spec.WritesAnswers A.may_tell ⟦<W as Sink>⟧ self.old.writer self.new.writer
            self.old.manner.rules (lines text)
            × (report ≡ text_report self.old.manner.rules (lines text))) }
        ensures numbered { self.old.manner.is_numbered ≡ true
            → IfOk result (λ report. (text : List ℕ)
            × GivesAll ⟦<S as Source>⟧ reader.old reader.new text
            × spec.WritesNumbered N.may_tell N.front ⟦<W as Sink>⟧ self.old.writer
            self.new.writer self.old.manner.rules (lines text)
            × (report ≡ text_report self.old.manner.rules (lines text))) }
        ensures kept { self.new.manner ≡ self.old.manner }
    {
        let (rows, rules, writer) = (&mut self.rows, self.manner.rules, &mut self.writer);
        if self.manner.is_numbered {
            return numbered_text_by::<N, SuitMemo, S, W>(rows, rules, reader, writer);
        }
        match self.manner.workers {
            None | Some(1) => desk_text_by::<A, SuitMemo, S, W>(rows, rules, reader, writer),
            Some(workers) => {
                let mut crew = crew_of(rt.alloc(), self.manner.form, workers)?;
                crew.answer_text::<A, R, S, W>(rt, rules, reader, writer)
            }
        }
    }
}

/// So many threads, whose rounds are shorter where answers are longer than in words.
fn crew_of(alloc: Global, form: Form, workers: u32) -> Result<Crew, AllocError>
    ensures { IfOk result (λ crew. length crew.shares.items ≡ max 1 (min workers 16)) }
{
    match form {
        Form::Words => Crew::new(alloc, workers as usize),
        _ => Crew::for_objects(alloc, workers as usize),
    }
}

/// Whether a line of a text is refused.
pub(crate) fn has_refusal(report: &TextReport) -> bool
    ensures { result ≡ nat_lt 0 report.now.counts.refused }
{
    report.counts.refused > 0
}

/// How a fault is reported: of a form with reasons in words.
fn failure_in<'a>(form: Form, fault: DeskFault) -> Failure<'a>
    ensures { result ≡ failure_in form fault }
{
    match form {
        Form::Reasons | Form::AllReasons | Form::JsonReasons => Failure::Explained(fault),
        Form::Words | Form::Json => Failure::from(fault),
    }
}
