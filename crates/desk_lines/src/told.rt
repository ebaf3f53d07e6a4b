//! The answers to a stream so far.
ghost use Rattle.std.specs.Prelude.{◌≡◌, ◌+◌, ◌<◌, ◌≤◌, ◌^◌, ℕ, List, [], ◌∷◌, ◌++◌, length, OnOk, IfOk, IfErr};
ghost use Rattle.desk_lines.specs.Told.{Stands, StopsTelling, lines_of};
ghost use Rattle.desk_lines.specs.Lines.{cut_of, ended_lines};
ghost use Rattle.desk_lines.specs.Reading.{AreToldAs};
ghost use Rattle.desk_lines.specs.Streams.{Writes};
ghost use Rattle.desk_lines.specs.Telling.{report_of, report_with, IsToldAs};

use super::fault::DeskFault;
use super::first_line::first_line;
use super::line_kind::LineKind;
use super::outbox::Outbox;
use super::report::DeskReport;
use super::teller::Teller;
use desk_io::Sink;
use riichi_shape::RowSource;

/// The answers to a stream so far: a count of them and of the lines that have none, and those that are not written yet.
#[derive(Drop)]
pub(crate) struct Told {
    report: DeskReport,
    unanswered: u64,
    outbox: Outbox,
}

impl Told {
    pub(crate) fn new() -> Told
        ensures report { result.report ≡ report_of [] }
        ensures none { result.unanswered ≡ 0 }
        ensures outbox { result.outbox.bytes.items ≡ [] }
    {
        Told {
            report: DeskReport {
                answered: 0,
                refused: 0,
            },
            unanswered: 0,
            outbox: Outbox::new(),
        }
    }

    pub(crate) fn report(&self) -> DeskReport
        ensures { result ≡ self.now.report }
    {
        self.report
    }

    /// Answers the lines of a text that have ended, and returns what comes after them.
    #[tactic(auto, using(crate::proofs::CutLemmas::add_lines_facts, crate::proofs::ToldLemmas::StopsTelling_more))]
    pub(crate) fn add_lines<'a, T: Teller, S: RowSource, W: Sink>(
        &mut self,
        text: &'a [u8],
        teller: &mut T,
        source: &mut S,
        writer: &mut W,
    ) -> Result<&'a [u8], DeskFault>
        requires count { lines_of self.old + length text.now < 2 ^ 64 }
        ensures stands { OnOk result ((start : W) (first : T) (lines next : List (List ℕ))
            → AreToldAs T.most (ended_lines text.now) next
            → Stands ⟦<W as Sink>⟧ ⟦<T as Teller>⟧ start first lines teller.old self.old writer.old
            → Stands ⟦<W as Sink>⟧ ⟦<T as Teller>⟧ start first (lines ++ next) teller.new self.new writer.new) }
        ensures rest { IfOk result (λ rest. rest.now ≡ (cut_of text.now).rest) }
        ensures stops { IfErr result (λ fault. (start : W) (first : T) (lines next : List (List ℕ))
            → AreToldAs T.most (ended_lines text.now) next
            → Stands ⟦<W as Sink>⟧ ⟦<T as Teller>⟧ start first lines teller.old self.old writer.old
            → StopsTelling ⟦<W as Sink>⟧ ⟦<T as Teller>⟧ start writer.new first fault (lines ++ next)) }
        ensures count { lines_of self.new ≤ lines_of self.old + length text.now }
    {
        let mut rest = text;
        while let Some((line, after)) = first_line(rest) {
            self.add(line, teller, source, writer)?;
            rest = after;
        }
        Ok(rest)
    }

    /// Answers the next line. The answers that stand in the way of its own are written first, and where memory is wanted
    /// all that were given before.
    #[tactic(auto, using(crate::proofs::ToldLemmas::add_facts))]
    fn add<T: Teller, S: RowSource, W: Sink>(
        &mut self,
        line: &[u8],
        teller: &mut T,
        source: &mut S,
        writer: &mut W,
    ) -> Result<(), DeskFault>
        requires { lines_of self.old + 1 < 2 ^ 64 }
        ensures stands { OnOk result
            ((start : W) (first : T) (lines : List (List ℕ)) (next : List ℕ) → IsToldAs T.most line.now next
            → Stands ⟦<W as Sink>⟧ ⟦<T as Teller>⟧ start first lines teller.old self.old writer.old
            → Stands ⟦<W as Sink>⟧ ⟦<T as Teller>⟧ start first (lines ++ next ∷ []) teller.new self.new writer.new) }
        ensures stops { IfErr result
            (λ fault. (start : W) (first : T) (lines : List (List ℕ)) (next : List ℕ) → IsToldAs T.most line.now next
            → Stands ⟦<W as Sink>⟧ ⟦<T as Teller>⟧ start first lines teller.old self.old writer.old
            → StopsTelling ⟦<W as Sink>⟧ ⟦<T as Teller>⟧ start writer.new first fault (lines ++ next ∷ [])) }
        ensures count { lines_of self.new ≤ lines_of self.old + 1 }
    {
        if !self.outbox.has_room() {
            self.flush(writer)?;
        }
        let number = self.report.answered + self.report.refused + self.unanswered + 1;
        match teller.tell(number, line, &mut self.outbox, source) {
            Ok(kind) => {
                self.count(kind);
                Ok(())
            }
            Err(_) => {
                self.outbox.flush(writer)?;
                Err(DeskFault::Memory)
            }
        }
    }

    /// Writes the answers that were not written yet.
    pub(crate) fn flush<W: Sink>(&mut self, writer: &mut W) -> Result<(), DeskFault>
        ensures writes { Writes ⟦<W as Sink>⟧
            writer.old writer.new result self.old.outbox.bytes.items }
        ensures empty { OnOk result (self.new.outbox.bytes.items ≡ []) }
        ensures report { (self.new.report ≡ self.old.report)
            × (self.new.unanswered ≡ self.old.unanswered) }
    {
        self.outbox.flush(writer)
    }

    /// Counts one more line.
    fn count(&mut self, kind: LineKind)
        requires { lines_of self.old + 1 < 2 ^ 64 }
        ensures report { self.new.report ≡ report_with self.old.report kind }
        ensures lines { lines_of self.new ≡ lines_of self.old + 1 }
        ensures outbox { self.new.outbox ≡ self.old.outbox }
    {
        match kind {
            LineKind::NoRecord => self.unanswered += 1,
            LineKind::Answered => self.report.answered += 1,
            LineKind::Refused => self.report.refused += 1,
        }
    }
}
