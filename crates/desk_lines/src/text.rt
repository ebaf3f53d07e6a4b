//! A text over streams.
ghost use Rattle.std.specs.Prelude.{◌≡◌, ◌++◌, ℕ, List, IfOk, IsErrOf};
ghost use Rattle.desk_lines.specs.Lines.{ended_lines, lines};
ghost use Rattle.desk_lines.specs.LineAnswers.{answers, answers_to, report_on};
ghost use Rattle.desk_lines.specs.Records.{AnswerRecords};
ghost use Rattle.desk_lines.specs.Slips.{text_report};
ghost use Rattle.desk_lines.specs.Streams.{Gives, GivesAll, WritesAll, StopsWriting, AreWhole, FailsOrGoesOn, IsReadWithin};
ghost use Rattle.desk_lines.specs.Telling.{text_of};

use super::answering::Plain;
use super::fault::DeskFault;
use super::records::Records;
use super::report::{DeskReport, TextReport};
use super::responder::Responder;
use super::stream::answer_lines;
use desk_io::{Sink, Source};
use riichi_hand::Rules;
use riichi_shape::{RowSource, SuitMemo};

/// Answers the record lines that a reader gives, one line for each, under the profile that the first line sets, or
/// else the given one. It reads and writes in large pieces; the answers to all lines that have ended are written
/// before it reads again. It takes no memory, and has no limit on the number of lines.
#[tactic(auto, using(crate::proofs::AnswerLemmas::answers_told))]
pub fn desk_text<R: Source, W: Sink>(
    rules: Rules,
    reader: &mut R,
    writer: &mut W,
) -> Result<DeskReport, DeskFault>
    // The reader was read to its end, and the answers to what it gave were written.
    ensures ok { IfOk result (λ report. (text : List ℕ)
        × GivesAll ⟦<R as Source>⟧ reader.old reader.new text
        × WritesAll ⟦<W as Sink>⟧ writer.old writer.new (answers rules text)
        × (report ≡ report_on rules (lines text))) }

    // A read failed, or there were too many: the answers to the lines that had ended were written.
    ensures read_failed { IsErrOf result DeskFault.Read
        → FailsOrGoesOn ⟦<R as Source>⟧ reader.old reader.new
        × ((text : List ℕ)
        × Gives ⟦<R as Source>⟧ reader.old reader.new text
        × WritesAll ⟦<W as Sink>⟧ writer.old writer.new (answers_to rules (ended_lines text))) }

    // A write failed: a front of the answers to the whole lines that the reader gave was written.
    ensures write_failed { IsErrOf result DeskFault.Write
        → (text : List ℕ) × (whole : List (List ℕ))
        × Gives ⟦<R as Source>⟧ reader.old reader.new text
        × AreWhole (R.is_ended reader.new) text whole
        × StopsWriting ⟦<W as Sink>⟧ writer.old writer.new (answers_to rules whole) }

    ensures no_memory { IsErrOf result DeskFault.Memory → ⊥ }
    // A failed read is told as such, whatever comes after it. So what is said of a failed read is so before each read.
    ensures told_as_read { (IsErrOf result DeskFault.Read → ⊥)
        → R.failures reader.new ≡ R.failures reader.old }
    ensures reads { IsReadWithin ⟦<R as Source>⟧ reader.old reader.new }
{
    let mut rows = SuitMemo::in_value();
    match desk_text_by::<Plain, SuitMemo, R, W>(&mut rows, rules, reader, writer) {
        Ok(report) => Ok(report.counts),
        Err(fault) => Err(fault),
    }
}

/// The same by any kind of answer, where shapes are answered by the rows of a source: the answers are the same, whichever it is.
pub fn desk_text_by<A: Responder, S: RowSource, R: Source, W: Sink>(
    source: &mut S,
    rules: Rules,
    reader: &mut R,
    writer: &mut W,
) -> Result<TextReport, DeskFault>
    // The reader was read to its end, and the answers to what it gave were written.
    ensures ok { IfOk result (λ report. (text : List ℕ) × (told : List (List ℕ))
        × GivesAll ⟦<R as Source>⟧ reader.old reader.new text
        × AnswerRecords A.may_tell rules (lines text) told
        × WritesAll ⟦<W as Sink>⟧ writer.old writer.new (text_of told)
        × (report ≡ text_report rules (lines text))) }

    // A read failed, or there were too many: the answers to the lines that had ended were written.
    ensures read_failed { IsErrOf result DeskFault.Read
        → FailsOrGoesOn ⟦<R as Source>⟧ reader.old reader.new
        × ((text : List ℕ) × (told : List (List ℕ))
        × Gives ⟦<R as Source>⟧ reader.old reader.new text
        × AnswerRecords A.may_tell rules (ended_lines text) told
        × WritesAll ⟦<W as Sink>⟧ writer.old writer.new (text_of told)) }

    // A write failed: a front of the answers to the first of the whole lines that the reader gave was written.
    ensures write_failed { IsErrOf result DeskFault.Write
        → (text : List ℕ) × (whole first others told : List (List ℕ))
        × Gives ⟦<R as Source>⟧ reader.old reader.new text
        × AreWhole (R.is_ended reader.new) text whole
        × (whole ≡ first ++ others)
        × AnswerRecords A.may_tell rules first told
        × StopsWriting ⟦<W as Sink>⟧ writer.old writer.new (text_of told) }

    ensures no_memory { IsErrOf result DeskFault.Memory → ⊥ }
    // A failed read is told as such, whatever comes after it. So what is said of a failed read is so before each read.
    ensures told_as_read { (IsErrOf result DeskFault.Read → ⊥)
        → R.failures reader.new ≡ R.failures reader.old }
    ensures reads { IsReadWithin ⟦<R as Source>⟧ reader.old reader.new }
{
    let mut records: Records<A> = Records::new(rules);
    match answer_lines(&mut records, source, reader, writer) {
        Ok(counts) => Ok(records.report(counts)),
        Err(fault) => Err(fault),
    }
}
