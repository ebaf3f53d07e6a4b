//! A text of questions over streams.
ghost use Rattle.std.specs.Prelude.{◌≡◌, ◌++◌, ℕ, List, IfOk, IsErrOf};
ghost use Rattle.desk_lines.specs.Lines.{ended_lines, lines};
ghost use Rattle.desk_lines.specs.Streams.{Gives, GivesAll, WritesAll, StopsWriting, AreWhole, FailsOrGoesOn, IsReadWithin};
ghost use Rattle.desk_lines.specs.Telling.{report_of, text_of};
ghost use Rattle.desk_study.specs.Answers.{question_answers, question_kinds};
ghost use Rattle.desk_study.specs.Tellers.{FirstWantsMemory};

use crate::form::StudiesManner;
use crate::questions::Questions;
use desk_io::{Sink, Source};
use desk_lines::{DeskFault, DeskReport, answer_lines};
use riichi_shape::RowSource;
use std::alloc::Global;

/// Answers the questions that a reader gives, a line each, by the rows of a source: the answers are the same, whichever it is. Where
/// answers are numbered, each tells the number of its line: in front, with a colon behind it, or as the first member of an object.
/// All lines are counted, from 1. It reads and writes in large pieces; the answers to all lines that have ended are written before it reads again. It has no limit on the number of
/// lines, and takes memory for questions of chances and of worths alone.
pub fn study_text<S: RowSource, R: Source, W: Sink>(
    alloc: Global,
    source: &mut S,
    manner: StudiesManner,
    reader: &mut R,
    writer: &mut W,
) -> Result<DeskReport, DeskFault>
    // The reader was read to its end, and the answers to what it gave were written.
    ensures ok { IfOk result (λ report. (text : List ℕ)
        × GivesAll ⟦<R as Source>⟧ reader.old reader.new text
        × WritesAll ⟦<W as Sink>⟧ writer.old writer.new (text_of (question_answers manner 1 (lines text)))
        × (report ≡ report_of (question_kinds 1 (lines text)))) }

    // A read failed, or there were too many: the answers to the lines that had ended were written.
    ensures read_failed { IsErrOf result DeskFault.Read
        → FailsOrGoesOn ⟦<R as Source>⟧ reader.old reader.new
        × ((text : List ℕ)
        × Gives ⟦<R as Source>⟧ reader.old reader.new text
        × WritesAll ⟦<W as Sink>⟧ writer.old writer.new (text_of (question_answers manner 1 (ended_lines text)))) }

    // A write failed: a front of the answers to the first of the whole lines that the reader gave was written.
    ensures write_failed { IsErrOf result DeskFault.Write
        → (text : List ℕ) × (whole first others : List (List ℕ))
        × Gives ⟦<R as Source>⟧ reader.old reader.new text
        × AreWhole (R.is_ended reader.new) text whole
        × (whole ≡ first ++ others)
        × StopsWriting ⟦<W as Sink>⟧ writer.old writer.new (text_of (question_answers manner 1 first)) }

    // There was no memory for a question of chances or of a worth: the answers to the lines before it were written.
    ensures no_memory { IsErrOf result DeskFault.Memory
        → (text : List ℕ) × (whole first others : List (List ℕ))
        × Gives ⟦<R as Source>⟧ reader.old reader.new text
        × AreWhole (R.is_ended reader.new) text whole
        × (whole ≡ first ++ others)
        × FirstWantsMemory others
        × WritesAll ⟦<W as Sink>⟧ writer.old writer.new (text_of (question_answers manner 1 first)) }

    // A failed read is told as such, whatever comes after it. So what is said of a failed read is so before each read.
    ensures told_as_read { (IsErrOf result DeskFault.Read → ⊥)
        → R.failures reader.new ≡ R.failures reader.old }
    ensures reads { IsReadWithin ⟦<R as Source>⟧ reader.old reader.new }
{
    let mut questions = Questions::new(alloc, manner);
    answer_lines(&mut questions, source, reader, writer)
}
