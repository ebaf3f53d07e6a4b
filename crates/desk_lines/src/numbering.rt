//! A text over streams, with the numbers of the lines.
ghost use Rattle.std.specs.Prelude.{◌≡◌, ◌++◌, ℕ, List, map, IfOk, IsErrOf};
ghost use Rattle.desk_lines.specs.Lines.{ended_lines, lines};
ghost use Rattle.desk_lines.specs.Numbered.{NumberRecords};
ghost use Rattle.desk_lines.specs.Records.{AnswerRecords};
ghost use Rattle.desk_lines.specs.Slips.{text_report};
ghost use Rattle.desk_lines.specs.Streams.{Gives, GivesAll, WritesAll, StopsWriting, AreWhole, FailsOrGoesOn, IsReadWithin};
ghost use Rattle.desk_lines.specs.Telling.{text_by};

use super::fault::DeskFault;
use super::numbered::{Numbered, Numbers};
use super::report::TextReport;
use super::stream::answer_lines;
use desk_io::{Sink, Source};
use riichi_hand::Rules;
use riichi_shape::RowSource;

/// Answers the record lines that a reader gives by the kind of answer `A`, as `desk_text_by` does, each answer behind the
/// number of its line: a number and a colon, or of an object its first member, `line`. All lines are counted, from 1, those
/// that are no records too. It takes no memory.
#[tactic(auto, using(crate::proofs::NumberLemmas::without_numbers_told))]
pub fn numbered_text_by<A: Numbers, S: RowSource, R: Source, W: Sink>(
    source: &mut S,
    rules: Rules,
    reader: &mut R,
    writer: &mut W,
) -> Result<TextReport, DeskFault>
    // The reader was read to its end, and the answers to what it gave were written with the numbers of their lines. Without
    // these they are the answers of that kind.
    ensures ok { IfOk result (λ report. (text : List ℕ) × (told : List (ℕ × List ℕ))
        × GivesAll ⟦<R as Source>⟧ reader.old reader.new text
        × NumberRecords A.may_tell rules (lines text) told
        × AnswerRecords A.may_tell rules (lines text) (map (λ told. told.1) told)
        × WritesAll ⟦<W as Sink>⟧ writer.old writer.new (text_by (λ told. A.front told.0 ++ told.1) told)
        × (report ≡ text_report rules (lines text))) }

    // A read failed, or there were too many: the answers to the lines that had ended were written.
    ensures read_failed { IsErrOf result DeskFault.Read
        → FailsOrGoesOn ⟦<R as Source>⟧ reader.old reader.new
        × ((text : List ℕ) × (told : List (ℕ × List ℕ))
        × Gives ⟦<R as Source>⟧ reader.old reader.new text
        × NumberRecords A.may_tell rules (ended_lines text) told
        × WritesAll ⟦<W as Sink>⟧ writer.old writer.new (text_by (λ told. A.front told.0 ++ told.1) told)) }

    // A write failed: a front of the answers to the first of the whole lines that the reader gave was written.
    ensures write_failed { IsErrOf result DeskFault.Write
        → (text : List ℕ) × (whole first others : List (List ℕ)) × (told : List (ℕ × List ℕ))
        × Gives ⟦<R as Source>⟧ reader.old reader.new text
        × AreWhole (R.is_ended reader.new) text whole
        × (whole ≡ first ++ others)
        × NumberRecords A.may_tell rules first told
        × StopsWriting ⟦<W as Sink>⟧ writer.old writer.new (text_by (λ told. A.front told.0 ++ told.1) told) }

    ensures no_memory { IsErrOf result DeskFault.Memory → ⊥ }
    // A failed read is told as such, whatever comes after it. So what is said of a failed read is so before each read.
    ensures told_as_read { (IsErrOf result DeskFault.Read → ⊥)
        → R.failures reader.new ≡ R.failures reader.old }
    ensures reads { IsReadWithin ⟦<R as Source>⟧ reader.old reader.new }
{
    let mut numbered: Numbered<A> = Numbered::new(rules);
    match answer_lines(&mut numbered, source, reader, writer) {
        Ok(counts) => Ok(numbered.report(counts)),
        Err(fault) => Err(fault),
    }
}
