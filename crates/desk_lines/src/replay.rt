//! The answers to a script, over streams.
ghost use Rattle.std.specs.Prelude.{◌≡◌, ◌++◌, ℕ, List, IfOk, IsErrOf};
ghost use Rattle.desk_script.specs.Replay.{Replays};
ghost use Rattle.desk_script.specs.OnlyReplay.{IsOnlyReplay};
ghost use Rattle.desk_lines.specs.Lines.{ended_lines, lines};
ghost use Rattle.desk_lines.specs.Scripts.{RunsOut, script_report};
ghost use Rattle.desk_lines.specs.Telling.{text_of};
ghost use Rattle.desk_lines.specs.Streams.{Gives, GivesAll, WritesAll, StopsWriting, AreWhole, FailsOrGoesOn, IsReadWithin};

use super::fault::DeskFault;
use super::report::DeskReport;
use super::stream::answer_lines;
use desk_io::{Sink, Source};
use desk_script::Script;
use riichi_shape::SuitMemo;
use std::alloc::Global;

/// Answers the commands of a script that a reader gives, one line for each, over a desk of 64 tables. Records are
/// read under the first profile. A submission that finds no memory is answered so in its line; where a new table's name
/// or the desk itself finds none, that ends the script.
#[tactic(auto, using(desk_script::proofs::Only::only_replay, crate::proofs::StreamLemmas::replay_text_facts, crate::proofs::TellingLemmas::text_of_append, crate::proofs::ScriptLemmas::replay_text_facts))]
pub fn replay_text<R: Source, W: Sink>(
    alloc: Global,
    reader: &mut R,
    writer: &mut W,
) -> Result<DeskReport, DeskFault>
    // The reader was read to its end, and answers to its lines were written. They are the only ones where none of
    // them speaks of a want of memory.
    ensures ok { IfOk result (λ report. (text : List ℕ) × (answers : List (List ℕ))
        × GivesAll ⟦<R as Source>⟧ reader.old reader.new text
        × Replays (lines text) answers
        × IsOnlyReplay (lines text) answers
        × WritesAll ⟦<W as Sink>⟧ writer.old writer.new (text_of answers)
        × (report ≡ script_report answers)) }

    // A read failed, or there were too many: answers to the lines that had ended were written.
    ensures read_failed { IsErrOf result DeskFault.Read
        → FailsOrGoesOn ⟦<R as Source>⟧ reader.old reader.new
        × ((text : List ℕ) × (answers : List (List ℕ))
        × Gives ⟦<R as Source>⟧ reader.old reader.new text
        × Replays (ended_lines text) answers
        × WritesAll ⟦<W as Sink>⟧ writer.old writer.new (text_of answers)) }

    // A write failed: there are answers to all whole lines that the reader gave, and a front of their text was written.
    ensures write_failed { IsErrOf result DeskFault.Write
        → (text : List ℕ) × (whole answers : List (List ℕ))
        × Gives ⟦<R as Source>⟧ reader.old reader.new text
        × AreWhole (R.is_ended reader.new) text whole
        × Replays whole answers
        × StopsWriting ⟦<W as Sink>⟧ writer.old writer.new (text_of answers) }

    // Memory ran out, for the desk or the name of a new table: there are answers to all whole lines that the reader gave, and
    // those to the lines before it were written.
    ensures no_memory { IsErrOf result DeskFault.Memory
        → (text : List ℕ) × (whole first others : List (List ℕ))
        × Gives ⟦<R as Source>⟧ reader.old reader.new text
        × AreWhole (R.is_ended reader.new) text whole
        × Replays whole (first ++ others)
        × RunsOut whole first
        × WritesAll ⟦<W as Sink>⟧ writer.old writer.new (text_of first) }

    // A failed read is told as such, whatever comes after it. So what is said of a failed read is so before each read.
    ensures told_as_read { (IsErrOf result DeskFault.Read → ⊥)
        → R.failures reader.new ≡ R.failures reader.old }
    ensures reads { IsReadWithin ⟦<R as Source>⟧ reader.old reader.new }
{
    let mut script = match Script::new(alloc) {
        Ok(script) => script,
        Err(_) => return Err(DeskFault::Memory),
    };
    answer_lines(&mut script, &mut SuitMemo::new(alloc), reader, writer)
}
