//! The lines of a reader, told one after another.
ghost use Rattle.std.specs.Prelude.{◌≡◌, ◌+◌, ◌≤◌, ◌<◌, ℕ, List, [], length, take, Err, IfOk, IsErrOf};
ghost use Rattle.desk_lines.specs.declared.report.DeskReport.{DeskReport};
ghost use Rattle.desk_lines.specs.declared.fault.DeskFault.{DeskFault};
ghost use Rattle.desk_lines.specs.Reading.{IsRead, FailsAgain, IsStopped, with_end};
ghost use Rattle.desk_lines.specs.Lines.{ended_lines, lines};
ghost use Rattle.desk_lines.specs.Streams.{Gives, GivesAll, WritesAll, FailsOrGoesOn, IsReadWithin};
ghost use Rattle.desk_lines.specs.Telling.{text_by, report_of};

use super::fault::DeskFault;
use super::line_buffer::LineBuffer;
use super::report::DeskReport;
use super::teller::Teller;
use super::told::Told;
use desk_io::{Sink, Source};
use riichi_shape::RowSource;

/// The longest front of a line that is kept: two bytes more than the longest line that is looked at, a carriage return
/// and one byte that shows a longer line.
const KEPT: usize = 8_194;

/// Room for what is kept, and behind it for what one read gives.
const ROOM: usize = 73_730;

/// After so many reads with no end the reader counts as failed.
const MOST_READS: u64 = 4_294_967_295;

/// Has the lines that a reader gives told, to its end. It reads and
/// writes in large pieces; the answers to all lines that have ended are written before it reads again. It takes no memory of its own,
/// and has no limit on the number of lines.
pub fn answer_lines<T: Teller, S: RowSource, R: Source, W: Sink>(
    teller: &mut T,
    source: &mut S,
    reader: &mut R,
    writer: &mut W,
) -> Result<DeskReport, DeskFault>
    requires most { T.most + 2 ≤ KEPT }
    requires new { T.tells teller.old teller.old [] [] (report_of []) }

    // The reader was read to its end, and the answers to its lines were written.
    ensures ok { IfOk result (λ report. (text : List ℕ) × (told : List T.Answer)
        × GivesAll ⟦<R as Source>⟧ reader.old reader.new text
        × T.tells teller.old teller.new (lines text) told report
        × WritesAll ⟦<W as Sink>⟧ writer.old writer.new (text_by T.written told)) }

    // A read failed, or there were too many: the answers to the lines that had ended were written.
    ensures read_failed { IsErrOf result DeskFault.Read
        → FailsOrGoesOn ⟦<R as Source>⟧ reader.old reader.new
        × ((text : List ℕ) × (told : List T.Answer) × (report : DeskReport)
        × Gives ⟦<R as Source>⟧ reader.old reader.new text
        × T.tells teller.old teller.new (ended_lines text) told report
        × WritesAll ⟦<W as Sink>⟧ writer.old writer.new (text_by T.written told)) }

    // A write failed, or memory was wanted: the first of the whole lines that the reader gave were told.
    ensures write_failed { IsErrOf result DeskFault.Write
        → IsStopped ⟦<R as Source>⟧ ⟦<W as Sink>⟧ ⟦<T as Teller>⟧ reader.old reader.new writer.old writer.new teller.old DeskFault.Write }
    ensures no_memory { IsErrOf result DeskFault.Memory
        → IsStopped ⟦<R as Source>⟧ ⟦<W as Sink>⟧ ⟦<T as Teller>⟧ reader.old reader.new writer.old writer.new teller.old DeskFault.Memory }

    // A failed read is told as such, whatever comes after it. So what is said of a failed read is so before each read.
    ensures told_as_read { (IsErrOf result DeskFault.Read → ⊥)
        → R.failures reader.new ≡ R.failures reader.old }
    ensures reads { IsReadWithin ⟦<R as Source>⟧ reader.old reader.new }
{
    let mut room = [0; ROOM];
    let mut held: LineBuffer<KEPT> = LineBuffer::new();
    let mut told = Told::new();
    for turn in 0..MOST_READS {
        let (len, is_end) = read_behind(held.as_slice(), &mut room, reader)?;
        let rest = told.add_lines(&room[..len], teller, source, writer)?;
        told.flush(writer)?;
        if is_end {
            return Ok(told.report());
        }
        held.clear();
        held.hold(rest);
    }
    Err(DeskFault::Read)
}

/// Puts what is held into a room, and behind it what one read gives; at the end a line feed, where anything is held. Answers
/// how many bytes these are, and whether it is the end.
fn read_behind<R: Source>(
    held: &[u8],
    room: &mut [u8; ROOM],
    reader: &mut R,
) -> Result<(usize, bool), DeskFault>
    requires { length held.now ≤ KEPT }
    ensures read { IfOk result (λ read. (read.0 ≤ ROOM)
        × IsRead ⟦<R as Source>⟧ reader.old reader.new held.now (take read.0 room.new) read.1) }
    ensures failed { IsErrOf result DeskFault.Read
        → FailsAgain ⟦<R as Source>⟧ reader.old reader.new }
    ensures only { (fault : DeskFault) → result ≡ Err fault → fault ≡ DeskFault.Read }
    ensures calls { R.calls reader.new ≡ R.calls reader.old + 1 }
{
    room[..held.len()].copy_from_slice(held);
    match reader.read(&mut room[held.len()..]) {
        Err(_) => Err(DeskFault::Read),
        Ok(0) => Ok((end_line(room, held.len()), true)),
        Ok(count) => Ok((held.len() + count, false)),
    }
}

/// Ends the line that stands at the front of a room.
fn end_line(room: &mut [u8; ROOM], len: usize) -> usize
    requires { len < ROOM }
    ensures { take result room.new ≡ with_end (take len room.old) }
{
    if len == 0 {
        return 0;
    }
    room[len] = b'\n';
    len + 1
}
