//! What the calling thread does while others answer a round: it writes what waits, and reads the next text.
ghost use Rattle.std.specs.Prelude.{◌≡◌, ◌+◌, ◌<◌, ℕ, List, OnOk, IfOk, IfErr};
ghost use Rattle.desk_lines.specs.Reading.{kept};
ghost use Rattle.desk_lines.specs.Streams.{Gives};
ghost use Rattle.desk_crew.specs.Pieces.{answers_in_rooms};
ghost use Rattle.desk_crew.specs.Reading.{AreMoved, IsReadOn, IsStuck, stop_outcome};

use crate::rooms::Rooms;
use desk_io::{Sink, Source};
use desk_lines::{DeskFault, ended_bytes};
use std::alloc::{AllocError, Global};

/// What one read gives at most.
const READ: usize = 65_536;

/// Why a round reads no further.
#[derive(Clone, Copy, PartialEq, Eq)]
pub(crate) enum Stop {
    /// It has enough.
    Full,
    /// The reader has ended.
    End,
    /// A read failed, or none is left.
    Failed,
}

impl Stop {
    /// What the reading of a stream comes to, or none where it goes on.
    pub(crate) fn outcome(self) -> Option<Result<(), DeskFault>>
        ensures { result ≡ stop_outcome self }
    {
        match self {
            Stop::Full => None,
            Stop::End => Some(Ok(())),
            Stop::Failed => Some(Err(DeskFault::Read)),
        }
    }
}

/// The longest front of a line that is held: two bytes more than the longest line that is looked at, a carriage return
/// and one byte that shows a longer line.
const HELD: usize = 8_194;

/// After so many reads with no end the reader counts as failed.
pub(crate) const MOST_READS: u64 = 4_294_967_295;

/// The text that is read ahead.
#[derive(Drop)]
pub(crate) struct Ahead {
    pub(crate) text: Vec<u8>,
    /// A round reads until it has so many bytes or more.
    enough: usize,
    /// How many reads are left.
    pub(crate) left: u64,
}

impl Ahead {
    pub(crate) fn new(alloc: Global, enough: usize) -> Ahead {
        Ahead {
            text: Vec::new(alloc),
            enough,
            left: MOST_READS,
        }
    }

    /// Holds the front of what comes after the last line feed of a text.
    pub(crate) fn hold(&mut self, text: &[u8]) -> Result<(), AllocError>
        ensures held { OnOk result (self.new.text.items ≡ kept 8194 text.now) }
        ensures same { self.new.left ≡ self.old.left }
    {
        let rest = &text[ended_bytes(text)..];
        self.text.clear();
        self.text.extend_from_slice(&rest[..rest.len().min(HELD)])
    }

    /// Writes what waits, holds the front of what comes after the last line feed of a text, and reads on behind it.
    pub(crate) fn move_on<R: Source, W: Sink>(
        &mut self,
        text: &[u8],
        waiting: &Rooms,
        reader: &mut R,
        writer: &mut W,
    ) -> Result<Stop, DeskFault>
        ensures ok { IfOk result (AreMoved ⟦<R as Source>⟧ ⟦<W as Sink>⟧ reader.old reader.new
            writer.old writer.new (answers_in_rooms waiting.now) (kept 8194 text.now)
            self.new.text.items self.new.left) }
        ensures err { IfErr result (IsStuck ⟦<R as Source>⟧ ⟦<W as Sink>⟧
            reader.old reader.new writer.old writer.new (answers_in_rooms waiting.now)) }
        ensures calls { R.calls reader.new + self.new.left ≡ R.calls reader.old + self.old.left }
        ensures fewer { IfOk result (λ stop. stop ≡ Stop.Full → self.new.left < self.old.left) }
    {
        waiting.write(writer)?;
        self.hold(text)?;
        let stop = read_round(reader, &mut self.text, self.enough, &mut self.left)?;
        Ok(stop)
    }
}

/// Reads behind a text until it has so many bytes or more, but once at least.
pub(crate) fn read_round<R: Source>(
    reader: &mut R,
    text: &mut Vec<u8>,
    enough: usize,
    left: &mut u64,
) -> Result<Stop, AllocError>
    ensures ok { IfOk result (IsReadOn ⟦<R as Source>⟧
        reader.old reader.new text.old.items text.new.items left.new) }
    ensures err { IfErr result (λ _. (bytes : List ℕ)
        × Gives ⟦<R as Source>⟧ reader.old reader.new bytes) }
    ensures calls { R.calls reader.new + left.new ≡ R.calls reader.old + left.old }
    ensures fewer { IfOk result (λ stop. stop ≡ Stop.Full → left.new < left.old) }
{
    let mut buffer = [0; READ];
    while *left > 0 {
        *left -= 1;
        match reader.read(&mut buffer) {
            Err(_) => return Ok(Stop::Failed),
            Ok(0) => return Ok(Stop::End),
            Ok(count) => text.extend_from_slice(&buffer[..count])?,
        }
        if text.len() >= enough {
            return Ok(Stop::Full);
        }
    }
    Ok(Stop::Failed)
}
