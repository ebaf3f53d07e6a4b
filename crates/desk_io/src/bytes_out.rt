//! A writer over memory.
ghost use Rattle.std.specs.Prelude.{◌≡◌, [], Some};

use super::countdown::Countdown;
use super::journal::Journal;
use super::sink::Sink;
use arrayvec::ArrayVec;
use std::io;

/// Keeps what is written, up to N bytes, and can fail once. A write into a full one fails.
#[derive(Drop)]
pub struct BytesOut<const N: usize> {
    taken: ArrayVec<u8, N>,
    most: usize,
    countdown: Countdown,
    journal: Journal,
}

impl<const N: usize> BytesOut<N> {
    ghost use Rattle.desk_io.specs.BytesOut.{failing_write, most_written};
    ghost use Rattle.desk_io.specs.Calls.{call_number};

    /// At most `most` bytes a write. The write of the number `failing`, counted from 1, fails.
    pub fn new(most: usize, failing: Option<u64>) -> BytesOut<N>
        ensures written { ⟦<BytesOut<N> as Sink>⟧.written result ≡ [] }
        ensures contents { ⟦<BytesOut<N> as Sink>⟧.contents result ≡ Some [] }
        ensures calls { ⟦<BytesOut<N> as Sink>⟧.calls result ≡ 0 }
        ensures failures { ⟦<BytesOut<N> as Sink>⟧.failures result ≡ 0 }
        ensures failing { failing_write result ≡ call_number failing }
        ensures most { most_written result ≡ most }
    {
        BytesOut {
            taken: ArrayVec::new(),
            most,
            countdown: Countdown::to(failing),
            journal: Journal::new(),
        }
    }

    /// What was taken so far.
    pub fn bytes(&self) -> &[u8]
        ensures { result.now ≡ ⟦<BytesOut<N> as Sink>⟧.written self.now }
    {
        self.taken.as_slice()
    }
}

impl<const N: usize> Sink for BytesOut<N> {
    ghost use Rattle.std.specs.Prelude.{◌+◌, ◌-◌, ◌≢◌, ◌↔◌, ◌⊎◌, ◌++◌, length, min, IfOk, IsErr, None};
    ghost use Rattle.std.specs.Io.{WritesAtMost};
    ghost use Rattle.std.specs.Io.KnownBytes.{WriteAppends};
    ghost use Rattle.desk_io.specs.Calls.{bytes_taken, failed_writes};
    ghost use Rattle.desk_io.specs.BytesOut.{bytes_kept, write_calls, write_failures, failing_write, most_written, room_for};

    ghost written = { bytes_kept };

    ghost contents = { λ s. Some (bytes_kept s) };

    ghost calls = { write_calls };

    ghost failures = { write_failures };

    fn write(&mut self, bytes: &[u8]) -> io::Result<usize>
        ensures bound { WritesAtMost result bytes.now }
        ensures written { bytes_kept self.new
            ≡ bytes_kept self.old ++ bytes_taken result bytes.now }
        ensures contents { WriteAppends (Some (bytes_kept self.old)) (Some
            (bytes_kept self.new)) result bytes.now }
        ensures calls { write_calls self.new ≡ write_calls self.old + 1 }
        ensures failures { write_failures self.new
            ≡ write_failures self.old + failed_writes result bytes.now }

        // It fails at the chosen call, and where it can take none of some bytes; else it takes as much as it may.
        ensures fails { IsErr result
            ↔ ((failing_write self.old ≡ Some (write_calls self.old + 1)) ⊎ (bytes.now ≢ [])
            × (room_for self.old (length bytes.now) ≡ 0)) }
        ensures count { IfOk result (λ count. count ≡ room_for self.old (length bytes.now)) }
        ensures failed { failing_write self.old ≡ Some (write_calls self.old + 1)
            → failing_write self.new ≡ None }
        ensures failing { failing_write self.old ≢ Some (write_calls self.old + 1)
            → failing_write self.new ≡ failing_write self.old }
        ensures most { most_written self.new ≡ most_written self.old }
    {
        let room = self.taken.remaining_capacity();
        let count = bytes.len().min(self.most).min(room);
        if self.countdown.is_failing() || (count == 0 && !bytes.is_empty()) {
            self.journal.note_failure();
            return Err(io::Error::other("this write fails"));
        }
        let front = &bytes[..count];
        self.taken.try_extend_from_slice(front).unwrap();
        self.journal.note_move(front);
        Ok(count)
    }
}
