//! A reader over memory.
ghost use Rattle.std.specs.Prelude.{◌≡◌, ◌<◌, [], Some};

use super::countdown::Countdown;
use super::journal::Journal;
use super::source::Source;
use std::io;

/// Gives the bytes of a slice, and can fail once.
#[derive(Drop)]
pub struct BytesIn<'a> {
    rest: &'a [u8],
    most: usize,
    countdown: Countdown,
    journal: Journal,
    ghost moves: { 0 < most },
}

impl<'a> BytesIn<'a> {
    ghost use Rattle.desk_io.specs.BytesIn.{failing_read, most_read};
    ghost use Rattle.desk_io.specs.Calls.{call_number};

    /// At most `most` bytes a read. The read of the number `failing`, counted from 1, fails.
    pub fn new(bytes: &'a [u8], most: usize, failing: Option<u64>) -> BytesIn<'a>
        requires { 0 < most }
        ensures left { ⟦<BytesIn<'a> as Source>⟧.left result ≡ Some bytes.now }
        ensures given { ⟦<BytesIn<'a> as Source>⟧.given result ≡ [] }
        ensures calls { ⟦<BytesIn<'a> as Source>⟧.calls result ≡ 0 }
        ensures failures { ⟦<BytesIn<'a> as Source>⟧.failures result ≡ 0 }
        ensures ends { ⟦<BytesIn<'a> as Source>⟧.ends result ≡ 0 }
        ensures failing { failing_read result ≡ call_number failing }
        ensures most { most_read result ≡ most }
    {
        BytesIn {
            rest: bytes,
            most,
            countdown: Countdown::to(failing),
            journal: Journal::new(),
        }
    }
}

impl Source for BytesIn<'_> {
    ghost use Rattle.std.specs.Prelude.{◌+◌, ◌↔◌, ◌++◌, length, min, IfOk, IsErr, OnOk, OnErr, None};
    ghost use Rattle.std.specs.Io.{ReadsAtMost};
    ghost use Rattle.std.specs.Io.KnownBytes.{ReadConsumes};
    ghost use Rattle.desk_io.specs.Calls.{bytes_read, failed_reads, found_ends};
    ghost use Rattle.desk_io.specs.BytesIn.{bytes_given, bytes_left, read_calls, read_failures, read_ends, failing_read, most_read};

    ghost given = { bytes_given };

    ghost left = { λ s. Some (bytes_left s) };

    ghost is_ended = { λ s. bytes_left s ≡ [] };

    ghost calls = { read_calls };

    ghost failures = { read_failures };

    ghost ends = { read_ends };

    fn read(&mut self, buffer: &mut [u8]) -> io::Result<usize>
        ensures bound { ReadsAtMost result buffer.new }
        ensures given { bytes_given self.new
            ≡ bytes_given self.old ++ bytes_read result buffer.new }
        ensures left { ReadConsumes (Some (bytes_left self.old)) (Some
            (bytes_left self.new)) result buffer.new }
        ensures ended { IfOk result (λ count. count ≡ 0 → 0 < length buffer.old
            → bytes_left self.new ≡ []) }
        ensures calls { read_calls self.new ≡ read_calls self.old + 1 }
        ensures failures { read_failures self.new ≡ read_failures self.old + failed_reads result }
        ensures ends { read_ends self.new ≡ read_ends self.old + found_ends result buffer.old }

        // It fails at the chosen call alone, and else gives as much as it may.
        ensures fails { IsErr result ↔ (failing_read self.old ≡ Some (read_calls self.old + 1)) }
        ensures count { IfOk result (λ count. count
            ≡ min (min (length (bytes_left self.old)) (most_read self.old)) (length buffer.old)) }
        ensures failing { OnOk result (failing_read self.new ≡ failing_read self.old) }
        ensures failed { OnErr result (failing_read self.new ≡ None) }
        ensures most { most_read self.new ≡ most_read self.old }
    {
        if self.countdown.is_failing() {
            self.journal.note_failure();
            return Err(io::Error::other("this read fails"));
        }
        let count = self.rest.len().min(self.most).min(buffer.len());
        if count == 0 && !buffer.is_empty() {
            self.journal.note_end();
            return Ok(0);
        }
        let (front, rest) = self.rest.split_at(count);
        buffer[..count].copy_from_slice(front);
        self.journal.note_move(front);
        self.rest = rest;
        Ok(count)
    }
}
