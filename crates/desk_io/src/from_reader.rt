//! A reader of std as a source.
ghost use Rattle.std.specs.Prelude.{◌≡◌, [], IsTrue};

use super::journal::Journal;
use super::source::Source;
use std::io;
use std::io::Read;

/// Any reader of std: standard input, a file.
#[derive(Drop)]
pub struct FromReader<R> {
    reader: R,
    journal: Journal,
}

impl<R: Read> FromReader<R> {
    /// A source that was not called yet, and gives what the reader gives.
    pub fn new(reader: R) -> FromReader<R>
        ensures left { ⟦<FromReader<R> as Source>⟧.left result ≡ R.remaining reader }
        ensures given { ⟦<FromReader<R> as Source>⟧.given result ≡ [] }
        ensures calls { ⟦<FromReader<R> as Source>⟧.calls result ≡ 0 }
        ensures failures { ⟦<FromReader<R> as Source>⟧.failures result ≡ 0 }
        ensures ends { ⟦<FromReader<R> as Source>⟧.ends result ≡ 0 }
    {
        FromReader {
            reader,
            journal: Journal::new(),
        }
    }
}

impl<R: Read> Source for FromReader<R> {
    ghost given = { λ s. s.journal.bytes };

    ghost left = { λ s. R.remaining s.reader };

    ghost is_ended = { λ s. IsTrue s.journal.is_ended };

    ghost calls = { λ s. s.journal.calls };

    ghost failures = { λ s. s.journal.failures };

    ghost ends = { λ s. s.journal.ends };

    fn read(&mut self, buffer: &mut [u8]) -> io::Result<usize> {
        match self.reader.read(buffer) {
            Ok(0) if !buffer.is_empty() => {
                self.journal.note_end();
                Ok(0)
            }
            Ok(count) => {
                self.journal.note_move(&buffer[..count]);
                Ok(count)
            }
            Err(error) => {
                self.journal.note_failure();
                Err(error)
            }
        }
    }
}
