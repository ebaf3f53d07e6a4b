//! A writer of std as a sink.
ghost use Rattle.std.specs.Prelude.{◌≡◌, []};

use super::journal::Journal;
use super::sink::Sink;
use std::io;
use std::io::Write;

/// Any writer of std: standard output, a file.
#[derive(Drop)]
pub struct ToWriter<W> {
    writer: W,
    journal: Journal,
}

impl<W: Write> ToWriter<W> {
    /// A sink that was not called yet, and hands on to the writer what it takes.
    pub fn new(writer: W) -> ToWriter<W>
        ensures written { ⟦<ToWriter<W> as Sink>⟧.written result ≡ [] }
        ensures contents { ⟦<ToWriter<W> as Sink>⟧.contents result ≡ W.contents writer }
        ensures calls { ⟦<ToWriter<W> as Sink>⟧.calls result ≡ 0 }
        ensures failures { ⟦<ToWriter<W> as Sink>⟧.failures result ≡ 0 }
    {
        ToWriter {
            writer,
            journal: Journal::new(),
        }
    }
}

impl<W: Write> Sink for ToWriter<W> {
    ghost written = { λ s. s.journal.bytes };

    ghost contents = { λ s. W.contents s.writer };

    ghost calls = { λ s. s.journal.calls };

    ghost failures = { λ s. s.journal.failures };

    fn write(&mut self, bytes: &[u8]) -> io::Result<usize> {
        match self.writer.write(bytes) {
            Ok(0) if !bytes.is_empty() => {
                self.journal.note_failure();
                Ok(0)
            }
            Ok(count) => {
                self.journal.note_move(&bytes[..count]);
                Ok(count)
            }
            Err(error) => {
                self.journal.note_failure();
                Err(error)
            }
        }
    }
}
