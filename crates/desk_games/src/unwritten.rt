//! Answers that nobody reads.
ghost use Rattle.std.specs.Prelude.{◌≡◌, None, IsOk};

use desk_io::{Journal, Sink};
use std::io;

/// Takes all that is written, and keeps none of it.
#[derive(Drop)]
pub(crate) struct Unwritten {
    journal: Journal,
}

impl Unwritten {
    pub(crate) fn new() -> Unwritten {
        Unwritten {
            journal: Journal::new(),
        }
    }
}

impl Sink for Unwritten {
    ghost written = { λ sink. sink.journal.bytes };

    ghost contents = { λ _. None };

    ghost calls = { λ sink. sink.journal.calls };

    ghost failures = { λ _. 0 };

    fn write(&mut self, bytes: &[u8]) -> io::Result<usize> {
        self.journal.note_move(bytes);
        Ok(bytes.len())
    }
}
