//! Answers in memory.
ghost use Rattle.std.specs.Prelude.{◌≡◌, ◌++◌, [], ◌∷◌, Some, OnOk, map, option_map};
ghost use Rattle.desk_score.specs.Heads.{head_line, name_behind, shown_byte};

use arrayvec::ArrayString;
use desk_io::{Journal, Sink};
use riichi_text::push_number;
use std::alloc::{AllocError, Global};
use std::io::{self, ErrorKind};

/// Answers in memory. As a sink it takes all of each text, but where there is no memory for it.
#[derive(Drop)]
pub(crate) struct Paper {
    text: Vec<u8>,
    journal: Journal,
}

impl Paper {
    pub(crate) fn new(alloc: Global) -> Paper
        ensures { result.text.items ≡ [] }
    {
        Paper {
            text: Vec::new(alloc),
            journal: Journal::new(),
        }
    }

    pub(crate) fn as_slice(&self) -> &[u8]
        ensures { result.now ≡ self.now.text.items }
    {
        self.text.as_slice()
    }

    /// Puts the line that stands before the answers of a table, with its name where that is told.
    pub(crate) fn put_head(&mut self, number: usize, name: Option<&str>) -> Result<(), AllocError>
        ensures { OnOk result (self.new.text.items
            ≡ self.old.text.items ++ head_line number (option_map (λ name. name.now) name.entry)) }
    {
        let mut head: ArrayString<26> = ArrayString::new();
        head.push_str("table ");
        push_number(&mut head, number);
        self.text.extend_from_slice(head.as_str().as_bytes())?;
        self.put_name(name)?;
        self.text.push(b'\n')?;
        Ok(())
    }

    /// Puts the name of a table behind its number, where it is told.
    fn put_name(&mut self, name: Option<&str>) -> Result<(), AllocError>
        ensures { OnOk result (self.new.text.items
            ≡ self.old.text.items ++ name_behind (option_map (λ name. name.now) name.entry)) }
    {
        let Some(name) = name else {
            return Ok(());
        };
        self.text.push(b' ')?;
        for byte in name.as_bytes() {
            self.text.push(printable(*byte))?;
        }
        Ok(())
    }
}

impl Sink for Paper {
    ghost written = { λ paper. paper.text.items };

    ghost contents = { λ paper. Some paper.text.items };

    ghost calls = { λ paper. paper.journal.calls };

    ghost failures = { λ paper. paper.journal.failures };

    fn write(&mut self, bytes: &[u8]) -> io::Result<usize> {
        match self.text.extend_from_slice(bytes) {
            Ok(()) => {
                self.journal.note_move(bytes);
                Ok(bytes.len())
            }
            Err(_) => {
                self.journal.note_failure();
                Err(io::Error::from(ErrorKind::OutOfMemory))
            }
        }
    }
}

/// A byte of a name as it is shown: `?` in place of one that isn't printed ASCII.
fn printable(byte: u8) -> u8
    ensures { result ≡ shown_byte byte }
{
    match byte {
        b' '..=b'~' => byte,
        _ => b'?',
    }
}
