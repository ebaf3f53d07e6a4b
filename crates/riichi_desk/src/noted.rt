//! What the system said of the stream that failed last, and what the first bytes of a stream show.
use crate::progress::Progress;
use desk_notes::{Opening, Sign, SignWords};
use std::cell::Cell;
use std::io::{self, Eprint, ErrorKind, Print, Printer, Read, Write};
use std::time::Clock;

/// The failure of a stream: its name, and what the system said.
#[derive(Clone, Copy)]
struct Note<'a> {
    name: &'a str,
    kind: ErrorKind,
    code: Option<i32>,
}

/// The failure that was noted last.
#[derive(Drop)]
pub struct Notes<'a> {
    last: Cell<Option<Note<'a>>>,
}

/// A stream whose failures are noted under its name.
#[derive(Drop)]
pub struct Noted<'n, 'a, T> {
    stream: T,
    name: &'a str,
    notes: &'n Notes<'a>,
}

impl<'a> Notes<'a> {
    /// No failure yet.
    pub fn new() -> Notes<'a> {
        Notes {
            last: Cell::new(None),
        }
    }

    /// A reader whose failures are noted under this name.
    pub fn reader<'n, T: Read>(&'n self, name: &'a str, stream: T) -> Noted<'n, 'a, T> {
        Noted {
            stream,
            name,
            notes: self,
        }
    }

    /// Standard output, whose failures are noted.
    pub fn output<'n, P: Print>(&'n self, rt: &'n P) -> Noted<'n, 'a, Printer<'n, P>> {
        Noted {
            stream: io::writer(rt),
            name: OUTPUT,
            notes: self,
        }
    }

    /// Notes that the file of this name can't be opened.
    pub fn unopened(&self, name: &'a str, error: &io::Error) {
        self.note(name, error);
    }

    /// Notes that standard output failed.
    pub fn output_failed(&self, error: &io::Error) {
        self.note(OUTPUT, error);
    }

    fn note(&self, name: &'a str, error: &io::Error) {
        self.last.set(Some(Note {
            name,
            kind: error.kind(),
            code: error.raw_os_error(),
        }));
    }

    /// Whether what failed last is that nobody reads standard output any more.
    pub fn is_unread(&self) -> bool {
        match self.last.get() {
            Some(note) => note.kind == ErrorKind::BrokenPipe,
            None => false,
        }
    }

    /// Says on standard error which stream failed, in the system's words, and what may be done.
    pub fn tell<R: Eprint>(&self, rt: &R) {
        if let Some(note) = self.last.get() {
            let name = note.name;
            match note.code {
                Some(code) => {
                    let error = io::Error::from_raw_os_error(code);
                    let _ = eprintln!(rt; "riichi_desk: {name}: {error}");
                }
                None => {
                    let kind = note.kind;
                    let _ = eprintln!(rt; "riichi_desk: {name}: {kind}");
                }
            }
            if let Some(advice) = advice_on(note.kind) {
                let _ = eprintln!(rt; "  {advice}");
            }
        }
    }
}

/// What may be done where a file can't be opened or read.
fn advice_on(kind: ErrorKind) -> Option<&'static str> {
    match kind {
        ErrorKind::NotFound => Some(
            "look at the name, and at the folder that the command runs in; a name with a space stands in quotes",
        ),
        ErrorKind::IsADirectory => Some("it is a folder: name the files in it"),
        ErrorKind::PermissionDenied => Some("whoever runs the command may not do that here"),
        _ => None,
    }
}

const OUTPUT: &str = "standard output";

impl<R: Read> Read for Noted<'_, '_, R> {
    ghost remaining = { λ noted. R.remaining noted.stream };

    fn read(&mut self, buffer: &mut [u8]) -> io::Result<usize> {
        match self.stream.read(buffer) {
            Ok(count) => Ok(count),
            Err(error) => {
                self.notes.note(self.name, &error);
                Err(error)
            }
        }
    }
}

/// A reader of a text: its failures are noted, and how far it is read is shown on standard error, up to its end. What its first
/// bytes show is said there: that it was saved so that its first line can't be read, or is of games where record lines are wanted.
#[derive(Drop)]
pub struct Watched<'n, 'a, R, T> {
    reader: Noted<'n, 'a, T>,
    opening: Opening,
    /// Whether record lines are wanted, and no games.
    is_of_lines: bool,
    progress: &'n Progress<'n, R>,
}

impl<'a> Notes<'a> {
    /// A reader of record lines under this name.
    pub fn lines<'n, R: Eprint + Clock, T: Read>(
        &'n self,
        progress: &'n Progress<'n, R>,
        name: &'a str,
        stream: T,
    ) -> Watched<'n, 'a, R, T> {
        self.watched(true, progress, name, stream)
    }

    /// A reader of another text under this name: of games, names or a script.
    pub fn text<'n, R: Eprint + Clock, T: Read>(
        &'n self,
        progress: &'n Progress<'n, R>,
        name: &'a str,
        stream: T,
    ) -> Watched<'n, 'a, R, T> {
        self.watched(false, progress, name, stream)
    }

    fn watched<'n, R: Eprint + Clock, T: Read>(
        &'n self,
        is_of_lines: bool,
        progress: &'n Progress<'n, R>,
        name: &'a str,
        stream: T,
    ) -> Watched<'n, 'a, R, T> {
        Watched {
            reader: self.reader(name, stream),
            opening: Opening::new(),
            is_of_lines,
            progress,
        }
    }
}

impl<R: Eprint + Clock, T> Watched<'_, '_, R, T> {
    /// Says what the first bytes show, unless they show the text that is wanted.
    fn tell(&self, sign: Sign) {
        if self.is_of_lines || sign != Sign::Games {
            let words = SignWords {
                name: self.reader.name,
                sign,
            };
            let _ = eprintln!(self.progress.wiped(); "{words}");
        }
    }
}

impl<R: Eprint + Clock, T: Read> Read for Watched<'_, '_, R, T> {
    ghost remaining = { λ watched. T.remaining watched.reader.stream };

    fn read(&mut self, buffer: &mut [u8]) -> io::Result<usize> {
        let count = self.reader.read(buffer)?;
        match buffer.get(..count) {
            None | Some([]) => self.progress.wipe(),
            Some(bytes) => {
                if let Some(sign) = self.opening.sign_by(bytes) {
                    self.tell(sign);
                }
                self.progress.read(bytes);
            }
        }
        Ok(count)
    }
}

impl<W: Write> Write for Noted<'_, '_, W> {
    ghost contents = { λ noted. W.contents noted.stream };

    fn write(&mut self, bytes: &[u8]) -> io::Result<usize> {
        match self.stream.write(bytes) {
            Ok(count) => Ok(count),
            Err(error) => {
                self.notes.note(self.name, &error);
                Err(error)
            }
        }
    }

    fn flush(&mut self) -> io::Result<()> {
        self.stream.flush()
    }
}
