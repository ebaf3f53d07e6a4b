//! Files that are read.
ghost use Rattle.std.specs.Prelude.{◌≡◌, IfErr};
ghost use Rattle.riichi_desk.specs.Failures.{IsUnopened, is_input};

use crate::failure::Failure;
use crate::noted::Notes;
use crate::progress::Progress;
use desk_lines::DeskFault;
use desk_score::ScoreFault;
use std::alloc::Global;
use std::io::{Eprint, Input, Read};
use std::rt::Files;
use std::time::Clock;
use std::{fs, io};

/// Whether a name is that of standard input.
pub fn is_input(name: &str) -> bool
    ensures { result ≡ is_input name.now }
{
    name == "-"
}

/// Opens a file to be read. Why that fails is noted.
pub fn open_file<'a, R: Files>(
    rt: &R,
    notes: &Notes<'a>,
    file: &'a str,
) -> Result<R::File, Failure<'a>>
    ensures { IfErr result (IsUnopened file.now) }
{
    match fs::open(rt, file) {
        Ok(opened) => Ok(opened),
        Err(error) => Err(match error.kind() {
            io::ErrorKind::OutOfMemory => Failure::Fault(ScoreFault::Memory),
            _ => {
                notes.unopened(file, &error);
                Failure::CannotOpen(file)
            }
        }),
    }
}

/// The text of a file, or of standard input.
pub fn text_of<'a, R: Input + Eprint + Files + Clock + AllocGlobal>(
    rt: &R,
    notes: &Notes<'a>,
    progress: &Progress<'_, R>,
    file: &'a str,
) -> Result<Vec<u8>, Failure<'a>> {
    if is_input(file) {
        read_whole(
            rt.alloc(),
            notes.text(progress, "standard input", rt.reader()),
        )
    } else {
        read_whole(
            rt.alloc(),
            notes.text(progress, file, open_file(rt, notes, file)?),
        )
    }
}

/// All that a stream gives.
fn read_whole<'a, T: Read + Drop>(alloc: Global, stream: T) -> Result<Vec<u8>, Failure<'a>> {
    let mut stream = stream;
    let mut text = Vec::new(alloc);
    match stream.read_to_end(&mut text) {
        Ok(_) => Ok(text),
        Err(error) => Err(match error.kind() {
            io::ErrorKind::OutOfMemory => Failure::Fault(ScoreFault::Memory),
            _ => Failure::Explained(DeskFault::Read),
        }),
    }
}

/// How many bytes these files have together, where each is a file that has a length.
pub fn length_of<R: Files>(rt: &R, files: &[&str]) -> Option<u64> {
    let mut length: u64 = 0;
    for file in files {
        let told = fs::metadata(rt, *file).ok()?;
        if is_input(*file) || !told.is_file() {
            return None;
        }
        length = length.saturating_add(told.len());
    }
    Some(length)
}
