//! The version, and what the program was proved with.
use crate::answers::printed;
use crate::failure::Failure;
use crate::noted::Notes;
use clap::Error;
use desk_score::ScoreFault;
use std::io::{self, Eprint, Print};
use std::rt::Files;
use std::{env, fs};

/// The file beside the program in which `./prove` writes what it was proved with.
const PROVED: &str = "riichi_desk.proved";

/// Prints the version, which clap gives, and below it what the program was proved with, where the file that says it is
/// there. No line is refused. Where there is no memory, nothing is printed.
pub fn print_version<'a, R: Print + Eprint + Files + AllocGlobal>(
    rt: &R,
    notes: &Notes<'a>,
    version: &Error,
) -> Result<bool, Failure<'a>> {
    let text = match proved_with(rt) {
        Ok(text) => text,
        Err(error) => match error.kind() {
            io::ErrorKind::OutOfMemory => return Err(Failure::Fault(ScoreFault::Memory)),
            _ => String::new(rt.alloc()),
        },
    };
    printed(notes, version.print(rt))?;
    printed(notes, print!(rt; "{text}"))
}

fn proved_with<R: Files + AllocGlobal>(rt: &R) -> io::Result<String> {
    let program = env::current_exe(rt)?;
    let file = program.with_file_name(rt.alloc(), PROVED)?;
    fs::read_to_string(rt, &file)
}
