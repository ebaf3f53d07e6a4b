//! The command `help-codes`: every code that the program can answer with, in words.
ghost use Rattle.std.specs.Prelude.{◌≡◌, false, IfOk};

use crate::answers::printed;
use crate::failure::Failure;
use crate::noted::Notes;
use desk_cli::EXIT_STATUSES;
use riichi_hand::{LineCode, LineFault, TextName, line_code_text, notation_code_text};
use riichi_refusals::fault_words;
use riichi_tiles::{NotationCode, NotationFault};
use std::io::{self, Print};

/// The codes that are of no line. The exit statuses stand below them.
const OTHERS: &str = "\
A command of a script is refused
  P1   a line is one of the commands, has at most 8192 bytes, and its record is no comment
  P2   a table of this name is open
  P3   no table of this name is open yet
  P4   at most 64 tables are open
  C1   the table is not closed
  C2   a table hands in at most 1,000,000 hands
  C3   there is memory for the hand
The program gives up
  F1   the input can't be read, or has no end
  F2   the answers can't be written
  F3   there is no memory
  B1   there are too many files, or too many hands in one
  B4   there is no thread
";

/// Prints every code with its words. No line is refused.
pub fn print_codes<'a, R: Print>(rt: &R, notes: &Notes<'a>) -> Result<bool, Failure<'a>>
    ensures { IfOk result (λ is_refused. is_refused ≡ false) }
{
    printed(notes, print_all(rt))
}

fn print_all<R: Print>(rt: &R) -> io::Result<()> {
    println!(rt; "A line is refused")?;
    for code in LineCode::ALL {
        let words = fault_words(&LineFault::Line(code));
        let code = line_code_text(code);
        println!(rt; "  {code:<3}  {words}")?;
    }
    print_notation(rt)?;
    println!(rt; "{OTHERS}Exit status\n{EXIT_STATUSES}")
}

fn print_notation<R: Print>(rt: &R) -> io::Result<()> {
    println!(rt; "A text of tiles is refused")?;
    for code in NotationCode::ALL {
        let fault = NotationFault { code, place: 0 };
        let words = fault_words(&LineFault::Notation(TextName::Hand, fault));
        let code = notation_code_text(code);
        println!(rt; "  {code:<3}  {words}")?;
    }
    Ok(())
}
