//! The lines below a refused line of a game.
ghost use Rattle.std.specs.Prelude.{◌≡◌, ◌≤◌, ◌+◌, ◌++◌, ℕ, List, IsTrue, length};
ghost use Rattle.arrayvec.specs.ArrayString.{array_string_len};
ghost use Rattle.riichi_game_text.specs.Names.{names_in};
ghost use Rattle.riichi_game_hints.specs.Hints as spec;
ghost use Rattle.riichi_game_hints.specs.Trials as trials;

use crate::keeping::keeps;
use crate::line::{MOST_MADE, mark_of, push_line};
use crate::payment::{Table, with_payment};
use crate::reason::{MOST_REASON, Refused, fault_words, push_reason, says_undo};
use riichi_game::Progress;
use riichi_game_drafts::{Draft, Line, MOST_GUESS, MOST_LINE_SHOWN, Readers};
use riichi_game_text::{GameFault, Names, read_entry};
use riichi_table::TableRules;
use riichi_text::{ANSWER_ROOM, AnswerText};

/// The bytes of all the lines below a refused line.
pub const MOST_GAME_HINT: usize = "  ".len() + MOST_REASON + MOST_MADE;

/// The longest line that is read for what it may mean.
const MOST_READ: usize = 512;

/// Writes below the answer to a refused line what is wrong, and where one is found a line to try, which is accepted in this state; or
/// how such a line is written. Each of the lines begins with two spaces, and the last is written without its end. A line behind `try:`
/// keeps the numbers and the players of the refused one; above one behind `guess:` stands what is guessed.
pub fn push_game_hint(
    text: &mut AnswerText,
    names: &Names,
    rules: &TableRules,
    progress: &Progress,
    line: &[u8],
    fault: GameFault,
)
    requires { array_string_len text.old + MOST_GAME_HINT ≤ ANSWER_ROOM }
    ensures hint { (said : List ℕ)
        × spec.IsGameHint (names_in names.now) progress.now rules.now line.now fault said
        × (text.new.bytes ≡ text.old.bytes ++ said) }
    ensures len { array_string_len text.new ≤ array_string_len text.old + MOST_GAME_HINT }
{
    let by = Readers {
        names,
        dealer: progress.state.dealer,
    };
    let mut draft = Draft::read(&by, readable(line, &fault));
    if fault == GameFault::G8 {
        draft.leave_out_nagashi();
    }
    text.push_str("  ");
    let refused = Refused {
        line,
        fault,
        start: rules.start,
    };
    push_reason(text, names, &draft, &refused);
    let table = Table {
        names,
        rules,
        progress,
    };
    let drafted = draft.line(names);
    let made = with_payment(&table, &mut draft, drafted);
    let trial = Trial {
        names,
        rules,
        progress,
        line,
        fault,
        guess: draft.guess.text.as_slice(),
    };
    trial.push_made(text, draft.is_pattern, &made);
}

/// What is read of a line for what it may mean: nothing of a long one, of one that is no text, and of one that is refused whatever it
/// says.
fn readable<'a>(line: &'a [u8], fault: &GameFault) -> &'a [u8] {
    match fault {
        GameFault::G1 | GameFault::G12 | GameFault::G13 => &[],
        GameFault::G14 => b"undo",
        GameFault::G4 if says_undo(line) => &[],
        _ => if line.len() <= MOST_READ { line } else { &[] },
    }
}

/// A refused line, and what a line to try is tried by.
#[derive(Clone, Copy)]
struct Trial<'a> {
    names: &'a Names,
    rules: &'a TableRules,
    progress: &'a Progress,
    line: &'a [u8],
    fault: GameFault,
    /// What is guessed, in words.
    guess: &'a [u8],
}

impl<'a> Trial<'a> {
    /// Writes how a line is written, or a line to try.
    fn push_made(&self, text: &mut AnswerText, is_pattern: bool, made: &Option<Line>)
        requires guess { length self.now.guess.now ≤ MOST_GUESS }
        requires room { array_string_len text.old + MOST_MADE ≤ ANSWER_ROOM }
        ensures made { trials.PutsMade self.now text.old.bytes text.new.bytes }
        ensures len { array_string_len text.new ≤ array_string_len text.old + MOST_MADE }
    {
        match made {
            None => {}
            Some(line) => if is_pattern {
                self.push_pattern(text, line.as_slice());
            } else {
                self.push_other(text, line.as_slice());
            },
        }
    }

    /// Writes how a line is written, behind what is guessed.
    fn push_pattern(&self, text: &mut AnswerText, pattern: &[u8])
        requires guess { length self.now.guess.now ≤ MOST_GUESS }
        requires pattern { length pattern.now ≤ MOST_LINE_SHOWN }
        requires room { array_string_len text.old + MOST_MADE ≤ ANSWER_ROOM }
        ensures made { trials.PutsMade self.now text.old.bytes text.new.bytes }
        ensures len { array_string_len text.new ≤ array_string_len text.old + MOST_MADE }
    {
        push_line(text, self.guess, "\n  write: ", pattern);
    }

    /// Writes a line to try, where it is accepted; or why that one is refused too, where this is for another fault.
    fn push_other(&self, text: &mut AnswerText, other: &[u8])
        requires guess { length self.now.guess.now ≤ MOST_GUESS }
        requires other { length other.now ≤ MOST_LINE_SHOWN }
        requires room { array_string_len text.old + MOST_MADE ≤ ANSWER_ROOM }
        ensures made { trials.PutsMade self.now text.old.bytes text.new.bytes }
        ensures len { array_string_len text.new ≤ array_string_len text.old + MOST_MADE }
    {
        match read_entry(self.names, self.progress, self.rules, other) {
            Ok(_) => self.push_tried(text, other),
            Err(fault) => if fault != self.fault {
                text.push_str("\n  also: ");
                text.push_str(fault_words(&fault));
            },
        }
    }

    /// Writes an accepted line to try, below what is guessed; where nothing is, only one that keeps what the refused line says.
    fn push_tried(&self, text: &mut AnswerText, other: &[u8])
        requires guess { length self.now.guess.now ≤ MOST_GUESS }
        requires other { length other.now ≤ MOST_LINE_SHOWN }
        requires accepted { trials.IsAcceptedIn self.now other.now }
        requires room { array_string_len text.old + MOST_MADE ≤ ANSWER_ROOM }
        ensures made { trials.PutsMade self.now text.old.bytes text.new.bytes }
        ensures len { array_string_len text.new ≤ array_string_len text.old + MOST_MADE }
    {
        if self.keeps_or_guesses(other) {
            push_line(text, self.guess, mark_of(self.guess), other);
        }
    }

    /// Whether something is guessed, or a line keeps what the refused one says.
    fn keeps_or_guesses(&self, other: &[u8]) -> bool
        ensures { IsTrue result → trials.KeepsOrGuessesIn self.now other.now }
    {
        if self.guess.is_empty() {
            keeps(self.names, self.line, other)
        } else {
            true
        }
    }
}
