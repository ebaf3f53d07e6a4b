//! Lines that are written below an answer.
ghost use Rattle.std.specs.Prelude.{◌≡◌, ◌≤◌, ◌+◌, ◌++◌, IfSome, length};
ghost use Rattle.arrayvec.specs.ArrayString.{array_string_len};
ghost use Rattle.riichi_game_hints.specs.Lines as spec;

use riichi_game_drafts::{MOST_GUESS, MOST_LINE_SHOWN};
use riichi_game_text::is_odd;
use riichi_text::{ANSWER_ROOM, AnswerText};

/// The bytes of the longest mark of a line.
pub(crate) const MOST_MARK: usize = "\n  guess: game ".len();

const MOST_HERE: usize = "\n  here ".len() + MOST_GUESS;

/// The bytes of what is guessed, and of a line behind it.
pub(crate) const MOST_MADE: usize = MOST_HERE + MOST_MARK + MOST_LINE_SHOWN;

/// Writes what is guessed, where something is, and a line behind its mark; neither, where one of the two is no text or has a control
/// byte.
pub(crate) fn push_line(text: &mut AnswerText, guess: &[u8], mark: &str, line: &[u8])
    requires guess { length guess.now ≤ MOST_GUESS }
    requires mark { length mark.now ≤ MOST_MARK }
    requires line { length line.now ≤ MOST_LINE_SHOWN }
    requires room { array_string_len text.old + MOST_MADE ≤ ANSWER_ROOM }
    ensures told { spec.PutsHintLine guess.now mark.now line.now text.old.bytes text.new.bytes }
    ensures len { array_string_len text.new ≤ array_string_len text.old + MOST_MADE }
{
    if let (Some(guess), Some(line)) = (shown_text(guess), shown_text(line)) {
        push_guess(text, guess);
        text.push_str(mark);
        text.push_str(line);
    }
}

/// Writes what is guessed, where something is.
fn push_guess(text: &mut AnswerText, guess: &str)
    requires guess { length guess.now ≤ MOST_GUESS }
    requires room { array_string_len text.old + MOST_HERE ≤ ANSWER_ROOM }
    ensures told { text.new.bytes ≡ text.old.bytes ++ spec.here_line guess.now }
    ensures len { array_string_len text.new ≤ array_string_len text.old + MOST_HERE }
{
    if !guess.is_empty() {
        text.push_str("\n  here ");
        text.push_str(guess);
    }
}

/// What stands before a line to try.
pub(crate) fn mark_of(guess: &[u8]) -> &'static str
    ensures value { result.now ≡ spec.game_mark guess.now }
    ensures short { length result.now ≤ MOST_MARK }
{
    if guess.is_empty() {
        "\n  try: "
    } else {
        "\n  guess: "
    }
}

/// What stands before the words of a line `game` to try.
pub(crate) fn game_mark_of(guess: &[u8]) -> &'static str
    ensures value { result.now ≡ spec.game_mark_of guess.now }
    ensures short { length result.now ≤ MOST_MARK }
{
    if guess.is_empty() {
        "\n  try: game "
    } else {
        "\n  guess: game "
    }
}

/// Words as a text, where they have no control bytes.
pub(crate) fn shown_text(words: &[u8]) -> Option<&str>
    ensures { IfSome result (λ text. text.now ≡ words.now) }
{
    if is_odd(words) {
        return None;
    }
    match std::str::from_utf8(words) {
        Ok(text) => Some(text),
        Err(_) => None,
    }
}
