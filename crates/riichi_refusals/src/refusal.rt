//! The lines that follow a refusal.
ghost use Rattle.std.specs.Prelude.{◌≡◌, ◌+◌, ◌≤◌, ◌++◌, length, option_map};
ghost use Rattle.arrayvec.specs.ArrayString.{array_string_len};
ghost use Rattle.riichi_hand.specs.Refusals.{IsRefusalOf};
ghost use Rattle.riichi_refusals.specs.Refusal as spec;

use crate::meaning::{foreign_at, refusal_words};
use crate::shown::{
    BEFORE, MOST_MARKED, MOST_SHOWN, SHOWN, front, push_foreign, push_marked, push_shown,
};
use crate::words::MOST_FAULT_WORDS;
use riichi_hand::{Key, LineCode, LineFault, MOST_LINE, Refusal};
use riichi_text::{ANSWER_ROOM, AnswerText};

/// The bytes of the longest lines of a refusal: a word that is at fault with a mark below it.
pub const MOST_REFUSAL: usize = MOST_MARKED;

const MOST_NAMED_WORD: usize = MOST_SHOWN + ": ".len();

const MOST_MISSING: usize = Key::MOST_NAME + " is missing: ".len();

/// Writes the lines of a refusal: the word of the line that is at fault, and what may stand there. All that it writes is
/// seen, and each of its lines begins with two spaces.
#[tactic(auto, unfolding(crate::specs::Refusal::refusal_lines, crate::specs::Refusal::fault_lines, crate::specs::Refusal::code_lines, riichi_hand::specs::Refusals::key_at))]
pub fn push_refusal_lines(text: &mut AnswerText, line: &[u8], refusal: &Refusal<'_>)
    requires room { array_string_len text.old + MOST_REFUSAL ≤ ANSWER_ROOM }
    requires refusal { IsRefusalOf line.now refusal.now }
    ensures { text.new.bytes ≡ text.old.bytes ++ spec.refusal_lines line.now refusal.now.fault }
{
    let words = refusal_words(line, refusal);
    match refusal.fault {
        LineFault::Line(LineCode::H1) => push_foreign_lines(text, line, words),
        LineFault::Line(LineCode::H6) => push_missing_line(text, refusal.key, words),
        LineFault::Line(_) => push_word_line(text, refusal.word(), words),
        LineFault::Notation(_, fault) => push_notation_lines(
            text,
            fault.place,
            refusal.key,
            refusal.word().unwrap_or(&[]),
            words,
        ),
    }
}

/// Writes a word that is at fault, and what may stand there.
#[tactic(auto, unfolding(crate::specs::Refusal::word_line))]
fn push_word_line(text: &mut AnswerText, word: Option<&[u8]>, words: &str)
    requires room { array_string_len text.old + MOST_REFUSAL ≤ ANSWER_ROOM }
    requires words { length words.now ≤ MOST_FAULT_WORDS }
    ensures { text.new.bytes
        ≡ text.old.bytes ++ spec.word_line (option_map (λ word. word.now) word.entry) words.now }
{
    text.push_str("  ");
    push_named_word(text, word);
    text.push_str(words);
    text.push_str("\n");
}

#[tactic(auto, unfolding(crate::specs::Refusal::named_word))]
fn push_named_word(text: &mut AnswerText, word: Option<&[u8]>)
    requires { array_string_len text.old + MOST_NAMED_WORD ≤ ANSWER_ROOM }
    ensures bytes { text.new.bytes
        ≡ text.old.bytes ++ spec.named_word (option_map (λ word. word.now) word.entry) }
    ensures len { array_string_len text.new ≤ array_string_len text.old + MOST_NAMED_WORD }
{
    if let Some(word) = word {
        push_shown(text, front(word, SHOWN));
        text.push_str(": ");
    }
}

/// Shows the place of the first byte that is no printable ASCII. A line that is too long isn't shown.
#[tactic(auto, unfolding(crate::specs::Refusal::foreign_lines))]
fn push_foreign_lines(text: &mut AnswerText, line: &[u8], words: &str)
    requires room { array_string_len text.old + MOST_REFUSAL ≤ ANSWER_ROOM }
    requires words { length words.now ≤ MOST_FAULT_WORDS }
    ensures { text.new.bytes ≡ text.old.bytes ++ spec.foreign_lines line.now words.now }
{
    if line.len() > MOST_LINE {
        push_word_line(text, None, words);
    } else {
        push_foreign(text, line, foreign_at(line).unwrap_or(0), words);
    }
}

/// Tells the first key that a win must have and that no word gives.
#[tactic(auto, unfolding(crate::specs::Refusal::missing_line))]
fn push_missing_line(text: &mut AnswerText, key: Option<Key>, words: &str)
    requires room { array_string_len text.old + MOST_REFUSAL ≤ ANSWER_ROOM }
    requires words { length words.now ≤ MOST_FAULT_WORDS }
    ensures { text.new.bytes ≡ text.old.bytes ++ spec.missing_line key words.now }
{
    text.push_str("  ");
    push_missing(text, key);
    text.push_str(words);
    text.push_str("\n");
}

fn push_missing(text: &mut AnswerText, key: Option<Key>)
    requires { array_string_len text.old + MOST_MISSING ≤ ANSWER_ROOM }
    ensures bytes { text.new.bytes ≡ text.old.bytes ++ spec.missing_text key }
    ensures len { array_string_len text.new ≤ array_string_len text.old + MOST_MISSING }
{
    if let Some(key) = key {
        text.push_str(key.name());
        text.push_str(" is missing: ");
    }
}

/// Shows the place of a text's fault in its word.
#[tactic(auto, unfolding(crate::specs::Refusal::notation_lines))]
fn push_notation_lines(
    text: &mut AnswerText,
    place: usize,
    key: Option<Key>,
    word: &[u8],
    words: &str,
)
    requires room { array_string_len text.old + MOST_REFUSAL ≤ ANSWER_ROOM }
    requires words { length words.now ≤ MOST_FAULT_WORDS }
    ensures { text.new.bytes ≡ text.old.bytes ++ spec.notation_lines place key word.now words.now }
{
    push_marked(
        text,
        word,
        value_begins(key) + place.min(word.len()),
        BEFORE,
        words,
    );
}

/// How many bytes stand in a word before the value of its key. The hand has none.
fn value_begins(key: Option<Key>) -> usize
    ensures value { result ≡ spec.value_begins key }
    ensures few { result ≤ Key.MOST_NAME + 1 }
{
    match key {
        Some(key) => key.name().len() + 1,
        None => 0,
    }
}
