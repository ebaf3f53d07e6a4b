//! The lines below a refused line of which no game has a state.
ghost use Rattle.std.specs.Prelude.{◌≡◌, ◌≤◌, ◌+◌, ◌*◌, ◌++◌, ℕ, List, IfSome, length};
ghost use Rattle.arrayvec.specs.ArrayString.{array_string_len};
ghost use Rattle.riichi_hand.specs.Rules.{Rules};
ghost use Rattle.riichi_game_hints.specs.Begins as spec;

use crate::line::{MOST_MADE, game_mark_of, push_line};
use crate::reason::{MOST_FAULT_WORDS, fault_words, shown_word};
use riichi_game_drafts::{
    Command, Guess, Line, MOST_LINE_SHOWN, MOST_WORD, Meaning, Word, add, add_behind, is_near,
    meaning_of, put,
};
use riichi_game_text::{GameFault, next_said, read_game};
use riichi_hand::Rules;
use riichi_text::{ANSWER_ROOM, AnswerText};
use riichi_tiles::split_at_mark;

const MOST_WRONG: usize = MOST_WORD
    + " can't be: the rules of a table have no such word or value".len();

/// The bytes of the lines below a line of which no game has a state.
pub const MOST_BEGIN_HINT: usize = "  ".len() + MOST_FAULT_WORDS + MOST_WRONG + MOST_MADE;

const PATTERN: &str = "\n  write: game NAME NAME NAME NAME";

/// The words of the rules of a table.
const SETTINGS: [&str; 20] = [
    "table", "rules", "start", "return", "uma", "ties", "ron", "counters", "sticks", "liable",
    "nagashi", "renchan", "length", "extra", "bust", "stop", "left", "chombo", "session", "at",
];

/// Writes below the answer to a line that is refused before a game has begun, or behind a refused line `game`, what is wrong; and a
/// line `game` to try, which begins a game under these rules for hands, or how one is written.
pub fn push_begin_hint(text: &mut AnswerText, given: Rules, line: &[u8], fault: GameFault)
    requires { array_string_len text.old + MOST_BEGIN_HINT ≤ ANSWER_ROOM }
    ensures hint { (said : List ℕ) × spec.IsBeginHint given fault said
        × (text.new.bytes ≡ text.old.bytes ++ said) }
    ensures len { array_string_len text.new ≤ array_string_len text.old + MOST_BEGIN_HINT }
{
    let begin = Begin::read(given, readable(line, &fault));
    text.push_str("  ");
    begin.push_reason(text, given, &fault);
    begin.push_made(text, given);
}

/// What is read of a line: nothing of one that is no text.
fn readable<'a>(line: &'a [u8], fault: &GameFault) -> &'a [u8] {
    match fault {
        GameFault::G1 | GameFault::G14 => &[],
        _ => line,
    }
}

/// What the words of a line say of a game that begins.
#[derive(Drop)]
struct Begin {
    /// The words behind `game`.
    words: Line,
    guess: Guess,
    /// A word of the rules that can't be.
    wrong: Word,
    /// The line begins a game.
    begins: bool,
}

impl Begin {
    fn read(given: Rules, line: &[u8]) -> Begin {
        let mut begin = Begin {
            words: Line::new(),
            guess: Guess::new(),
            wrong: Word::new(),
            begins: false,
        };
        if let Some((first, words)) = next_said(line) {
            begin.begins = begins_game(first);
            begin.read_words(given, words);
        }
        begin
    }

    fn read_words(&mut self, given: Rules, text: &[u8]) {
        let mut rest = text;
        while let Some((word, after)) = next_said(rest) {
            match split_at_mark(word, b'=') {
                None => self.read_names(word),
                Some((key, value)) => self.read_rule(given, word, key, value),
            }
            rest = after;
        }
    }

    /// Reads names with commas between them.
    fn read_names(&mut self, word: &[u8]) {
        let mut rest = word;
        while let Some((name, after)) = split_at_mark(rest, b',') {
            self.read_name(name);
            rest = after;
        }
        self.read_name(rest);
    }

    fn read_name(&mut self, name: &[u8]) {
        if !name.is_empty() {
            add_behind(&mut self.words, b" ", name);
        }
    }

    /// Reads a word of the rules, or the one that it is nearly.
    fn read_rule(&mut self, given: Rules, word: &[u8], key: &[u8], value: &[u8]) {
        if read_game(given, word).is_some() {
            return add_behind(&mut self.words, b" ", word);
        }
        if self.wrong.is_empty() {
            put(&mut self.wrong, word);
        }
        if let Some(near) = near_setting(key) {
            add_behind(&mut self.words, b" ", near.as_bytes());
            add(&mut self.words, b"=");
            add(&mut self.words, value);
            self.guess.read_as(key, near.as_bytes());
        }
    }

    /// Writes the word that can't be, or what the code says.
    fn push_reason(&self, text: &mut AnswerText, given: Rules, fault: &GameFault)
        requires { array_string_len text.old + MOST_FAULT_WORDS + MOST_WRONG ≤ ANSWER_ROOM }
        ensures reason { (said : List ℕ) × spec.IsBeginReason given fault.now said
            × (text.new.bytes ≡ text.old.bytes ++ said) }
        ensures len { array_string_len text.new
            ≤ array_string_len text.old + MOST_FAULT_WORDS + MOST_WRONG }
    {
        match wrong_word(given, &self.wrong) {
            Some(word) => {
                text.push_str(word);
                text.push_str(" can't be: the rules of a table have no such word or value");
            }
            None => text.push_str(begin_words(fault)),
        }
    }

    /// Writes a line to try, where it begins a game; or else how one is written.
    fn push_made(&self, text: &mut AnswerText, given: Rules)
        requires { array_string_len text.old + MOST_MADE ≤ ANSWER_ROOM }
        ensures made { spec.PutsBegun given text.old.bytes text.new.bytes }
        ensures len { array_string_len text.new ≤ array_string_len text.old + MOST_MADE }
    {
        match self.begun_words(given) {
            None => text.push_str(PATTERN),
            Some(words) => {
                let guess = self.guess.text.as_slice();
                push_line(text, guess, game_mark_of(guess), words);
            }
        }
    }

    /// The words behind `game`, where they begin one.
    fn begun_words(&self, given: Rules) -> Option<&[u8]>
        ensures begun { IfSome result (λ words. spec.IsBegun given words.now) }
        ensures short { IfSome result (λ words. length words.now ≤ MOST_LINE_SHOWN) }
    {
        let words = self.words.as_slice();
        match read_game(given, words) {
            Some(_) if self.may_begin() => Some(words),
            _ => None,
        }
    }

    /// Words follow that begin a game, and all that is guessed of them can be told.
    fn may_begin(&self) -> bool {
        self.begins && !self.words.is_empty() && self.guess.is_whole
    }
}

/// Whether a word says that a game begins.
fn begins_game(word: &[u8]) -> bool {
    let word = match word {
        [word @ .., b':'] => word,
        _ => word,
    };
    match meaning_of(word) {
        Some(Meaning::Command(command)) => command == Command::Game,
        _ => false,
    }
}

/// The word of the rules that a key is one letter from.
fn near_setting(key: &[u8]) -> Option<&'static str> {
    for setting in SETTINGS {
        if is_near(key, setting.as_bytes()) {
            return Some(setting);
        }
    }
    None
}

/// A word that no line `game` may have.
fn wrong_word(given: Rules, word: &Word) -> Option<&str>
    ensures { IfSome result (λ word. spec.IsWrong given word.now × (length word.now ≤ MOST_WORD)) }
{
    let word = shown_word(word)?;
    if read_game(given, word.as_bytes()).is_some() {
        None
    } else {
        Some(word)
    }
}

/// What a code says where no game has begun.
fn begin_words(fault: &GameFault) -> &'static str
    ensures value { result.now ≡ spec.begin_words fault.now }
    ensures short { length result.now ≤ MOST_FAULT_WORDS }
{
    match fault {
        GameFault::G2 => "no game has begun: a line game comes before all others",
        GameFault::G14 => "the line game before it is refused: another one begins a game",
        _ => fault_words(fault),
    }
}
