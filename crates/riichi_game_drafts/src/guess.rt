//! What is guessed of a line.
use arrayvec::ArrayVec;

/// The bytes of all that is told.
pub const MOST_GUESS: usize = 200;

/// What is guessed of a line: what became of words that it doesn't keep, and which words no word was read as. It is told in sentences.
#[derive(Drop)]
pub struct Guess {
    pub text: ArrayVec<u8, MOST_GUESS>,
    /// Nothing is left out for want of room.
    pub is_whole: bool,
}

impl Guess {
    /// Nothing is guessed yet.
    pub fn new() -> Guess {
        Guess {
            text: ArrayVec::new(),
            is_whole: true,
        }
    }

    fn add(&mut self, bytes: &[u8]) {
        if self.text.try_extend_from_slice(bytes).is_err() {
            self.is_whole = false;
        }
    }

    /// Tells of a word what became of it, by the rest of a sentence.
    pub fn tell(&mut self, word: &[u8], became: &[u8]) {
        if !self.text.is_empty() {
            self.add(b" ");
        }
        self.add(word);
        self.add(became);
    }

    /// Tells what a word is read as.
    pub fn read_as(&mut self, word: &[u8], meant: &[u8]) {
        self.tell(word, b" is read as ");
        self.add(meant);
        self.add(b".");
    }
}
