//! The words of a line, one by one.
ghost use Rattle.std.specs.Prelude.{◌≡◌};
ghost use Rattle.std.specs.List.{list_all};
ghost use Rattle.riichi_hand.specs.Words.{is_space};
ghost use Rattle.desk_script.specs.Words.{first_word, after_word, is_comment, is_blank, is_name_byte, is_name};

use riichi_hand::{without_spaces, word_len};

/// The longest name of a table.
const MOST_NAME: usize = 32;

/// The first word of a text, and what comes after it. The word is empty where there is none.
pub(crate) fn cut_first_word(text: &[u8]) -> (&[u8], &[u8])
    ensures word { result.0.now ≡ first_word text.now }
    ensures rest { result.1.now ≡ after_word text.now }
{
    let text = without_spaces(text);
    text.split_at(word_len(text))
}

/// Whether a line has nothing but spaces, or is a comment.
pub(crate) fn is_blank(line: &[u8]) -> bool
    ensures { result ≡ is_blank line.now }
{
    is_comment(line) || has_spaces_alone(line)
}

fn is_comment(line: &[u8]) -> bool
    ensures { result ≡ is_comment line.now }
{
    matches!(line, [b'#', ..])
}

fn has_spaces_alone(line: &[u8]) -> bool
    ensures { result ≡ list_all is_space line.now }
{
    line.iter().all(|byte| *byte == b' ')
}

/// Whether a word can be the name of a table.
pub(crate) fn is_name(word: &[u8]) -> bool
    ensures { result ≡ is_name word.now }
{
    match word.len() {
        1..=MOST_NAME => has_name_bytes_alone(word),
        _ => false,
    }
}

fn has_name_bytes_alone(word: &[u8]) -> bool
    ensures { result ≡ list_all is_name_byte word.now }
{
    word.iter().all(|byte| is_name_byte(*byte))
}

fn is_name_byte(byte: u8) -> bool
    ensures { result ≡ is_name_byte byte }
{
    matches!(byte, b'A'..=b'Z' | b'a'..=b'z' | b'0'..=b'9' | b'_' | b'-')
}
