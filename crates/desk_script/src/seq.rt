//! The number of a ticket.
ghost use Rattle.std.specs.Prelude.{◌≡◌, ◌+◌, ◌-◌, ◌*◌, ◌<◌, ◌≤◌, true, length};
ghost use Rattle.std.specs.List.{list_all};
ghost use Rattle.riichi_tiles.specs.Notation.{is_digit};
ghost use Rattle.desk_script.specs.Seq.{seq_of, value_of_digits, is_seq};

use riichi_tiles::is_digit;

/// The most digits of a ticket's number.
const MOST_DIGITS: usize = 7;

/// The number that a word of one to seven digits spells.
pub(crate) fn read_seq(word: &[u8]) -> Option<u32>
    ensures { result ≡ seq_of word.now }
{
    if is_seq(word) {
        Some(value_of_digits(word))
    } else {
        None
    }
}

fn is_seq(word: &[u8]) -> bool
    ensures { result ≡ is_seq word.now }
{
    match word.len() {
        1..=MOST_DIGITS => has_digits_alone(word),
        _ => false,
    }
}

fn has_digits_alone(word: &[u8]) -> bool
    ensures { result ≡ list_all is_digit word.now }
{
    word.iter().all(|byte| is_digit(*byte))
}

/// The number that at most seven digits spell.
fn value_of_digits(digits: &[u8]) -> u32
    requires few { length digits.now ≤ 7 }
    requires digits { list_all is_digit digits.now ≡ true }
    ensures { result ≡ value_of_digits 0 digits.now }
{
    let mut number = 0;
    for digit in digits {
        number = with_digit(number, *digit);
    }
    number
}

/// A number with one more digit.
fn with_digit(number: u32, digit: u8) -> u32
    requires small { number < 1_000_000 }
    requires digit { is_digit digit ≡ true }
    ensures { result ≡ number * 10 + (digit - 48) }
{
    number * 10 + (digit - b'0') as u32
}
