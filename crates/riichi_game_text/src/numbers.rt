//! The numbers in a line of a game.
ghost use Rattle.std.specs.Prelude.{◌≡◌, ◌+◌, ◌-◌, ◌*◌, ◌<◌, ◌≤◌, true, length, IfSome};
ghost use Rattle.std.specs.List.{list_all};
ghost use Rattle.riichi_tiles.specs.Notation.{is_digit};
ghost use Rattle.riichi_game_text.specs.Numbers as spec;

use riichi_tiles::is_digit;

/// The most digits of a number.
const MOST_DIGITS: usize = 7;

/// The number of a word of one to seven digits.
pub(crate) fn read_number(word: &[u8]) -> Option<u32>
    ensures value { result ≡ spec.number_in word.now }
    ensures most { IfSome result (λ number. number < 10000000) }
{
    read_digits(MOST_DIGITS, word)
}

/// The number of a word of one digit to so many, nine at most.
pub(crate) fn read_digits(most: usize, word: &[u8]) -> Option<u32>
    requires { most ≤ 9 }
    ensures value { result ≡ spec.digits_of most word.now }
    ensures seven { most ≤ 7 → IfSome result (λ number. number < 10000000) }
    ensures nine { IfSome result (λ number. number < 1000000000) }
{
    if are_digits(most, word) {
        Some(number_spelled(word))
    } else {
        None
    }
}

fn are_digits(most: usize, word: &[u8]) -> bool
    ensures { result ≡ spec.are_digits most word.now }
{
    word.len() >= 1 && word.len() <= most && has_digits_alone(word)
}

fn has_digits_alone(word: &[u8]) -> bool
    ensures { result ≡ list_all is_digit word.now }
{
    word.iter().all(|byte| is_digit(*byte))
}

/// The number that at most nine digits spell.
fn number_spelled(digits: &[u8]) -> u32
    requires few { length digits.now ≤ 9 }
    requires digits { list_all is_digit digits.now ≡ true }
    ensures value { result ≡ spec.number_spelled 0 digits.now }
    ensures seven { length digits.now ≤ 7 → result < 10000000 }
    ensures nine { result < 1000000000 }
{
    let mut number = 0;
    for digit in digits {
        number = with_digit(number, *digit);
    }
    number
}

/// A number with one more digit.
fn with_digit(number: u32, digit: u8) -> u32
    requires small { number < 100_000_000 }
    requires digit { is_digit digit ≡ true }
    ensures value { result ≡ number * 10 + (digit - 48) }
    ensures least { result < number * 10 + 10 }
{
    number * 10 + (digit - b'0') as u32
}

/// A number from 1 on.
pub(crate) fn read_from_one(word: &[u8]) -> Option<u32>
    ensures { result ≡ spec.at_least_one (spec.number_in word.now) }
{
    let number = read_number(word)?;
    if number >= 1 { Some(number) } else { None }
}

/// The points of a number of thousands, up or down.
pub(crate) fn read_thousands(word: &[u8]) -> Option<i32>
    ensures { result ≡ spec.thousands_of word.now }
{
    match word {
        [] => None,
        [first, digits @ ..] => {
            if *first == b'-' {
                let points = thousands_if_few(digits)?;
                Some(-(points as i32))
            } else {
                let points = thousands_if_few(word)?;
                Some(points as i32)
            }
        }
    }
}

fn thousands_if_few(digits: &[u8]) -> Option<u32>
    ensures value { result ≡ spec.thousands_if_few (spec.number_in digits.now) }
    ensures most { IfSome result (λ points. points ≤ 1000000) }
{
    let number = read_number(digits)?;
    if number <= 1000 {
        Some(1000 * number)
    } else {
        None
    }
}
