//! Words that say what a hand is worth.
use riichi_tiles::is_digit;

/// What a word says of a value.
#[derive(Clone, Copy)]
pub enum ValueWord<'a> {
    /// Han and fu, in this order.
    Counted(&'a [u8], &'a [u8]),
    /// Fu and then han.
    Turned(&'a [u8], &'a [u8]),
    /// A number alone.
    Number(&'a [u8]),
    /// Fu alone.
    Fu(&'a [u8]),
    /// Tiles of a hand.
    Tiles(&'a [u8]),
}

/// What a word says of a value, where it says one.
pub fn value_word(word: &[u8]) -> Option<ValueWord<'_>> {
    if are_tiles(word) {
        return Some(ValueWord::Tiles(word));
    }
    let (first, rest) = digits_first(word);
    if first.is_empty() {
        return None;
    }
    let (mark, rest) = letters_first(rest);
    let (second, rest) = digits_first(rest);
    if second.is_empty() {
        return number_alone(first, mark);
    }
    let (last, rest) = letters_first(rest);
    if !rest.is_empty() {
        return None;
    }
    if is_fu(mark) && (is_han(last) || last.is_empty()) {
        Some(ValueWord::Turned(first, second))
    } else if (is_han(mark) || is_joint(mark)) && (is_fu(last) || last.is_empty()) {
        Some(ValueWord::Counted(first, second))
    } else {
        None
    }
}

fn number_alone<'a>(digits: &'a [u8], mark: &[u8]) -> Option<ValueWord<'a>> {
    if mark.is_empty() || is_han(mark) {
        Some(ValueWord::Number(digits))
    } else if is_fu(mark) {
        Some(ValueWord::Fu(digits))
    } else {
        None
    }
}

/// The digits that a word begins with, and what stands behind them.
fn digits_first(word: &[u8]) -> (&[u8], &[u8]) {
    match word.iter().position(|byte| !is_digit(*byte)) {
        None => (word, &[]),
        Some(at) => word.split_at(at),
    }
}

/// What stands before the first digit of a word, and the rest.
fn letters_first(word: &[u8]) -> (&[u8], &[u8]) {
    match word.iter().position(|byte| is_digit(*byte)) {
        None => (word, &[]),
        Some(at) => word.split_at(at),
    }
}

fn is_han(mark: &[u8]) -> bool {
    matches!(
        mark,
        b"han" | b"Han" | b"HAN" | b"h" | b"fan" | b"han." | b"han/" | b"han-"
    ) || mark == "翻".as_bytes()
        || mark == "飜".as_bytes()
}

fn is_fu(mark: &[u8]) -> bool {
    matches!(
        mark,
        b"fu" | b"Fu" | b"FU" | b"f" | b"fu." | b"fu/" | b"fu-"
    ) || mark == "符".as_bytes()
}

fn is_joint(mark: &[u8]) -> bool {
    matches!(mark, b"." | b"/" | b"-" | b":" | b"+" | b"x")
}

/// Digits with the letters of suits behind them.
fn are_tiles(word: &[u8]) -> bool {
    match word {
        [first, .., b'm' | b'p' | b's' | b'z'] => is_digit(*first)
            && word.iter().all(|byte| is_tile_byte(*byte)),
        _ => false,
    }
}

fn is_tile_byte(byte: u8) -> bool {
    is_digit(byte) || matches!(byte, b'm' | b'p' | b's' | b'z')
}

/// Fu that stand in the place of han: 20 or more.
pub(crate) fn are_fu(number: &[u8]) -> bool {
    matches!(
        number,
        [b'2'..=b'9', b'0' | b'5'] | [b'1', b'0' | b'1', b'0']
    )
}

/// Han that stand in the place of fu: 13 at most.
pub(crate) fn are_han(number: &[u8]) -> bool {
    matches!(number, [b'1'..=b'9'] | [b'1', b'0'..=b'3'])
}
