//! Spellings of tiles beside those of the notation, and melds without a key.
use crate::text::{Part, add, add_all};
use riichi_tiles::is_digit;

/// A word of tiles as the notation has them: `5pr`, `r5p` and `aka5p` as `0p`, `m123p45` as `123m45p`. Another word stays as it is.
pub(crate) fn spelled(word: &[u8]) -> Part {
    if let Some(rest) = behind_red(word) {
        let mut tiles = Part::new();
        add(&mut tiles, b'0');
        add_all(&mut tiles, rest);
        return tiles;
    }
    with_reds(suits_behind(word).as_slice())
}

/// What follows a five that is marked as a red one before it.
fn behind_red(word: &[u8]) -> Option<&[u8]> {
    match word {
        [b'r' | b'R', b'5', rest @ ..] => Some(rest),
        [b'a', b'k', b'a', b'5', rest @ ..] => Some(rest),
        [b'r', b'e', b'd', b'5', rest @ ..] => Some(rest),
        _ => None,
    }
}

/// A word in which each letter of a suit stands before its digits, with the letters behind them.
fn suits_behind(word: &[u8]) -> Part {
    let mut tiles = Part::new();
    if !are_suits_first(word) {
        add_all(&mut tiles, word);
        return tiles;
    }
    let mut suit = 0;
    for byte in word {
        if is_digit(*byte) {
            add(&mut tiles, *byte);
        } else {
            add_suit_behind(&mut tiles, suit);
            suit = byte.to_ascii_lowercase();
        }
    }
    add(&mut tiles, suit);
    tiles
}

fn add_suit_behind(tiles: &mut Part, suit: u8) {
    if suit != 0 {
        add(tiles, suit);
    }
}

/// Whether a word begins with the letter of a suit, ends in a digit, and has such letters and digits alone.
fn are_suits_first(word: &[u8]) -> bool {
    match word {
        [first, .., last] => is_suit(*first)
            && is_digit(*last)
            && word.iter().all(|byte| is_suit(*byte) || is_digit(*byte)),
        _ => false,
    }
}

fn is_suit(byte: u8) -> bool {
    matches!(byte, b'm' | b'p' | b's' | b'z' | b'M' | b'P' | b'S')
}

/// A five with an `r` before it or behind its suit is a red one.
fn with_reds(word: &[u8]) -> Part {
    let mut tiles = Part::new();
    let mut is_marked = false;
    for byte in word {
        if *byte == b'r' && !is_marked {
            is_marked = !redden_last(&mut tiles);
        } else {
            add_marked(&mut tiles, is_marked, *byte);
            is_marked = false;
        }
    }
    if is_marked {
        add(&mut tiles, b'r');
    }
    tiles
}

/// Adds a byte behind an `r` or not: of a five it makes a red one.
fn add_marked(tiles: &mut Part, is_marked: bool, byte: u8) {
    if is_marked && byte == b'5' {
        add(tiles, b'0');
    } else if is_marked {
        add(tiles, b'r');
        add(tiles, byte);
    } else {
        add(tiles, byte);
    }
}

/// Makes a five at the end of a text a red one, where there is one.
fn redden_last(tiles: &mut Part) -> bool {
    match tiles.as_slice() {
        [.., b'5', suit] if matches!(*suit, b'm' | b'p' | b's') => {
            let suit = *suit;
            tiles.pop();
            tiles.pop();
            add(tiles, b'0');
            add(tiles, suit);
            true
        }
        _ => false,
    }
}

/// A tile by its number of two digits: 11 to 19 are characters, 21 to 29 circles, 31 to 39 bamboos, 41 to 47 honours, and 51 to 53
/// red fives.
pub(crate) fn tile_by_number(word: &[u8]) -> Option<Part> {
    let (digit, suit) = match word {
        [b'1', digit @ b'1'..=b'9'] => (*digit, b'm'),
        [b'2', digit @ b'1'..=b'9'] => (*digit, b'p'),
        [b'3', digit @ b'1'..=b'9'] => (*digit, b's'),
        [b'4', digit @ b'1'..=b'7'] => (*digit, b'z'),
        [b'5', b'1'] => (b'0', b'm'),
        [b'5', b'2'] => (b'0', b'p'),
        [b'5', b'3'] => (b'0', b's'),
        _ => return None,
    };
    let mut tile = Part::new();
    add(&mut tile, digit);
    add(&mut tile, suit);
    Some(tile)
}

/// A word in brackets.
pub(crate) fn bracketed(word: &[u8]) -> Option<&[u8]> {
    match word {
        [
            b'(' | b'[' | b'{' | b'<',
            inside @ ..,
            b')' | b']' | b'}' | b'>',
        ] => Some(inside),
        _ => None,
    }
}

/// Tiles, and behind them those of a meld in brackets.
pub(crate) fn split_at_bracket(word: &[u8]) -> Option<(&[u8], &[u8])> {
    let at = word.iter().position(|byte| matches!(*byte, b'(' | b'['))?;
    let meld = bracketed(&word[at..])?;
    if at > 0 && are_of_meld(meld) {
        Some((&word[..at], meld))
    } else {
        None
    }
}

/// A meld by the first letter of its name, as `c123m`, `p777z`, `k1111z` and `a1111z`.
pub(crate) fn lettered_meld(word: &[u8]) -> Option<(&[u8], &[u8])> {
    match word {
        [
            b'c' | b'p' | b'k' | b'a' | b'C' | b'P' | b'K' | b'A',
            tiles @ ..,
        ] if are_of_meld(tiles) => { Some((&word[..1], tiles)) }
        _ => None,
    }
}

/// Whether a word has three or four digits with one letter of a suit behind them, of a kind or in a row.
pub(crate) fn are_of_meld(word: &[u8]) -> bool {
    let tiles = spelled(word);
    match tiles.as_slice() {
        [first, second, third, suit] => !is_digit(*suit) && are_of_set(*first, *second, *third),
        [first, second, third, fourth, suit] => {
            !is_digit(*suit) && are_of_kind(*first, *second, *third) && *third == *fourth
        }
        _ => false,
    }
}

fn are_of_kind(first: u8, second: u8, third: u8) -> bool {
    is_digit(first) && first == second && second == third
}

/// Of a kind, or each of them another digit.
fn are_of_set(first: u8, second: u8, third: u8) -> bool {
    let are_digits = is_digit(first) && is_digit(second) && is_digit(third);
    are_of_kind(first, second, third)
        || are_digits && first != second && second != third && first != third
}
