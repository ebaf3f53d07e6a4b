//! Texts of tiles, as players write them.
ghost use Rattle.std.specs.Prelude.{◌≡◌, ◌<◌, IfNone, IfSome};
ghost use Rattle.riichi_hints.specs.Crowd as spec;
ghost use Rattle.riichi_hints.specs.Numbers as numbers;

use crate::spelled::spelled;
use crate::text::{Part, add, add_all, last};
use riichi_tiles::is_digit;

/// A tile as it is written: its digit and the letter of its suit.
#[derive(Clone, Copy, Debug, PartialEq, Eq)]
pub(crate) struct Tile {
    pub(crate) digit: u8,
    pub(crate) suit: u8,
}

/// Whether a word may spell tiles: it ends in a letter, and has digits or capital letters alone, each of a suit or an honour.
pub(crate) fn are_tiles(word: &[u8]) -> bool {
    let tiles = spelled(word);
    let word = tiles.as_slice();
    let spells = word.iter().all(|byte| is_digit(*byte)
        || suit_of(*byte) != 0
        || honour_of(*byte) != 0);
    let lower = word.iter().any(|byte| byte.is_ascii_lowercase());
    spells && !is_digit(last(word)) && (tile_count(word) > 0 || !lower)
}

/// Whether a word spells one tile.
pub(crate) fn is_one_tile(word: &[u8]) -> bool {
    are_tiles(word) && tile_count(spelled(word).as_slice()) == 1
}

/// Whether a word has digits alone.
pub(crate) fn is_number(word: &[u8]) -> bool {
    !word.is_empty() && word.iter().all(|byte| is_digit(*byte))
}

/// How many tiles a text spells: each digit is one.
pub(crate) fn tile_count(text: &[u8]) -> usize
    ensures { result ≡ numbers.tiles_in text.now }
{
    text.iter().filter(|byte| is_digit(**byte)).count()
}

/// Adds tiles: behind a digit a letter is that of its suit, elsewhere that of an honour.
pub(crate) fn add_tiles(tiles: &mut Part, word: &[u8]) {
    for byte in spelled(word).as_slice() {
        if is_digit(*byte) {
            add(tiles, *byte);
        } else if is_digit(last(tiles.as_slice())) {
            add_suit(tiles, suit_of(*byte));
        } else {
            add(tiles, honour_of(*byte));
            add_suit(tiles, b'z');
        }
    }
}

/// Adds the letter of a suit. A tile alone joins the group before it, where that has the same letter.
fn add_suit(tiles: &mut Part, suit: u8) {
    if let [.., before, digit] = tiles.as_slice() {
        let (before, digit) = (*before, *digit);
        if before == suit {
            tiles.pop();
            tiles.pop();
            add(tiles, digit);
        }
    }
    add(tiles, suit);
}

/// The letter of a suit: characters, circles (dots), bamboos or honours. 0 for another letter.
fn suit_of(letter: u8) -> u8 {
    match letter {
        b'm' | b'M' | b'c' | b'k' | b'w' => b'm',
        b'p' | b'P' | b'd' | b'D' => b'p',
        b's' | b'S' | b'b' | b'B' => b's',
        b'z' | b'Z' | b'h' | b'H' | b'j' | b'J' => b'z',
        _ => 0,
    }
}

/// The digit of an honour: the winds, white (or blank, haku), green (fa), red (chun). 0 for another letter.
fn honour_of(letter: u8) -> u8 {
    match letter {
        b'E' | b'e' => b'1',
        b'S' => b'2',
        b'W' => b'3',
        b'N' | b'n' => b'4',
        b'P' | b'B' | b'H' => b'5',
        b'F' | b'G' | b'f' | b'g' => b'6',
        b'C' | b'R' | b'r' => b'7',
        _ => 0,
    }
}

/// The last tile of a text.
pub(crate) fn last_tile(text: &[u8]) -> Option<Tile>
    ensures { result ≡ numbers.last_tile text.now }
{
    match text {
        [.., digit, suit] => Some(Tile {
            digit: *digit,
            suit: *suit,
        }),
        _ => None,
    }
}

/// The text without the last one of a tile.
pub(crate) fn without(text: &[u8], tile: Tile) -> Part {
    let mut rest = Part::new();
    let mut suit = 0;
    let mut is_new = false;
    let mut found = false;
    for byte in text.iter().rev() {
        if !is_digit(*byte) {
            suit = *byte;
            is_new = true;
        } else if !found && *byte == tile.digit && suit == tile.suit {
            found = true;
        } else {
            add_before(&mut rest, is_new, *byte, suit);
            is_new = false;
        }
    }
    rest.as_mut_slice().reverse();
    rest
}

/// Adds a tile to a text that is written from its end, with the letter of its group where that is new.
fn add_before(rest: &mut Part, is_new: bool, digit: u8, suit: u8) {
    if is_new {
        add(rest, suit);
    }
    add(rest, digit);
}

/// The text with one of its fives made a red one, of a suit or of any where this is 0; none where it has none.
pub(crate) fn reddened(text: &[u8], wanted: u8) -> Option<Part> {
    let mut tiles = Part::new();
    let mut suit = 0;
    let mut found = false;
    for byte in text.iter().rev() {
        let is_five = *byte == b'5' && suit != b'z' && (wanted == 0 || wanted == suit);
        if !is_digit(*byte) {
            suit = *byte;
        }
        add(&mut tiles, if is_five && !found { b'0' } else { *byte });
        found |= is_five;
    }
    tiles.as_mut_slice().reverse();
    if found { Some(tiles) } else { None }
}

/// The text without the tiles of another text.
pub(crate) fn without_all(text: &[u8], tiles: &[u8]) -> Part {
    let mut rest = Part::new();
    add_all(&mut rest, text);
    let mut suit = 0;
    for byte in tiles.iter().rev() {
        if is_digit(*byte) {
            let digit = *byte;
            rest = without(rest.as_slice(), Tile { digit, suit });
        } else {
            suit = *byte;
        }
    }
    rest
}

/// How many copies of a tile a line has, in all its words. A red five is a five.
pub(crate) fn copies_in(line: &[u8], tile: Tile) -> usize
    ensures { result ≡ spec.copies_on_line tile.digit tile.suit line.now }
{
    let mut count = 0;
    let mut suit = 0;
    let mut at = line.len();
    while at > 0 {
        at -= 1;
        if !is_digit(line[at]) {
            suit = line[at];
        } else if suit == tile.suit && five_if_zero(line[at]) == tile.digit {
            count += 1;
        }
    }
    count
}

fn five_if_zero(byte: u8) -> u8
    ensures { result ≡ spec.five_if_zero byte }
{
    if byte == b'0' { b'5' } else { byte }
}

/// The first tile of which a line has more than four copies.
pub(crate) fn crowded_tile(line: &[u8]) -> Option<Tile>
    ensures some { IfSome result (λ tile. 4 < spec.copies_on_line tile.digit tile.suit line.now) }
    ensures none { IfNone result (spec.IsNotCrowded line.now) }
{
    for suit in b"mpsz" {
        let crowded = crowded_of(line, *suit);
        if crowded.is_some() {
            return crowded;
        }
    }
    None
}

/// The same of one suit.
fn crowded_of(line: &[u8], suit: u8) -> Option<Tile>
    ensures some { IfSome result (λ tile. 4 < spec.copies_on_line tile.digit tile.suit line.now) }
    ensures none { IfNone result (spec.HasNoneCrowded suit line.now) }
{
    for digit in b'1'..b'9' + 1 {
        let tile = Tile { digit, suit };
        if copies_in(line, tile) > 4 {
            return Some(tile);
        }
    }
    None
}
