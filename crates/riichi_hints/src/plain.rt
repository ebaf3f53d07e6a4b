//! A line whose words are parted by spaces alone.
ghost use Rattle.std.specs.Prelude.{◌≡◌, ◌<◌, ◌≤◌, ◌+◌, ◌-◌, [], ◌∷◌, ◌++◌, IfSome, length, slice_index, true};
ghost use Rattle.riichi_hints.specs.Plain.{IsMadePlain, begins_mark, is_plain_behind, stays_plain};

use crate::text::{Line, MOST, add, add_all, last};

/// The line without quotes, with spaces for the marks that part words, and with a plain letter for each full-width one. Other
/// characters stay as they are.
pub(crate) fn plain_line(line: &[u8]) -> Line
    ensures { IsMadePlain line.now result.items }
{
    let mut plain = Line::new();
    add_plain(&mut plain, line);
    plain
}

/// Adds the characters of a line behind those before them.
fn add_plain(plain: &mut Line, line: &[u8])
    ensures { is_plain_behind (slice_index plain.old.items (length plain.old.items - 1)) line.now
        ≡ true
        → length plain.old.items + length line.now ≤ MOST
        → plain.new.items ≡ plain.old.items ++ line.now }
{
    match line {
        [] => {}
        [byte, behind @ ..] => match mark_of(line) {
            Some((mark, rest)) => {
                add_mark(plain, mark);
                add_plain(plain, rest);
            }
            None => {
                add_byte(plain, *byte);
                add_plain(plain, behind);
            }
        },
    }
}

/// What stands for the mark or the full-width letter that a line begins with, 0 where nothing does, and what follows it.
fn mark_of(line: &[u8]) -> Option<(u8, &[u8])>
    ensures mark { IfSome result (λ mark. begins_mark line.now ≡ true) }
    ensures less { IfSome result (λ mark. length mark.1.now < length line.now) }
{
    let (mark, rest) = match line {
        [0xc2, byte, rest @ ..] => (latin_mark(*byte), rest),
        [0xe2, 0x80, byte, rest @ ..] => (general_mark(*byte), rest),
        [0xe2, 0x88, 0x92, rest @ ..] => (Some(b'-'), rest),
        [0xe3, 0x80, byte, rest @ ..] => (ideographic_mark(*byte), rest),
        [0xef, block, byte, rest @ ..] => (wide_letter(*block, *byte), rest),
        _ => return None,
    };
    Some((mark?, rest))
}

/// A space that doesn't break, and the quotes of French.
fn latin_mark(byte: u8) -> Option<u8> {
    match byte {
        0xa0 => Some(b' '),
        0xab | 0xbb => Some(0),
        _ => None,
    }
}

/// Spaces, marks without width, dashes, quotes, dots.
fn general_mark(byte: u8) -> Option<u8> {
    match byte {
        0x80..=0x8a | 0xa6 | 0xaf => Some(b' '),
        0x8b..=0x8f | 0x98..=0x9f | 0xb9 | 0xba => Some(0),
        0x90..=0x95 => Some(b'-'),
        _ => None,
    }
}

/// A space, a comma, a full stop, and brackets.
fn ideographic_mark(byte: u8) -> Option<u8> {
    match byte {
        0x80..=0x82 | 0x88..=0x91 => Some(b' '),
        _ => None,
    }
}

/// A full-width letter as a plain one; a byte order mark, and what chooses how a character is drawn, as nothing.
fn wide_letter(block: u8, byte: u8) -> Option<u8> {
    match (block, byte) {
        (0xbc, 0x81..=0xbf) => Some(byte.saturating_sub(0x60)),
        (0xbd, 0x80..=0x9e) => Some(byte.saturating_sub(0x20)),
        (0xbb, 0xbf) | (0xb8, 0x8e | 0x8f) => Some(0),
        _ => None,
    }
}

fn add_mark(plain: &mut Line, mark: u8) {
    if mark != 0 {
        add_byte(plain, mark);
    }
}

/// A mark `=` or `:` takes the spaces beside it. `+` begins a word.
fn add_byte(plain: &mut Line, byte: u8)
    ensures { stays_plain (slice_index plain.old.items (length plain.old.items - 1)) byte ≡ true
        → length plain.old.items < MOST → plain.new.items ≡ plain.old.items ++ byte ∷ [] }
{
    match byte {
        b'"' | b'\'' | b'`' => {}
        b'=' | b':' => {
            if last(plain.as_slice()) == b' ' {
                plain.pop();
            }
            add(plain, byte);
        }
        b'+' => add_all(plain, b" +"),
        b' ' | b'\t' | b',' | b';' | b'|' | b'/' => add_space(plain),
        _ => if byte > b' ' && byte != 127 {
            add(plain, byte);
        },
    }
}

fn add_space(plain: &mut Line)
    ensures { stays_plain (slice_index plain.old.items (length plain.old.items - 1)) 32 ≡ true
        → length plain.old.items < MOST → plain.new.items ≡ plain.old.items ++ 32 ∷ [] }
{
    if !matches!(last(plain.as_slice()), b' ' | b'=' | b':') {
        add(plain, b' ');
    }
}
