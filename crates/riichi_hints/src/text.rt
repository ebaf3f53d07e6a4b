//! Texts of limited length. What has no room is left out.
ghost use Rattle.std.specs.Prelude.{◌≡◌, ◌<◌, ◌≤◌, ◌+◌, ◌-◌, [], ◌∷◌, ◌++◌, ℕ, List, length, slice_index, decimal};
ghost use Rattle.riichi_hints.specs.Crowd as spec;

use arrayvec::{ArrayString, ArrayVec};
use riichi_text::push_number;

/// The longest line that is read loosely, and the longest that is shown.
pub const MOST: usize = 512;

/// A line.
pub type Line = ArrayVec<u8, MOST>;

/// The bytes of a part.
pub(crate) const PART: usize = 128;

/// A part of a line.
pub(crate) type Part = ArrayVec<u8, PART>;

/// Adds a byte, where there is room.
pub(crate) fn add<const N: usize>(text: &mut ArrayVec<u8, N>, byte: u8)
    ensures { length text.old.items < N → text.new.items ≡ text.old.items ++ byte ∷ [] }
{
    let _ = text.try_push(byte);
}

/// Adds bytes, where there is room for all.
pub(crate) fn add_all<const N: usize>(text: &mut ArrayVec<u8, N>, bytes: &[u8])
    ensures more { (more : List ℕ) × (text.new.items ≡ text.old.items ++ more) }
    ensures all { length text.old.items + length bytes.now ≤ N
        → text.new.items ≡ text.old.items ++ bytes.now }
{
    let _ = text.try_extend_from_slice(bytes);
}

/// The last byte, 0 where there is none.
pub(crate) fn last(text: &[u8]) -> u8
    ensures { result ≡ slice_index text.now (length text.now - 1) }
{
    match text {
        [.., last] => *last,
        [] => 0,
    }
}

/// Adds a number, where there is room.
pub(crate) fn add_number(note: &mut Part, number: usize)
    ensures { length note.old.items + length (decimal number) ≤ PART
        → note.new.items ≡ note.old.items ++ decimal number }
{
    let mut text = ArrayString::<20>::new();
    push_number(&mut text, number);
    add_all(note, text.as_str().as_bytes());
}

/// Adds a number of things: `no tile`, `1 tile`, `2 tiles`.
pub(crate) fn add_count(note: &mut Part, before: &str, count: usize, thing: &str)
    ensures { let text = before.now ++ spec.count_text count thing.now in
        length note.old.items + length text ≤ PART → note.new.items ≡ note.old.items ++ text }
{
    add_all(note, before.as_bytes());
    add_many(note, count);
    add_all(note, b" ");
    add_all(note, thing.as_bytes());
    add_all(note, plural_end(count));
}

fn add_many(note: &mut Part, count: usize)
    ensures { length note.old.items + length (spec.many_text count) ≤ PART
        → note.new.items ≡ note.old.items ++ spec.many_text count }
{
    if count == 0 {
        add_all(note, b"no");
    } else {
        add_number(note, count);
    }
}

fn plural_end(count: usize) -> &'static [u8]
    ensures { result.now ≡ spec.plural_end count }
{
    if count > 1 { b"s" } else { b"" }
}
