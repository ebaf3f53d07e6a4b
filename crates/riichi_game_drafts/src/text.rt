//! Texts of limited length. What has no room is left out.
use arrayvec::ArrayVec;

/// The bytes of the longest line that is shown.
pub const MOST_LINE_SHOWN: usize = 400;

/// A line that is made, or a part of one.
pub type Line = ArrayVec<u8, MOST_LINE_SHOWN>;

/// The bytes of the longest word that is named.
pub const MOST_WORD: usize = 40;

/// A word of a line, or a name.
pub type Word = ArrayVec<u8, MOST_WORD>;

/// Adds bytes, where there is room for all.
pub fn add<const N: usize>(text: &mut ArrayVec<u8, N>, bytes: &[u8]) {
    let _ = text.try_extend_from_slice(bytes);
}

/// Puts bytes in the place of all that stands there, where there is room for them; else nothing stands there.
pub fn put<const N: usize>(text: &mut ArrayVec<u8, N>, bytes: &[u8]) {
    text.clear();
    add(text, bytes);
}

/// Adds bytes behind a mark, or alone where nothing stands there.
pub fn add_behind<const N: usize>(text: &mut ArrayVec<u8, N>, mark: &[u8], bytes: &[u8]) {
    if !text.is_empty() {
        add(text, mark);
    }
    add(text, bytes);
}

/// A word, of which nothing is left where it stood.
pub(crate) fn taken(word: &mut Word) -> Word {
    let mut copy = Word::new();
    add(&mut copy, word.as_slice());
    word.clear();
    copy
}
