//! The note on a tile of which a line has more than four copies.
ghost use Rattle.std.specs.Prelude.{◌≡◌, ◌≤◌, ◌+◌, ◌++◌, IfNone, IfSome, length};
ghost use Rattle.riichi_hints.specs.Crowd as spec;
ghost use Rattle.riichi_hints.specs.Crowd.{IsCrowdNote, IsNotCrowded};

use crate::text::{PART, Part, add_all, add_count, add_number};
use crate::tiles::{Tile, copies_in, crowded_tile};
use crate::words::cut_name;
use riichi_hand::next_word;

/// The tile of which there are more than four, how many there are, and where.
pub(crate) fn crowd_note(line: &[u8]) -> Option<Part>
    ensures note { IfSome result (λ note. IsCrowdNote line.now note.items) }
    ensures none { IfNone result (IsNotCrowded line.now) }
{
    let tile = crowded_tile(line)?;
    let mut note = Part::new();
    note.push(tile.digit);
    note.push(tile.suit);
    add_all(&mut note, crowd_words(line, tile).as_slice());
    Some(note)
}

fn crowd_words(line: &[u8], tile: Tile) -> Part
    ensures { let whole = spec.crowd_text tile.digit tile.suit line.now in
        length whole ≤ PART → result.items ≡ whole }
{
    let mut words = Part::new();
    add_count(&mut words, " stands ", copies_in(line, tile), "time");
    let mut mark: &[u8] = b": ";
    let mut rest = line;
    while let Some((word, after)) = next_word(rest) {
        mark = add_word(&mut words, mark, word, tile);
        rest = after;
    }
    words
}

/// Adds how many copies of the tile a word has, where it has some, behind a mark. Returns the mark of the next ones.
fn add_word<'a>(words: &mut Part, mark: &'a [u8], word: &[u8], tile: Tile) -> &'a [u8]
    ensures text { let text = spec.word_text tile.digit tile.suit mark.now word.now in
        length words.old.items + length text ≤ PART → words.new.items ≡ words.old.items ++ text }
    ensures mark { result.now ≡ spec.next_mark tile.digit tile.suit mark.now word.now }
{
    let copies = copies_in(word, tile);
    if copies == 0 {
        return mark;
    }
    add_all(words, mark);
    add_number(words, copies);
    add_place(words, word);
    b", "
}

fn add_place(words: &mut Part, word: &[u8])
    ensures { length words.old.items + length (spec.place_text word.now) ≤ PART
        → words.new.items ≡ words.old.items ++ spec.place_text word.now }
{
    match cut_name(word) {
        Some((name, _)) => {
            add_all(words, b" in ");
            add_all(words, name);
        }
        None => add_all(words, b" in the hand"),
    }
}
