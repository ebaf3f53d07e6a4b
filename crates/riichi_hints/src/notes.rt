//! What more can be said of a refused line: the numbers of its tiles, the tile that is there too often, the nearest key.
ghost use Rattle.std.specs.Prelude.{◌≡◌, IfNone, IfSome, option_map};
ghost use Rattle.riichi_hand.specs.Refusals.{IsRefusalOf};
ghost use Rattle.riichi_hints.specs.Hint.{IsNote, HasNoNote};
ghost use Rattle.riichi_hints.specs.Near.{IsKeyNote, said_under};

use crate::crowd::crowd_note;
use crate::names::{Meaning, nearest_meaning};
use crate::numbers::number_note;
use crate::text::{Part, add_all};
use crate::words::cut_name;
use riichi_hand::{Key, LineCode, LineFault, Refusal, word_of};

/// The note on a refused line. That of H8 is there where a word is at fault, and that of H9, which begins with a tile that the line
/// has more than four times, where a tile stands so often.
pub(crate) fn note_of(line: &[u8], refusal: &Refusal<'_>) -> Option<Part>
    requires { IsRefusalOf line.now refusal.now }
    ensures note { IfSome result (λ note. IsNote refusal.now.fault line.now note.items) }
    ensures none { IfNone result (HasNoNote refusal.now.fault line.now) }
{
    match refusal.fault {
        LineFault::Line(LineCode::H4) => key_note(refusal.from),
        LineFault::Line(LineCode::H8) => number_note(line, refusal),
        LineFault::Line(LineCode::H9) => crowd_note(line),
        _ => None,
    }
}

/// The key whose name is nearest to that of a word, where it is another.
fn key_note(from: Option<&[u8]>) -> Option<Part>
    ensures { IfSome result
        (λ note. IsKeyNote (option_map (λ word. word.now) from.entry) note.items) }
{
    let (name, _) = cut_name(word_of(from?))?;
    let key = key_under(nearest_meaning(name)?)?.name().as_bytes();
    if key == name {
        return None;
    }
    let mut note = Part::new();
    add_all(&mut note, b"the nearest key is ");
    add_all(&mut note, key);
    Some(note)
}

/// The key under which a line says this.
fn key_under(meaning: Meaning) -> Option<Key>
    ensures { result ≡ said_under meaning }
{
    match meaning {
        Meaning::Key(key) => Some(key),
        Meaning::By(_) => Some(Key::By),
        Meaning::Flag(_) => Some(Key::Flags),
        Meaning::DoubleRiichi => Some(Key::Riichi),
        Meaning::Meld => Some(Key::Open),
        Meaning::Hand | Meaning::Job(_) | Meaning::Red | Meaning::Unsaid => None,
    }
}
