//! What else is to be said of a win: what the line doesn't tell, what can't be, and who may have to pay for others.
ghost use Rattle.std.specs.Prelude.{◌≡◌, ◌+◌, ◌<◌, ◌≤◌, ◌++◌, length};
ghost use Rattle.arrayvec.specs.ArrayString.{array_string_len};
ghost use Rattle.riichi_explain.specs.Notes as spec;

use crate::room::{REASONS_ROOM, ReasonsText};
use riichi_blocks::{EAST, GREEN, RED, WHITE};
use riichi_hand::WinRecord;
use riichi_tiles::{Kind, Meld, Melds};

const NO_INDICATOR: &str = "  note    riichi, and no indicator is said: dora= is missing\n";

const ROBBED: &str = "  note    this cannot be: the robbed kong has the other three tiles\n";

const DRAGONS: &str =
    "  note    all three dragons are called: somebody may be liable (in a game: liable NAME)\n";

const WINDS: &str =
    "  note    all four winds are called: somebody may be liable (in a game: liable NAME)\n";

/// The bytes of all notes that a win may have: riichi is of a concealed hand, and four melds have no more than one of the others.
pub(crate) const MOST_NOTES: usize = ROBBED.len() + MOST_OTHER;

const MOST_OTHER: usize = DRAGONS.len();

/// Writes a line for each thing that is to be said of the win besides.
#[tactic(auto, unfolding(crate::specs::Notes::note_lines))]
pub(crate) fn push_notes(text: &mut ReasonsText, win: &WinRecord)
    requires { array_string_len text.old + MOST_NOTES ≤ REASONS_ROOM }
    ensures bytes { text.new.bytes ≡ text.old.bytes ++ spec.note_lines win.now }
    ensures len { array_string_len text.new ≤ array_string_len text.old + MOST_NOTES }
{
    push_note(text, is_robbed_twice(win), ROBBED);
    text.push_str(other_note(win));
}

/// What is missing beside riichi, or who may have to pay.
fn other_note(win: &WinRecord) -> &'static str
    ensures value { result.now ≡ spec.other_note win.now }
    ensures short { length result.now ≤ MOST_OTHER }
{
    let melds = win.melds();
    if lacks_indicator(win) {
        NO_INDICATOR
    } else if are_dragons_called(&melds) {
        DRAGONS
    } else if are_winds_called(&melds) {
        WINDS
    } else {
        ""
    }
}

fn push_note(text: &mut ReasonsText, is_told: bool, words: &str)
    requires { array_string_len text.old + length words.now ≤ REASONS_ROOM }
    ensures bytes { text.new.bytes ≡ text.old.bytes ++ spec.note_if is_told words.now }
    ensures len { array_string_len text.new ≤ array_string_len text.old + length words.now }
{
    if is_told {
        text.push_str(words);
    }
}

/// At least one indicator is turned over in every deal.
fn lacks_indicator(win: &WinRecord) -> bool
    ensures { result ≡ spec.lacks_indicator win.now }
{
    win.riichi() > 0 && win.dora().total() == 0
}

/// The kong that was robbed has three tiles of the winning kind, so no other place has one.
fn is_robbed_twice(win: &WinRecord) -> bool
    ensures { result ≡ spec.is_robbed_twice win.now }
{
    let kind = win.winning();
    let copies = u32::from(win.copies_won(kind))
        + u32::from(win.dora().get(kind))
        + u32::from(win.ura().get(kind));
    win.flags().chankan && copies > 1
}

fn are_dragons_called(melds: &Melds) -> bool
    ensures { result ≡ spec.are_dragons_called melds.now }
{
    has_dragons(melds)
        && (has_fed_set(melds, WHITE) || has_fed_set(melds, GREEN) || has_fed_set(melds, RED))
}

fn has_dragons(melds: &Melds) -> bool
    ensures { result ≡ spec.has_dragons melds.now }
{
    has_set(melds, WHITE) && has_set(melds, GREEN) && has_set(melds, RED)
}

fn are_winds_called(melds: &Melds) -> bool
    ensures { result ≡ spec.are_winds_called melds.now }
{
    !melds.concealed()
        && has_set(melds, EAST)
        && has_set(melds, EAST + 1)
        && has_set(melds, EAST + 2)
        && has_set(melds, EAST + 3)
}

/// Whether a meld is a triplet or a kong of an honour.
fn has_set(melds: &Melds, kind: usize) -> bool
    requires { kind < 34 }
    ensures { result ≡ spec.has_set melds.now kind }
{
    melds.tiles(Kind::at(kind as u8)) >= 3
}

/// Whether one of the melds is a triplet or a kong of an honour that another fed: nobody feeds a concealed kong.
#[tactic(auto, using(crate::proofs::MeldLemmas::fed_among_four))]
fn has_fed_set(melds: &Melds, kind: usize) -> bool
    requires { kind < 34 }
    ensures { result ≡ spec.has_fed_set melds.now kind }
{
    let _at_most_four = melds.count();
    let kind = Kind::at(kind as u8);
    let among_two = is_fed(melds.get(0), kind) | is_fed(melds.get(1), kind);
    let among_others = is_fed(melds.get(2), kind) | is_fed(melds.get(3), kind);
    among_two | among_others
}

fn is_fed(meld: Option<Meld>, kind: Kind) -> bool
    ensures { result ≡ spec.is_fed_there meld kind }
{
    match meld {
        Some(meld) => meld.is_open() && meld.tiles(kind) >= 3,
        None => false,
    }
}
