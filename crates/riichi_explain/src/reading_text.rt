//! The lines of readings.
ghost use Rattle.std.specs.Prelude.{◌≡◌, ◌+◌, ◌≤◌, ◌++◌, length};
ghost use Rattle.std.specs.List.{flat_map};
ghost use Rattle.arrayvec.specs.ArrayString.{array_string_len};
ghost use Rattle.riichi_explain.specs.Text as spec;

use crate::room::{REASONS_ROOM, ReasonsText};
use riichi_hand::WinRecord;
use riichi_score::hand_of;
use riichi_split::{Reading, Sets};
use riichi_text::{MOST_BLOCK, MOST_MELD, push_block, push_kind, push_meld, push_two};
use riichi_tiles::{Block, Kind, Meld, Melds, write_counts};

/// The bytes of the longest line of a reading.
pub(crate) const MOST_READING_LINE: usize = MOST_LABEL + MOST_READING + MOST_SAID + "\n".len();

const MOST_LABEL: usize = "  reading ".len();

const MOST_SAID: usize = ": no yaku".len();

/// Those of seven pairs.
const MOST_READING: usize = "seven pairs ".len() + MOST_HAND + MOST_COMPLETES;

const MOST_SETS: usize = 4 * MOST_SET;

const MOST_SET: usize = MOST_BLOCK + " ".len();

const MOST_MELDS: usize = 4 * MOST_SPACED;

const MOST_SPACED: usize = " ".len() + MOST_MELD;

const MOST_COMPLETES: usize = ", 1m".len() + " completes ".len() + MOST_BLOCK;

/// Four tiles of each kind, and a letter of each suit: what `write_counts` has room for.
const MOST_HAND: usize = 34 * 4 + 4;

/// Writes the line of a reading that has no yaku.
pub fn push_no_yaku(text: &mut ReasonsText, reading: &Reading, win: &WinRecord)
    requires { array_string_len text.old + MOST_READING_LINE ≤ REASONS_ROOM }
    ensures bytes { text.new.bytes ≡ text.old.bytes ++ spec.no_yaku_line reading.now win.now }
    ensures len { array_string_len text.new ≤ array_string_len text.old + MOST_READING_LINE }
{
    push_labelled(text, "  reading ", ": no yaku", reading, win);
}

/// Writes the line of the reading that scores.
pub(crate) fn push_reading_line(text: &mut ReasonsText, reading: &Reading, win: &WinRecord)
    requires { array_string_len text.old + MOST_READING_LINE ≤ REASONS_ROOM }
    ensures bytes { text.new.bytes ≡ text.old.bytes ++ spec.reading_line reading.now win.now }
    ensures len { array_string_len text.new ≤ array_string_len text.old + MOST_READING_LINE }
{
    push_labelled(text, "  reading ", "", reading, win);
}

/// Writes the line of a reading that isn't the one that is shown, with what is said of it.
pub(crate) fn push_other_line(
    text: &mut ReasonsText,
    said: &str,
    reading: &Reading,
    win: &WinRecord,
)
    requires few { length said.now ≤ MOST_SAID }
    requires room { array_string_len text.old + MOST_READING_LINE ≤ REASONS_ROOM }
    ensures bytes { text.new.bytes
        ≡ text.old.bytes ++ spec.other_line said.now reading.now win.now }
    ensures len { array_string_len text.new ≤ array_string_len text.old + MOST_READING_LINE }
{
    push_labelled(text, "  other   ", said, reading, win);
}

/// A reading behind its label, and what is said of it.
#[tactic(auto, unfolding(crate::specs::Text::labelled_line))]
fn push_labelled(
    text: &mut ReasonsText,
    label: &str,
    said: &str,
    reading: &Reading,
    win: &WinRecord,
)
    requires short { length label.now ≤ MOST_LABEL }
    requires few { length said.now ≤ MOST_SAID }
    requires room { array_string_len text.old + MOST_READING_LINE ≤ REASONS_ROOM }
    ensures bytes { text.new.bytes ≡ text.old.bytes
        ++ spec.labelled_line label.now said.now reading.now win.now }
    ensures len { array_string_len text.new ≤ array_string_len text.old + MOST_READING_LINE }
{
    text.push_str(label);
    push_reading(text, reading, win);
    text.push_str(said);
    text.push_str("\n");
}

#[tactic(auto, unfolding(crate::specs::Text::reading_text))]
fn push_reading(text: &mut ReasonsText, reading: &Reading, win: &WinRecord)
    requires { array_string_len text.old + MOST_READING ≤ REASONS_ROOM }
    ensures bytes { text.new.bytes ≡ text.old.bytes ++ spec.reading_text reading.now win.now }
    ensures len { array_string_len text.new ≤ array_string_len text.old + MOST_READING }
{
    match reading {
        Reading::Standard { sets, pair, done } => {
            push_set_texts(text, sets);
            push_two(text, *pair);
            push_spaced_melds(text, &win.melds());
            push_completes(text, win.winning(), done);
        }
        Reading::SevenPairs => {
            text.push_str("seven pairs ");
            push_hand(text, win);
            push_completes(text, win.winning(), &Block::Pair(win.winning()));
        }
        Reading::Orphans => {
            text.push_str("thirteen orphans ");
            push_hand(text, win);
            text.push_str(", won by ");
            push_kind(text, win.winning());
        }
    }
}

fn push_set_texts(text: &mut ReasonsText, sets: &Sets)
    requires { array_string_len text.old + MOST_SETS ≤ REASONS_ROOM }
    ensures bytes { text.new.bytes ≡ text.old.bytes ++ flat_map spec.set_text sets.now }
    ensures len { array_string_len text.new ≤ array_string_len text.old + MOST_SETS }
{
    for set in sets.as_slice() {
        push_set(text, set);
    }
}

#[tactic(auto, unfolding(crate::specs::Text::set_text))]
fn push_set(text: &mut ReasonsText, set: &Block)
    requires { array_string_len text.old + MOST_SET ≤ REASONS_ROOM }
    ensures bytes { text.new.bytes ≡ text.old.bytes ++ spec.set_text set.now }
    ensures len { array_string_len text.new ≤ array_string_len text.old + MOST_SET }
{
    push_block(text, set);
    text.push_str(" ");
}

#[tactic(auto, using(riichi_text::proofs::Pieces::flat_map_get, riichi_text::proofs::Pieces::some_there))]
fn push_spaced_melds(text: &mut ReasonsText, melds: &Melds)
    requires { array_string_len text.old + MOST_MELDS ≤ REASONS_ROOM }
    ensures bytes { text.new.bytes ≡ text.old.bytes ++ flat_map spec.spaced_meld melds.now }
    ensures len { array_string_len text.new ≤ array_string_len text.old + MOST_MELDS }
{
    for place in 0..melds.count() {
        if let Some(meld) = melds.get(place) {
            push_spaced(text, &meld);
        }
    }
}

#[tactic(auto, unfolding(crate::specs::Text::spaced_meld))]
fn push_spaced(text: &mut ReasonsText, meld: &Meld)
    requires { array_string_len text.old + MOST_SPACED ≤ REASONS_ROOM }
    ensures bytes { text.new.bytes ≡ text.old.bytes ++ spec.spaced_meld meld.now }
    ensures len { array_string_len text.new ≤ array_string_len text.old + MOST_SPACED }
{
    text.push_str(" ");
    push_meld(text, meld);
}

/// The winning tile, and the block that it completes.
#[tactic(auto, unfolding(crate::specs::Text::completes_text))]
fn push_completes(text: &mut ReasonsText, winning: Kind, done: &Block)
    requires { array_string_len text.old + MOST_COMPLETES ≤ REASONS_ROOM }
    ensures bytes { text.new.bytes ≡ text.old.bytes ++ spec.completes_text winning done.now }
    ensures len { array_string_len text.new ≤ array_string_len text.old + MOST_COMPLETES }
{
    text.push_str(", ");
    push_kind(text, winning);
    text.push_str(" completes ");
    push_block(text, done);
}

/// The concealed tiles with the winning tile.
#[tactic(auto, unfolding(crate::specs::Text::hand_text))]
fn push_hand(text: &mut ReasonsText, win: &WinRecord)
    requires { array_string_len text.old + MOST_HAND ≤ REASONS_ROOM }
    ensures bytes { text.new.bytes ≡ text.old.bytes ++ spec.hand_text win.now }
    ensures len { array_string_len text.new ≤ array_string_len text.old + MOST_HAND }
{
    text.push_str(write_counts(&hand_of(win)).as_str());
}
