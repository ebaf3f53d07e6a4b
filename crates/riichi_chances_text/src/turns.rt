//! The chances by each number of turns as a member of an object of JSON.
ghost use Rattle.std.specs.Prelude.{◌≡◌, ℕ, ◌+◌, ◌*◌, ◌≤◌, ◌++◌};
ghost use Rattle.arrayvec.specs.ArrayString.{array_string_len};
ghost use Rattle.riichi_chances.specs.Odds.{ArePartsOfAll, odds_at};
ghost use Rattle.riichi_chances_text.specs.OddsTexts as spec;

use crate::fraction::{MOST_DECIMAL, push_decimal};
use crate::odds::part_of;
use arrayvec::ArrayString;
use riichi_chances::{Chances, Odds};

/// The bytes of the longest chances by one number of turns, behind a comma.
const MOST_TURN: usize = ",{\"ready\":".len()
    + MOST_DECIMAL
    + ",\"win\":".len()
    + MOST_DECIMAL
    + "}".len();

/// The bytes of the longest member. No more than eighteen turns are looked at.
pub const MOST_BY_TURN: usize = ",\"by_turn\":[".len() + 18 * MOST_TURN + "]".len();

/// Writes the chances to be ready and to win by each number of turns up to this, to four digits: a member of an object behind others.
pub fn push_by_turn<const ROOM: usize>(text: &mut ArrayString<ROOM>, chances: &Chances, turns: u8)
    requires turns { turns ≤ 18 }
    requires parts { (count : ℕ) → count ≤ turns → ArePartsOfAll (odds_at chances.now count) }
    requires room { array_string_len text.old + MOST_BY_TURN ≤ ROOM }
    ensures bytes { text.new.bytes
        ≡ text.old.bytes ++ spec.by_turn_member (odds_at chances.now) turns }
    ensures len { array_string_len text.new ≤ array_string_len text.old + MOST_BY_TURN }
{
    text.push_str(",\"by_turn\":[");
    push_each_turn(text, chances, turns);
    text.push_str("]");
}

/// Writes those of each number of turns, with commas between them.
fn push_each_turn<const ROOM: usize>(text: &mut ArrayString<ROOM>, chances: &Chances, turns: u8)
    requires turns { turns ≤ 18 }
    requires parts { (count : ℕ) → count ≤ turns → ArePartsOfAll (odds_at chances.now count) }
    requires room { array_string_len text.old + turns * MOST_TURN ≤ ROOM }
    ensures bytes { text.new.bytes
        ≡ text.old.bytes ++ spec.each_turn (odds_at chances.now) turns }
    ensures len { array_string_len text.new ≤ array_string_len text.old + turns * MOST_TURN }
{
    for before in 0..turns {
        let odds = chances.at(before + 1);
        push_turn(text, before > 0, &odds);
    }
}

/// Writes those of one number of turns, behind a comma where others stand before them.
fn push_turn<const ROOM: usize>(text: &mut ArrayString<ROOM>, later: bool, odds: &Odds)
    requires parts { ArePartsOfAll odds.now }
    requires room { array_string_len text.old + MOST_TURN ≤ ROOM }
    ensures bytes { text.new.bytes
        ≡ text.old.bytes ++ (spec.comma_if later ++ spec.turn_json odds.now) }
    ensures len { array_string_len text.new ≤ array_string_len text.old + MOST_TURN }
{
    push_comma_if(text, later);
    text.push_str("{\"ready\":");
    push_decimal(text, part_of(odds.ready, odds));
    text.push_str(",\"win\":");
    push_decimal(text, part_of(odds.win, odds));
    text.push_str("}");
}

/// Writes a comma where something stands before it.
fn push_comma_if<const ROOM: usize>(text: &mut ArrayString<ROOM>, later: bool)
    requires { array_string_len text.old + 1 ≤ ROOM }
    ensures bytes { text.new.bytes ≡ text.old.bytes ++ spec.comma_if later }
    ensures len { array_string_len text.new ≤ array_string_len text.old + 1 }
{
    if later {
        text.push_str(",");
    }
}
