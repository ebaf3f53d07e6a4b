//! The chances of one number of turns in words.
ghost use Rattle.std.specs.Prelude.{◌≡◌, ◌+◌, ◌*◌, ◌<◌, ◌≤◌, ◌++◌, length};
ghost use Rattle.arrayvec.specs.ArrayString.{array_string_len};
ghost use Rattle.riichi_chances.specs.Odds.{ArePartsOfAll};
ghost use Rattle.riichi_chances_text.specs.OddsTexts as spec;

use crate::fraction::{MOST_DECIMAL, push_decimal};
use crate::odds::part_of;
use arrayvec::ArrayString;
use riichi_chances::{Fraction, Odds};

const MOST_BOTH: usize = "ready in  of all draws,  at most".len() + 2 * MOST_DECIMAL;

/// The bytes of the longest words.
pub const MOST_ODDS_WORDS: usize = 2 * MOST_BOTH;

/// Writes in how many of all draws the hand is then ready, and won, and in how many at most.
pub fn push_odds_words<const ROOM: usize>(text: &mut ArrayString<ROOM>, odds: &Odds)
    requires parts { ArePartsOfAll odds.now }
    requires room { array_string_len text.old + MOST_ODDS_WORDS ≤ ROOM }
    ensures bytes { text.new.bytes ≡ text.old.bytes ++ spec.odds_words odds.now }
    ensures len { array_string_len text.new ≤ array_string_len text.old + MOST_ODDS_WORDS }
{
    let ready = part_of(odds.ready, odds);
    push_both(text, "ready in ", ready, part_of(odds.ready_at_most, odds));
    let win = part_of(odds.win, odds);
    push_both(text, "; won in ", win, part_of(odds.win_at_most, odds));
}

/// Writes what is reached behind its name, and the upper end.
fn push_both<const ROOM: usize>(
    text: &mut ArrayString<ROOM>,
    name: &str,
    given: Fraction,
    most: Fraction,
)
    requires short { length name.now ≤ 9 }
    requires parts { (given.part ≤ given.whole) × (most.part ≤ most.whole) }
    requires some { (0 < given.whole) × (0 < most.whole) }
    requires room { array_string_len text.old + MOST_BOTH ≤ ROOM }
    ensures bytes { text.new.bytes ≡ text.old.bytes ++ spec.both_words name.now given most }
    ensures len { array_string_len text.new ≤ array_string_len text.old + MOST_BOTH }
{
    text.push_str(name);
    push_decimal(text, given);
    text.push_str(" of all draws, ");
    push_decimal(text, most);
    text.push_str(" at most");
}
