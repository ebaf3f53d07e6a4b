//! The text of the chances of one number of turns.
ghost use Rattle.std.specs.Prelude.{◌≡◌, ◌+◌, ◌*◌, ◌<◌, ◌≤◌, ◌++◌, length};
ghost use Rattle.arrayvec.specs.ArrayString.{array_string_len};
ghost use Rattle.riichi_chances.specs.Odds.{ArePartsOfAll};
ghost use Rattle.riichi_chances_text.specs.OddsTexts as spec;

use crate::fraction::{MOST_FRACTION, push_fraction};
use arrayvec::ArrayString;
use riichi_chances::{Fraction, Odds};

const MOST_END: usize = " ready ".len() + MOST_FRACTION;

/// The bytes of the longest chances.
pub const MOST_ODDS: usize = 4 * MOST_END;

/// Writes the chances to be ready and to win, each with its upper end.
pub fn push_odds<const ROOM: usize>(text: &mut ArrayString<ROOM>, odds: &Odds)
    requires parts { ArePartsOfAll odds.now }
    requires room { array_string_len text.old + MOST_ODDS ≤ ROOM }
    ensures bytes { text.new.bytes ≡ text.old.bytes ++ spec.odds_text odds.now }
    ensures len { array_string_len text.new ≤ array_string_len text.old + MOST_ODDS }
{
    push_end(text, "ready", part_of(odds.ready, odds));
    push_end(text, "most", part_of(odds.ready_at_most, odds));
    push_end(text, "win", part_of(odds.win, odds));
    push_end(text, "most", part_of(odds.win_at_most, odds));
}

/// So many of all draws.
pub(crate) fn part_of(part: u128, odds: &Odds) -> Fraction
    ensures { result ≡ spec.part_of part odds.now }
{
    Fraction {
        part,
        whole: odds.all,
    }
}

/// Writes a chance behind its name.
fn push_end<const ROOM: usize>(text: &mut ArrayString<ROOM>, name: &str, given: Fraction)
    requires short { length name.now ≤ 5 }
    requires part { given.part ≤ given.whole }
    requires some { 0 < given.whole }
    requires room { array_string_len text.old + MOST_END ≤ ROOM }
    ensures bytes { text.new.bytes ≡ text.old.bytes ++ spec.end_text name.now given }
    ensures len { array_string_len text.new ≤ array_string_len text.old + MOST_END }
{
    text.push_str(" ");
    text.push_str(name);
    text.push_str(" ");
    push_fraction(text, given);
}
