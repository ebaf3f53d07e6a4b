//! The chances of one number of turns as members of an object of JSON.
ghost use Rattle.std.specs.Prelude.{◌≡◌, ◌+◌, ◌*◌, ◌<◌, ◌≤◌, ◌++◌, length};
ghost use Rattle.arrayvec.specs.ArrayString.{array_string_len};
ghost use Rattle.riichi_chances.specs.Odds.{ArePartsOfAll};
ghost use Rattle.riichi_chances_text.specs.OddsTexts as spec;

use crate::fraction::{MOST_DECIMAL, MOST_U128, push_decimal};
use crate::odds::part_of;
use arrayvec::ArrayString;
use riichi_chances::{Fraction, Odds};
use riichi_text::push_number;

const MOST_FRACTION: usize = "{\"part\":\"".len()
    + MOST_U128
    + "\",\"whole\":\"".len()
    + MOST_U128
    + "\",\"chance\":".len()
    + MOST_DECIMAL
    + "}".len();

const MOST_MEMBER: usize = ",\"ready_at_most\":".len() + MOST_FRACTION;

/// The bytes of the longest members.
pub const MOST_ODDS_MEMBERS: usize = 4 * MOST_MEMBER;

/// Writes the chances to be ready and to win, each with its upper end, a member each.
pub fn push_odds_members<const ROOM: usize>(text: &mut ArrayString<ROOM>, odds: &Odds)
    requires parts { ArePartsOfAll odds.now }
    requires room { array_string_len text.old + MOST_ODDS_MEMBERS ≤ ROOM }
    ensures bytes { text.new.bytes ≡ text.old.bytes ++ spec.odds_members odds.now }
    ensures len { array_string_len text.new ≤ array_string_len text.old + MOST_ODDS_MEMBERS }
{
    push_member(text, "\"ready\":", part_of(odds.ready, odds));
    push_member(
        text,
        ",\"ready_at_most\":",
        part_of(odds.ready_at_most, odds),
    );
    push_member(text, ",\"win\":", part_of(odds.win, odds));
    push_member(text, ",\"win_at_most\":", part_of(odds.win_at_most, odds));
}

/// Writes a member by its name, with a comma where it isn't the first.
#[tactic(auto, unfolding(crate::specs::OddsTexts::member_json))]
fn push_member<const ROOM: usize>(text: &mut ArrayString<ROOM>, name: &str, given: Fraction)
    requires short { length name.now ≤ 17 }
    requires part { given.part ≤ given.whole }
    requires some { 0 < given.whole }
    requires room { array_string_len text.old + MOST_MEMBER ≤ ROOM }
    ensures bytes { text.new.bytes ≡ text.old.bytes ++ spec.member_json name.now given }
    ensures len { array_string_len text.new ≤ array_string_len text.old + MOST_MEMBER }
{
    text.push_str(name);
    push_fraction_object(text, given);
}

/// Writes a part of a whole as an object.
fn push_fraction_object<const ROOM: usize>(text: &mut ArrayString<ROOM>, given: Fraction)
    requires part { given.part ≤ given.whole }
    requires some { 0 < given.whole }
    requires room { array_string_len text.old + MOST_FRACTION ≤ ROOM }
    ensures bytes { text.new.bytes ≡ text.old.bytes ++ spec.fraction_json given }
    ensures len { array_string_len text.new ≤ array_string_len text.old + MOST_FRACTION }
{
    let lowest = given.reduced();
    text.push_str("{\"part\":\"");
    push_number(text, lowest.part);
    text.push_str("\",\"whole\":\"");
    push_number(text, lowest.whole);
    text.push_str("\",\"chance\":");
    push_decimal(text, given);
    text.push_str("}");
}
