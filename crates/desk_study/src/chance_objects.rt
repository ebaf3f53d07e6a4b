//! The pieces of an object of chances.
ghost use Rattle.std.specs.Prelude.{◌≡◌, ◌+◌, ◌*◌, ◌≤◌, ◌++◌, ◌||◌, length};
ghost use Rattle.arrayvec.specs.ArrayString.{array_string_len};
ghost use Rattle.riichi_chances.specs.Odds.{ArePartsOfAll, odds_at};
ghost use Rattle.desk_json.specs.Parts.{comma_if, quoted_kind};
ghost use Rattle.desk_study.specs.Answers.{listed_next, something_there};
ghost use Rattle.desk_study.specs.ChanceObjects as objects;
ghost use Rattle.desk_study.specs.Found as spec;
ghost use Rattle.desk_study.specs.WorthObjects.{worth_name};

use crate::found::FoundByTurn;
use crate::objects::push_comma_if;
use crate::safe_objects::{MOST_QUOTED, push_quoted};
use desk_json::{JSON_ROOM, JsonText};
use riichi_chances::{Chances, DiscardChances, DiscardOdds, Odds};
use riichi_chances_text::{MOST_BY_TURN, MOST_ODDS_MEMBERS, push_by_turn, push_odds_members};
use riichi_text::{MOST_I8, MOST_U8, push_kind, push_number};
use riichi_tiles::Kind;

/// The bytes of the longest shanten, turns and unseen tiles.
const MOST_COUNTED: usize = "\"shanten\":".len()
    + MOST_I8
    + ",\"turns\":".len()
    + MOST_U8
    + ",\"unseen\":".len()
    + MOST_U8
    + ",\"counted\":".len();

/// The bytes of what stands before what is counted.
pub(crate) const MOST_FRONT: usize = "\"answer\":\"chances\",".len() + MOST_COUNTED;

/// The bytes of the chances of thirteen tiles, or of what stands before those of each discard.
pub(crate) const MOST_FIRST: usize = "true,\"discards\":[".len() + MOST_ODDS_MEMBERS + MOST_BY_TURN;

/// The bytes of a discard before the others that it beats.
const MOST_DISCARD: usize = ",{\"discard\":\"1m\",".len()
    + MOST_ODDS_MEMBERS
    + ",\"surely_over\":[".len();

/// The bytes of the longest discard.
pub(crate) const MOST_AFTER: usize = MOST_DISCARD + 14 * MOST_QUOTED + MOST_BY_TURN + "]}".len();

/// Writes the shanten, the turns that are to come, and how many tiles are unseen.
fn push_counted_front(text: &mut JsonText, shanten: i8, turns: u8, unseen: u8)
    requires { array_string_len text.old + MOST_COUNTED ≤ JSON_ROOM }
    ensures bytes { text.new.bytes
        ≡ text.old.bytes ++ objects.counted_front shanten turns unseen }
    ensures len { array_string_len text.new ≤ array_string_len text.old + MOST_COUNTED }
{
    text.push_str("\"shanten\":");
    push_number(text, shanten);
    text.push_str(",\"turns\":");
    push_number(text, turns);
    text.push_str(",\"unseen\":");
    push_number(text, unseen);
    text.push_str(",\"counted\":");
}

/// Writes the same of chances, behind the name of the answer.
pub(crate) fn push_chances_front(text: &mut JsonText, shanten: i8, turns: u8, unseen: u8)
    requires { array_string_len text.old + MOST_FRONT ≤ JSON_ROOM }
    ensures bytes { text.new.bytes
        ≡ text.old.bytes ++ objects.front_json objects.chances_name shanten turns unseen }
    ensures len { array_string_len text.new ≤ array_string_len text.old + MOST_FRONT }
{
    text.push_str("\"answer\":\"chances\",");
    push_counted_front(text, shanten, turns, unseen);
}

/// Writes the same of a worth.
pub(crate) fn push_worth_front(text: &mut JsonText, shanten: i8, turns: u8, unseen: u8)
    requires { array_string_len text.old + MOST_FRONT ≤ JSON_ROOM }
    ensures bytes { text.new.bytes
        ≡ text.old.bytes ++ objects.front_json worth_name shanten turns unseen }
    ensures len { array_string_len text.new ≤ array_string_len text.old + MOST_FRONT }
{
    text.push_str("\"answer\":\"worth\",");
    push_counted_front(text, shanten, turns, unseen);
}

/// Writes whether they are counted, and the chances of thirteen tiles by so many turns.
pub(crate) fn push_first(text: &mut JsonText, found: &FoundByTurn, turns: u8)
    requires turns { turns ≤ 18 }
    requires parts { spec.AreParts turns found.now }
    requires room { array_string_len text.old + MOST_FIRST ≤ JSON_ROOM }
    ensures bytes { text.new.bytes ≡ text.old.bytes ++ spec.first_json turns found.now }
    ensures len { array_string_len text.new ≤ array_string_len text.old + MOST_FIRST }
{
    match found {
        FoundByTurn::Uncounted => text.push_str("false"),
        FoundByTurn::Hand(chances) => {
            text.push_str("true,");
            push_hand(text, chances, turns);
        }
        FoundByTurn::Discards(_) => text.push_str("true,\"discards\":["),
    }
}

/// Writes the chances of thirteen tiles, by so many turns and by each number of turns up to that.
fn push_hand(text: &mut JsonText, chances: &Chances, turns: u8)
    requires turns { turns ≤ 18 }
    requires parts { spec.AreAllParts turns chances.now }
    requires room { array_string_len text.old + MOST_ODDS_MEMBERS + MOST_BY_TURN
        ≤ JSON_ROOM }
    ensures bytes { text.new.bytes
        ≡ text.old.bytes ++ objects.hand_json (odds_at chances.now) turns }
    ensures len { array_string_len text.new
        ≤ array_string_len text.old + MOST_ODDS_MEMBERS + MOST_BY_TURN }
{
    push_odds_members(text, &chances.at(turns));
    push_by_turn(text, chances, turns);
}

/// Writes the chances after a discard, and after which of the others no play wins as often, behind a comma where it is not the first.
pub(crate) fn push_after(
    text: &mut JsonText,
    later: bool,
    others: &[DiscardOdds],
    one: &DiscardChances,
    turns: u8,
)
    requires turns { turns ≤ 18 }
    requires parts { spec.AreAllParts turns one.now.chances }
    requires few { length others.now ≤ 14 }
    requires room { array_string_len text.old + MOST_AFTER ≤ JSON_ROOM }
    ensures bytes { text.new.bytes
        ≡ text.old.bytes ++ (comma_if later ++ spec.one_json others.now turns one.now) }
    ensures len { array_string_len text.new ≤ array_string_len text.old + MOST_AFTER }
{
    let odds = one.chances.at(turns);
    push_discard(text, later, one.kind, &odds);
    push_beaten(text, &odds, others);
    text.push_str("]");
    push_by_turn(text, &one.chances, turns);
    text.push_str("}");
}

/// Writes the chances after a discard, and what stands before the other discards.
fn push_discard(text: &mut JsonText, later: bool, kind: Kind, odds: &Odds)
    requires parts { ArePartsOfAll odds.now }
    requires room { array_string_len text.old + MOST_DISCARD ≤ JSON_ROOM }
    ensures bytes { text.new.bytes
        ≡ (text.old.bytes ++ comma_if later) ++ objects.discard_json kind odds.now }
    ensures len { array_string_len text.new ≤ array_string_len text.old + MOST_DISCARD }
{
    push_comma_if(text, later);
    text.push_str("{\"discard\":\"");
    push_kind(text, kind);
    text.push_str("\",");
    push_odds_members(text, odds);
    text.push_str(",\"surely_over\":[");
}

/// Writes the kinds of the others after which no play wins as often.
fn push_beaten(text: &mut JsonText, odds: &Odds, others: &[DiscardOdds])
    requires { array_string_len text.old + MOST_QUOTED * length others.now ≤ JSON_ROOM }
    ensures bytes { text.new.bytes ≡ text.old.bytes ++ objects.beaten_json odds.now others.now }
    ensures len { array_string_len text.new
        ≤ array_string_len text.old + MOST_QUOTED * length others.now }
{
    let mut later = false;
    for other in others {
        later = push_if_beaten(text, later, odds, other);
    }
}

/// Writes the kind of another discard, where no play wins as often after it, behind a comma where it is not the first: whether one
/// stands there now.
fn push_if_beaten(text: &mut JsonText, later: bool, odds: &Odds, other: &DiscardOdds) -> bool
    requires { array_string_len text.old + MOST_QUOTED ≤ JSON_ROOM }
    ensures bytes { text.new.bytes ≡ text.old.bytes
        ++ listed_next quoted_kind later (objects.beaten_kind odds.now other.now) }
    ensures later { result
        ≡ later || something_there (objects.beaten_kind odds.now other.now) }
    ensures len { array_string_len text.new ≤ array_string_len text.old + MOST_QUOTED }
{
    if !odds.wins_surely_over(&other.odds) {
        return later;
    }
    push_quoted(text, later, other.kind);
    true
}

/// Writes what ends the object.
pub(crate) fn push_end(text: &mut JsonText, found: &FoundByTurn)
    requires { array_string_len text.old + 2 ≤ JSON_ROOM }
    ensures bytes { text.new.bytes ≡ text.old.bytes ++ spec.end_json found.now }
    ensures len { array_string_len text.new ≤ array_string_len text.old + 2 }
{
    match found {
        FoundByTurn::Uncounted | FoundByTurn::Hand(_) => text.push_str("}"),
        FoundByTurn::Discards(_) => text.push_str("]}"),
    }
}
