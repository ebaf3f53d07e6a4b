//! The pieces of an object of a worth.
ghost use Rattle.std.specs.Prelude.{◌≡◌, ◌+◌, ◌≤◌, ◌++◌};
ghost use Rattle.arrayvec.specs.ArrayString.{array_string_len};
ghost use Rattle.desk_json.specs.Parts.{comma_if};
ghost use Rattle.riichi_study.specs.WorthTexts.{IsRest};
ghost use Rattle.desk_study.specs.FoundWorths as spec;
ghost use Rattle.desk_study.specs.WorthObjects as objects;

use crate::found_worths::FoundWorth;
use crate::objects::push_comma_if;
use desk_json::{JSON_ROOM, JsonText};
use riichi_chances_text::{MOST_POINTS_MEMBERS, push_points_members};
use riichi_text::push_kind;
use riichi_worth::DiscardWorth;

/// The bytes of the worth of thirteen tiles, or of what stands before that of each discard.
pub(crate) const MOST_FIRST: usize = "true,\"discards\":[".len() + MOST_POINTS_MEMBERS;

/// The bytes of the longest discard.
pub(crate) const MOST_AFTER: usize = ",{\"discard\":\"1m\",}".len() + MOST_POINTS_MEMBERS;

/// Writes whether it is counted, and the worth of thirteen tiles.
pub(crate) fn push_first(text: &mut JsonText, worth: &FoundWorth)
    requires rests { spec.HasRests worth.now }
    requires room { array_string_len text.old + MOST_FIRST ≤ JSON_ROOM }
    ensures bytes { text.new.bytes ≡ text.old.bytes ++ spec.first_json worth.now }
    ensures len { array_string_len text.new ≤ array_string_len text.old + MOST_FIRST }
{
    match worth {
        FoundWorth::Uncounted => text.push_str("false"),
        FoundWorth::Hand(worth) => {
            text.push_str("true,");
            push_points_members(text, worth.points, worth.rest);
        }
        FoundWorth::Discards(_) => text.push_str("true,\"discards\":["),
    }
}

/// Writes the worth after a discard, behind a comma where it is not the first.
pub(crate) fn push_after(text: &mut JsonText, later: bool, one: &DiscardWorth)
    requires rest { IsRest one.now.worth.rest }
    requires room { array_string_len text.old + MOST_AFTER ≤ JSON_ROOM }
    ensures bytes { text.new.bytes
        ≡ text.old.bytes ++ (comma_if later ++ objects.worth_after_json one.now) }
    ensures len { array_string_len text.new ≤ array_string_len text.old + MOST_AFTER }
{
    push_comma_if(text, later);
    text.push_str("{\"discard\":\"");
    push_kind(text, one.kind);
    text.push_str("\",");
    push_points_members(text, one.worth.points, one.worth.rest);
    text.push_str("}");
}

/// Writes what ends the object.
pub(crate) fn push_end(text: &mut JsonText, worth: &FoundWorth)
    requires { array_string_len text.old + 2 ≤ JSON_ROOM }
    ensures bytes { text.new.bytes ≡ text.old.bytes ++ spec.end_json worth.now }
    ensures len { array_string_len text.new ≤ array_string_len text.old + 2 }
{
    match worth {
        FoundWorth::Uncounted | FoundWorth::Hand(_) => text.push_str("}"),
        FoundWorth::Discards(_) => text.push_str("]}"),
    }
}
