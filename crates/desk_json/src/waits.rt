//! The kinds that a hand waits for.
ghost use Rattle.std.specs.Prelude.{◌≡◌, ◌≤◌, ◌+◌, ◌++◌};
ghost use Rattle.arrayvec.specs.ArrayString.{array_string_len};
ghost use Rattle.desk_json.specs.Parts as spec;

use crate::number::push_comma_if;
use crate::text::{JSON_ROOM, JsonText};
use riichi_text::push_kind;
use riichi_tiles::{Kind, KindSet};

/// The bytes of the longest object of waits.
const MOST_WAITS: usize = "{\"answer\":\"waits\",\"kinds\":[".len() + MOST_KINDS + "]}".len();

const MOST_KINDS: usize = 34 * MOST_ONE;

const MOST_ONE: usize = ",\"1m\"".len();

#[tactic(auto, unfolding(crate::specs::Parts::waits_json))]
pub(crate) fn push_waits(text: &mut JsonText, kinds: &KindSet)
    requires { array_string_len text.old + MOST_WAITS ≤ JSON_ROOM }
    ensures { text.new.bytes ≡ text.old.bytes ++ spec.waits_json kinds.now }
{
    text.push_str("{\"answer\":\"waits\",\"kinds\":[");
    push_kinds(text, kinds);
    text.push_str("]}");
}

/// The kinds of a set, ascending.
fn push_kinds(text: &mut JsonText, kinds: &KindSet)
    requires { array_string_len text.old + MOST_KINDS ≤ JSON_ROOM }
    ensures bytes { text.new.bytes ≡ text.old.bytes ++ spec.kinds_json kinds.now }
    ensures len { array_string_len text.new ≤ array_string_len text.old + MOST_KINDS }
{
    let mut later = false;
    for number in 0..34 {
        let kind = Kind::at(number);
        if kinds.contains(kind) {
            push_one(text, later, kind);
            later = true;
        }
    }
}

/// One kind, behind a comma where it is not the first.
fn push_one(text: &mut JsonText, later: bool, kind: Kind)
    requires { array_string_len text.old + MOST_ONE ≤ JSON_ROOM }
    ensures bytes { text.new.bytes
        ≡ text.old.bytes ++ spec.comma_if later ++ spec.quoted_kind kind }
    ensures len { array_string_len text.new ≤ array_string_len text.old + MOST_ONE }
{
    push_comma_if(text, later);
    text.push_str("\"");
    push_kind(text, kind);
    text.push_str("\"");
}
