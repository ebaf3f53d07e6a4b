//! Lists of values behind a text.
ghost use Rattle.std.specs.Prelude.{◌≡◌, ℕ, ◌≤◌, ◌+◌, ◌*◌, List, ◌++◌, length, map, codes};
ghost use Rattle.std.specs.List.{flat_map};
ghost use Rattle.arrayvec.specs.ArrayString.{array_string_len};
ghost use Rattle.desk_reasons.specs.Parts as spec;

use desk_json::{JSON_ROOM, JsonText};

/// What is written as a value of JSON, one of a list.
pub(crate) trait Value {
    /// Its text.
    ghost value_text: { Self → List ℕ };

    /// How many bytes it has at most.
    ghost most: { ℕ };

    /// Writes it behind a text.
    fn push(&self, text: &mut JsonText)
        requires { array_string_len text.old + most ≤ JSON_ROOM }
        ensures bytes { text.new.bytes ≡ text.old.bytes ++ value_text self.now }
        ensures len { array_string_len text.new ≤ array_string_len text.old + most };
}

/// The values of a list behind the text before them, as a name with its colon and a bracket.
#[tactic(auto, unfolding(crate::specs::Parts::rows_json))]
pub(crate) fn push_rows<T: Value>(text: &mut JsonText, before: &str, rows: &[T])
    requires { array_string_len text.old
        + length before.now + length rows.now * (1 + T.most) ≤ JSON_ROOM }
    ensures bytes { text.new.bytes
        ≡ text.old.bytes ++ spec.rows_json before.now (map T.value_text rows.now) }
    ensures len { array_string_len text.new
        ≤ array_string_len text.old + length before.now + length rows.now * (1 + T.most) }
{
    text.push_str(before);
    if let [first, rest @ ..] = rows {
        first.push(text);
        push_more(text, rest);
    }
}

/// Writes these values, each behind a comma.
fn push_more<T: Value>(text: &mut JsonText, rows: &[T])
    requires { array_string_len text.old + length rows.now * (1 + T.most) ≤ JSON_ROOM }
    ensures bytes { text.new.bytes
        ≡ text.old.bytes ++ flat_map (λ next. codes "," ++ T.value_text next) rows.now }
    ensures len { array_string_len text.new
        ≤ array_string_len text.old + length rows.now * (1 + T.most) }
{
    for row in rows {
        text.push_str(",");
        row.push(text);
    }
}
