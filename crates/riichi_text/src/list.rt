//! The text of a list.
ghost use Rattle.std.specs.Prelude.{◌≡◌, ℕ, ◌+◌, ◌*◌, ◌≤◌, List, ◌++◌, length, map};
ghost use Rattle.std.specs.List.{flat_map};
ghost use Rattle.arrayvec.specs.ArrayString.{array_string_len};
ghost use Rattle.riichi_text.specs.Lists.{joined};

use arrayvec::ArrayString;

/// What is written as one of a list.
pub trait ListItem<const ROOM: usize> {
    /// Its text.
    ghost item_text: { Self → List ℕ };

    /// How many bytes it has at most.
    ghost most: { ℕ };

    /// Writes it behind a text.
    fn push(&self, text: &mut ArrayString<ROOM>)
        requires { array_string_len text.old + most ≤ ROOM }
        ensures bytes { text.new.bytes ≡ text.old.bytes ++ item_text self.now }
        ensures len { array_string_len text.new ≤ array_string_len text.old + most };
}

/// Writes the items of a list, with a separator between them.
pub fn push_list<T: ListItem<ROOM>, const ROOM: usize>(
    text: &mut ArrayString<ROOM>,
    separator: &str,
    items: &[T],
)
    requires { array_string_len text.old
        + length items.now * (length separator.now + T.most) ≤ ROOM }
    ensures bytes { text.new.bytes
        ≡ text.old.bytes ++ joined separator.now (map T.item_text items.now) }
    ensures len { array_string_len text.new
        ≤ array_string_len text.old + length items.now * (length separator.now + T.most) }
{
    if let [first, rest @ ..] = items {
        first.push(text);
        push_more(text, separator, rest);
    }
}

/// Writes these items, each behind a separator.
fn push_more<T: ListItem<ROOM>, const ROOM: usize>(
    text: &mut ArrayString<ROOM>,
    separator: &str,
    items: &[T],
)
    requires { array_string_len text.old
        + length items.now * (length separator.now + T.most) ≤ ROOM }
    ensures bytes { text.new.bytes
        ≡ text.old.bytes ++ flat_map (λ next. separator.now ++ T.item_text next) items.now }
    ensures len { array_string_len text.new
        ≤ array_string_len text.old + length items.now * (length separator.now + T.most) }
{
    for item in items {
        text.push_str(separator);
        item.push(text);
    }
}
