//! The value of the key `flags`.
ghost use Rattle.std.specs.Prelude.{◌≡◌, ◌∷◌, ◌++◌, [], true, None, Some, List, ℕ, if◌then◌else◌};
ghost use Rattle.riichi_hand.specs.Values.{flags_of, flags_of_items, flags_in, are_flags};

use crate::win::Flags;
use riichi_tiles::split_at_mark;

/// The flags that a text joins by commas, none twice.
pub(crate) fn read_flags(value: &[u8]) -> Option<Flags>
    ensures { result ≡ flags_of value.now }
{
    let mut flags = Flags::none();
    let mut rest = value;
    loop {
        let Some((item, after)) = split_at_mark(rest, b',') else {
            return with_flag(flags, rest);
        };
        flags = with_flag(flags, item)?;
        rest = after;
    }
}

/// The flags of items and of one more.
fn with_flag(flags: Flags, item: &[u8]) -> Option<Flags>
    ensures { (items : List (List ℕ)) → are_flags items ≡ true → flags ≡ flags_in items
        → result ≡ flags_of_items (items ++ item.now ∷ []) }
{
    let mut set = flags;
    if item == b"ippatsu".as_slice() {
        set.ippatsu = true;
        unless(flags.ippatsu, set)
    } else if item == b"rinshan".as_slice() {
        set.rinshan = true;
        unless(flags.rinshan, set)
    } else if item == b"chankan".as_slice() {
        set.chankan = true;
        unless(flags.chankan, set)
    } else if item == b"last".as_slice() {
        set.last = true;
        unless(flags.last, set)
    } else if item == b"first".as_slice() {
        set.first = true;
        unless(flags.first, set)
    } else {
        None
    }
}

/// The flags, unless the one that was added was set before.
fn unless(was_set: bool, flags: Flags) -> Option<Flags>
    ensures { result ≡ (if was_set then None else Some flags) }
{
    if was_set { None } else { Some(flags) }
}
