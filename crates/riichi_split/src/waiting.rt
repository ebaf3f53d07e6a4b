//! The kinds that a hand waits for.
ghost use Rattle.std.specs.Prelude.{◌≡◌, ◌↔◌, ◌<◌, ◌≤◌, ◌+◌, ◌++◌, ℕ, length};
ghost use Rattle.arrayvec.specs.ArrayString.{array_string_len};
ghost use Rattle.riichi_tiles.specs.HeldKinds.{IsMarked};
ghost use Rattle.riichi_hand.specs.Hand.{copies_held};
ghost use Rattle.riichi_split.specs.Waits as spec;

use crate::special_waits::mark_special_waits;
use crate::standard::standard_waits;
use arrayvec::ArrayString;
use riichi_hand::HandRecord;
use riichi_tiles::{Counts, Kind, KindSet, Melds, write_kinds};

/// The bytes of the longest text of waits.
pub const MOST_WAITS: usize = "waits ".len() + 40;

/// The kinds of which hand and melds hold fewer than four, and which complete the hand.
pub fn waits(hand: &HandRecord) -> KindSet
    ensures value { result ≡ spec.waits_of hand.now }
    ensures each { (kind : ℕ) → IsMarked result kind ↔ spec.IsWait hand.now kind }
{
    let tiles = hand.concealed();
    let melds = hand.melds();
    let mut waits = standard_waits(tiles.as_array(), melds.count());
    if melds.count() > 0 {
        return with_tiles_left(&waits, &tiles, &melds);
    }
    mark_special_waits(&tiles, &mut waits);
    waits
}

/// Those of some kinds of which hand and melds hold fewer than four.
#[tactic(auto, using(riichi_tiles::proofs::KindSets::kind_sets, crate::proofs::KindMarks::adds_none))]
pub fn with_tiles_left(kinds: &KindSet, tiles: &Counts, melds: &Melds) -> KindSet
    ensures { (kind : ℕ) → IsMarked result kind ↔ ((kind < 34)
        × IsMarked kinds.now kind × (copies_held tiles.now melds.now kind < 4)) }
{
    let mut left = KindSet::new();
    for number in 0..34 {
        let kind = Kind::at(number);
        if kinds.contains(kind) && tiles.get(kind) + melds.tiles(kind) < 4 {
            left.insert(kind);
        }
    }
    left
}

/// Writes some waits behind a text: `waits` and their kinds, `waits -` where there are none.
pub fn push_waits<const ROOM: usize>(text: &mut ArrayString<ROOM>, waits: KindSet)
    requires { array_string_len text.old + MOST_WAITS ≤ ROOM }
    ensures bytes { text.new.bytes ≡ text.old.bytes ++ spec.waits_text waits }
    ensures len { array_string_len text.new ≤ array_string_len text.old + MOST_WAITS }
{
    text.push_str("waits ");
    if waits.is_empty() {
        text.push_str("-");
    } else {
        text.push_str(write_kinds(waits).as_str());
    }
}
