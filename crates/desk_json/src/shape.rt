//! How far a hand is from winning, and what brings it nearer.
ghost use Rattle.std.specs.Prelude.{ℕ, ◌≡◌, ◌≤◌, ◌<◌, ◌+◌, ◌++◌, slice_index};
ghost use Rattle.arrayvec.specs.ArrayString.{array_string_len};
ghost use Rattle.riichi_shape.specs.LiveCopies.{pairs_of};
ghost use Rattle.desk_json.specs.Parts as spec;

use crate::number::{push_after, push_comma_if, push_digit};
use crate::text::{JSON_ROOM, JsonText};
use riichi_shape::{Accepts, Discard, DiscardList, LiveList, ShapeAnswer};
use riichi_text::{MOST_I8, MOST_U32, push_kind, push_number};
use riichi_tiles::Kind;

/// The bytes of the longest object of a shape, with fourteen discards that accept every kind.
pub(crate) const MOST_SHAPE: usize = "{\"answer\":\"shape\",\"shanten\":".len()
    + MOST_I8
    + ",".len()
    + MOST_ACCEPTS;

const MOST_ACCEPTS: usize = "\"discards\":[".len() + MOST_DISCARDS + "]}".len();

const MOST_DISCARDS: usize = 14 * MOST_DISCARD;

const MOST_DISCARD: usize = ",{\"discard\":\"1m\",".len() + MOST_ACCEPTED;

/// The bytes of the longest members of what is accepted, with the brace behind them.
pub const MOST_ACCEPTED: usize = "\"accepts\":[".len()
    + MOST_PAIRS
    + "],\"live\":".len()
    + MOST_U32
    + "}".len();

const MOST_PAIRS: usize = 34 * MOST_PAIR;

const MOST_PAIR: usize = ",{\"kind\":\"1m\",\"live\":4}".len();

#[tactic(auto, unfolding(crate::specs::Parts::shape_json))]
pub(crate) fn push_shape(text: &mut JsonText, shape: &ShapeAnswer)
    requires { array_string_len text.old + MOST_SHAPE ≤ JSON_ROOM }
    ensures { text.new.bytes ≡ text.old.bytes ++ spec.shape_json shape.now }
{
    text.push_str("{\"answer\":\"shape\",\"shanten\":");
    push_number(text, shape.shanten);
    text.push_str(",");
    push_accepts(text, &shape.accepts);
}

#[tactic(auto, unfolding(crate::specs::Parts::accepts_json))]
fn push_accepts(text: &mut JsonText, accepts: &Accepts)
    requires { array_string_len text.old + MOST_ACCEPTS ≤ JSON_ROOM }
    ensures { text.new.bytes ≡ text.old.bytes ++ spec.accepts_json accepts.now }
{
    match accepts {
        Accepts::Thirteen(accepted) => push_accepted(text, accepted),
        Accepts::Fourteen(discards) => {
            text.push_str("\"discards\":[");
            push_discards(text, discards);
            text.push_str("]}");
        }
    }
}

#[tactic(auto, using(riichi_text::proofs::Pieces::some_there, crate::proofs::Chosen::discard_more))]
fn push_discards(text: &mut JsonText, discards: &DiscardList)
    requires { array_string_len text.old + MOST_DISCARDS ≤ JSON_ROOM }
    ensures bytes { text.new.bytes ≡ text.old.bytes ++ spec.discards_json discards.now }
    ensures len { array_string_len text.new ≤ array_string_len text.old + MOST_DISCARDS }
{
    for place in 0..discards.len() {
        if let Some(discard) = discards.get(place) {
            push_discard(text, place > 0, &discard);
        }
    }
}

/// One discard, behind a comma where it is not the first.
#[tactic(auto, unfolding(crate::specs::Parts::discard_json))]
fn push_discard(text: &mut JsonText, later: bool, discard: &Discard)
    requires { array_string_len text.old + MOST_DISCARD ≤ JSON_ROOM }
    ensures bytes { text.new.bytes ≡
        text.old.bytes ++ spec.comma_if later ++ spec.discard_json discard.now }
    ensures len { array_string_len text.new ≤ array_string_len text.old + MOST_DISCARD }
{
    push_comma_if(text, later);
    text.push_str("{\"discard\":\"");
    push_kind(text, discard.kind);
    text.push_str("\",");
    push_accepted(text, &discard.accepted);
}

/// The accepted kinds with the live copies of all of them, and the brace after these.
#[tactic(auto, unfolding(crate::specs::Parts::accepted_json))]
pub fn push_accepted(text: &mut JsonText, accepted: &LiveList)
    requires { array_string_len text.old + MOST_ACCEPTED ≤ JSON_ROOM }
    ensures bytes { text.new.bytes ≡ text.old.bytes ++ spec.accepted_json accepted.now }
    ensures len { array_string_len text.new ≤ array_string_len text.old + MOST_ACCEPTED }
{
    text.push_str("\"accepts\":[");
    push_pairs(text, accepted.copies());
    push_after(text, "],\"live\":", accepted.live());
    text.push_str("}");
}

/// Each kind that has live copies, ascending.
fn push_pairs(text: &mut JsonText, copies: &[u8; 34])
    requires room { array_string_len text.old + MOST_PAIRS ≤ JSON_ROOM }
    requires few { (kind : ℕ) → slice_index copies.now kind ≤ 4 }
    ensures bytes { text.new.bytes ≡ text.old.bytes ++ spec.pairs_json (pairs_of copies.now) }
    ensures len { array_string_len text.new ≤ array_string_len text.old + MOST_PAIRS }
{
    let mut later = false;
    for number in 0..34 {
        let live = copies[number as usize];
        if live > 0 {
            push_pair(text, later, Kind::at(number), live);
            later = true;
        }
    }
}

/// One kind with its live copies, behind a comma where it is not the first.
#[tactic(auto, unfolding(crate::specs::Parts::live_json))]
fn push_pair(text: &mut JsonText, later: bool, kind: Kind, live: u8)
    requires room { array_string_len text.old + MOST_PAIR ≤ JSON_ROOM }
    requires few { live ≤ 4 }
    ensures bytes { text.new.bytes ≡
        text.old.bytes ++ spec.comma_if later ++ spec.live_json (kind, live) }
    ensures len { array_string_len text.new ≤ array_string_len text.old + MOST_PAIR }
{
    push_comma_if(text, later);
    text.push_str("{\"kind\":\"");
    push_kind(text, kind);
    text.push_str("\",\"live\":");
    push_digit(text, live);
    text.push_str("}");
}
