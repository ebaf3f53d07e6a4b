//! What is found, as the members of an object.
ghost use Rattle.std.specs.Prelude.{◌≡◌, ◌+◌, ◌*◌, ◌≤◌, ◌++◌, ◌||◌, codes, length};
ghost use Rattle.std.specs.Fmt.{signed_decimal};
ghost use Rattle.riichi_study.specs.Findings as found;
ghost use Rattle.desk_study.specs.Answers as spec;
ghost use Rattle.desk_study.specs.Objects as objects;

use crate::objects::{
    MOST_CALL, MOST_HAND, MOST_KONG, MOST_ORDER, MOST_PROSPECT, MOST_SHANTEN, push_call,
    push_calls_front, push_hand, push_kong, push_order, push_prospect, push_shape_front,
};
use crate::puts::put_object_piece;
use desk_lines::Outbox;
use riichi_deeper::{Call, Outlook};
use riichi_shape::{LiveList, ShapeAnswer};
use riichi_study::{Order, Prospect};
use riichi_tiles::Kind;

/// The bytes of the longest members of thirteen tiles.
const MOST_HAND_MEMBERS: usize = MOST_SHANTEN + ",".len() + MOST_HAND;

/// The bytes of the longest members of fourteen tiles.
pub(crate) const MOST_DISCARDS_MEMBERS: usize = MOST_SHANTEN
    + MOST_ORDER
    + 14 * MOST_PROSPECT
    + "]}".len();

const MOST_CALLS_FRONT: usize = MOST_SHANTEN + ",\"calls\":[".len();

const MOST_KONG_MEMBER: usize = "],\"kong\":".len() + MOST_KONG + "}".len();

/// The bytes of the longest members of calls and a kong.
pub(crate) const MOST_CALLS_MEMBERS: usize = MOST_CALLS_FRONT + 4 * MOST_CALL + MOST_KONG_MEMBER;

/// Puts the members of thirteen tiles.
pub(crate) fn put_hand_members(
    shanten: i8,
    accepted: &LiveList,
    outlook: &Option<Outlook>,
    outbox: &mut Outbox,
)
    requires { spec.HasRoomFor MOST_HAND_MEMBERS outbox.old }
    ensures bytes { outbox.new.bytes.items ≡ outbox.old.bytes.items
        ++ objects.finding_members (found.Hand shanten accepted.now outlook.now) }
    ensures room { length outbox.new.bytes.items
        ≤ length outbox.old.bytes.items + MOST_HAND_MEMBERS }
{
    outbox.object.clear();
    push_shape_front(&mut outbox.object, shanten);
    outbox.object.push_str(",");
    push_hand(&mut outbox.object, accepted, outlook);
    put_object_piece(outbox);
}

/// Puts the members of fourteen tiles.
pub(crate) fn put_discards_members(
    shanten: i8,
    order: Order,
    list: &[Option<Prospect>],
    outbox: &mut Outbox,
)
    requires few { length list.now ≤ 14 }
    requires room { spec.HasRoomFor MOST_DISCARDS_MEMBERS outbox.old }
    ensures bytes { outbox.new.bytes.items ≡ outbox.old.bytes.items
        ++ objects.finding_members (found.Discards shanten order (spec.all_there list.now)) }
    ensures room { length outbox.new.bytes.items
        ≤ length outbox.old.bytes.items + MOST_DISCARDS_MEMBERS }
{
    put_order(shanten, order, outbox);
    put_prospects(list, outbox);
    put_list_end(outbox);
}

/// Puts what stands before the discards of fourteen tiles.
fn put_order(shanten: i8, order: Order, outbox: &mut Outbox)
    requires { spec.HasRoomFor (MOST_SHANTEN + MOST_ORDER) outbox.old }
    ensures bytes { outbox.new.bytes.items ≡ outbox.old.bytes.items
        ++ (codes "\"answer\":\"shape\",\"shanten\":" ++ signed_decimal shanten ++ objects.order_json order) }
    ensures room { length outbox.new.bytes.items
        ≤ length outbox.old.bytes.items + MOST_SHANTEN + MOST_ORDER }
{
    outbox.object.clear();
    push_shape_front(&mut outbox.object, shanten);
    push_order(&mut outbox.object, order);
    put_object_piece(outbox);
}

/// Puts the discards of fourteen tiles, with commas between them.
fn put_prospects(list: &[Option<Prospect>], outbox: &mut Outbox)
    requires { spec.HasRoomFor (length list.now * MOST_PROSPECT) outbox.old }
    ensures bytes { outbox.new.bytes.items
        ≡ outbox.old.bytes.items ++ spec.listed_there objects.prospect_json list.now }
    ensures room { length outbox.new.bytes.items
        ≤ length outbox.old.bytes.items + length list.now * MOST_PROSPECT }
{
    let mut later = false;
    for prospect in list {
        later = put_prospect(later, prospect, outbox);
    }
}

/// Puts a discard, where there is one, behind a comma where one stands before it: whether one stands there now.
fn put_prospect(later: bool, prospect: &Option<Prospect>, outbox: &mut Outbox) -> bool
    requires { spec.HasRoomFor MOST_PROSPECT outbox.old }
    ensures bytes { outbox.new.bytes.items
        ≡ outbox.old.bytes.items ++ spec.listed_next objects.prospect_json later prospect.now }
    ensures later { result ≡ later || spec.something_there prospect.now }
    ensures room { length outbox.new.bytes.items
        ≤ length outbox.old.bytes.items + MOST_PROSPECT }
{
    let Some(prospect) = prospect else {
        return later;
    };
    outbox.object.clear();
    push_prospect(&mut outbox.object, later, prospect);
    put_object_piece(outbox);
    true
}

/// Puts what ends the discards, and the object.
fn put_list_end(outbox: &mut Outbox)
    requires { spec.HasRoomFor 2 outbox.old }
    ensures bytes { outbox.new.bytes.items ≡ outbox.old.bytes.items ++ codes "]}" }
    ensures room { length outbox.new.bytes.items ≡ length outbox.old.bytes.items + 2 }
{
    outbox.object.clear();
    outbox.object.push_str("]}");
    put_object_piece(outbox);
}

/// Puts the members of calls and a kong.
pub(crate) fn put_calls_members(
    shanten: i8,
    tile: Kind,
    calls: &[Option<Call>; 4],
    kong: &Option<ShapeAnswer>,
    outbox: &mut Outbox,
)
    requires { spec.HasRoomFor MOST_CALLS_MEMBERS outbox.old }
    ensures bytes { outbox.new.bytes.items ≡ outbox.old.bytes.items
        ++ objects.finding_members (found.Calls shanten tile calls.now kong.now) }
    ensures room { length outbox.new.bytes.items
        ≤ length outbox.old.bytes.items + MOST_CALLS_MEMBERS }
{
    put_calls_front(shanten, outbox);
    put_each(calls, outbox);
    put_kong_member(tile, kong, outbox);
}

/// Puts what stands before the calls.
fn put_calls_front(shanten: i8, outbox: &mut Outbox)
    requires { spec.HasRoomFor MOST_CALLS_FRONT outbox.old }
    ensures bytes { outbox.new.bytes.items ≡ outbox.old.bytes.items
        ++ (codes "\"answer\":\"calls\",\"shanten\":" ++ signed_decimal shanten ++ codes ",\"calls\":[") }
    ensures room { length outbox.new.bytes.items
        ≤ length outbox.old.bytes.items + MOST_CALLS_FRONT }
{
    outbox.object.clear();
    push_calls_front(&mut outbox.object, shanten);
    outbox.object.push_str(",\"calls\":[");
    put_object_piece(outbox);
}

/// Puts the calls, with commas between them.
fn put_each(calls: &[Option<Call>], outbox: &mut Outbox)
    requires { spec.HasRoomFor (length calls.now * MOST_CALL) outbox.old }
    ensures bytes { outbox.new.bytes.items
        ≡ outbox.old.bytes.items ++ spec.listed_there objects.call_json calls.now }
    ensures room { length outbox.new.bytes.items
        ≤ length outbox.old.bytes.items + length calls.now * MOST_CALL }
{
    let mut later = false;
    for call in calls {
        later = put_call(later, call, outbox);
    }
}

/// Puts a call, where there is one, behind a comma where one stands before it: whether one stands there now.
fn put_call(later: bool, call: &Option<Call>, outbox: &mut Outbox) -> bool
    requires { spec.HasRoomFor MOST_CALL outbox.old }
    ensures bytes { outbox.new.bytes.items
        ≡ outbox.old.bytes.items ++ spec.listed_next objects.call_json later call.now }
    ensures later { result ≡ later || spec.something_there call.now }
    ensures room { length outbox.new.bytes.items ≤ length outbox.old.bytes.items + MOST_CALL }
{
    let Some(call) = call else {
        return later;
    };
    outbox.object.clear();
    push_call(&mut outbox.object, later, call);
    put_object_piece(outbox);
    true
}

/// Puts the kong, and what ends the object.
fn put_kong_member(tile: Kind, kong: &Option<ShapeAnswer>, outbox: &mut Outbox)
    requires { spec.HasRoomFor MOST_KONG_MEMBER outbox.old }
    ensures bytes { outbox.new.bytes.items ≡ outbox.old.bytes.items
        ++ (codes "],\"kong\":" ++ objects.kong_json tile kong.now ++ codes "}") }
    ensures room { length outbox.new.bytes.items
        ≤ length outbox.old.bytes.items + MOST_KONG_MEMBER }
{
    outbox.object.clear();
    outbox.object.push_str("],\"kong\":");
    push_kong(&mut outbox.object, tile, kong);
    outbox.object.push_str("}");
    put_object_piece(outbox);
}
