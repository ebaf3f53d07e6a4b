//! What is found, as lines in words.
ghost use Rattle.std.specs.Prelude.{◌≡◌, ◌+◌, ◌*◌, ◌≤◌, ◌++◌, length};
ghost use Rattle.std.specs.List.{flat_map};
ghost use Rattle.riichi_study.specs.Reasons as words;
ghost use Rattle.desk_study.specs.Answers as spec;

use crate::puts::put_piece;
use desk_lines::Outbox;
use riichi_deeper::{Call, Outlook};
use riichi_shape::ShapeAnswer;
use riichi_study::{
    MOST_CALL_REASON, MOST_KONG_REASON, MOST_NONE_REASON, MOST_REASON, Prospect, push_call_reason,
    push_hand_reason, push_kong_reason, push_none_reason, push_prospect_reason,
};
use riichi_tiles::Kind;

/// The bytes of the lines of calls and a kong.
pub(crate) const MOST_CALLS_REASONS: usize = MOST_NONE_REASON
    + 4 * MOST_CALL_REASON
    + MOST_KONG_REASON;

/// Puts the line of thirteen tiles with so many live copies of what they accept.
pub(crate) fn put_hand_reason(live: u32, outlook: &Option<Outlook>, outbox: &mut Outbox)
    requires { spec.HasRoomFor MOST_REASON outbox.old }
    ensures bytes { outbox.new.bytes.items
        ≡ outbox.old.bytes.items ++ words.hand_reason live outlook.now }
    ensures room { length outbox.new.bytes.items ≤ length outbox.old.bytes.items + MOST_REASON }
{
    outbox.text.clear();
    push_hand_reason(&mut outbox.text, live, outlook);
    put_piece(outbox);
}

/// Puts a line for each discard of fourteen tiles.
pub(crate) fn put_prospect_reasons(list: &[Option<Prospect>], outbox: &mut Outbox)
    requires { spec.HasRoomFor (length list.now * MOST_REASON) outbox.old }
    ensures bytes { outbox.new.bytes.items
        ≡ outbox.old.bytes.items ++ flat_map spec.kept_reason list.now }
    ensures room { length outbox.new.bytes.items
        ≤ length outbox.old.bytes.items + length list.now * MOST_REASON }
{
    for prospect in list {
        put_prospect_reason(prospect, outbox);
    }
}

/// Puts the line of a discard, where there is one.
fn put_prospect_reason(prospect: &Option<Prospect>, outbox: &mut Outbox)
    requires { spec.HasRoomFor MOST_REASON outbox.old }
    ensures bytes { outbox.new.bytes.items
        ≡ outbox.old.bytes.items ++ spec.kept_reason prospect.now }
    ensures room { length outbox.new.bytes.items ≤ length outbox.old.bytes.items + MOST_REASON }
{
    outbox.text.clear();
    if let Some(prospect) = prospect {
        push_prospect_reason(&mut outbox.text, prospect);
    }
    put_piece(outbox);
}

/// Puts a line for each call, or that there is none, and for a kong.
pub(crate) fn put_calls_reasons(
    tile: Kind,
    calls: &[Option<Call>; 4],
    kong: &Option<ShapeAnswer>,
    outbox: &mut Outbox,
)
    requires { spec.HasRoomFor MOST_CALLS_REASONS outbox.old }
    ensures bytes { outbox.new.bytes.items ≡ outbox.old.bytes.items
        ++ (words.none_reason calls.now ++ flat_map words.call_reason calls.now
        ++ words.kong_reason tile kong.now) }
    ensures room { length outbox.new.bytes.items
        ≤ length outbox.old.bytes.items + MOST_CALLS_REASONS }
{
    outbox.text.clear();
    push_none_reason(&mut outbox.text, calls);
    put_piece(outbox);
    put_each_reason(calls, outbox);
    put_kong_reason(tile, kong, outbox);
}

/// Puts the line of each call.
fn put_each_reason(calls: &[Option<Call>], outbox: &mut Outbox)
    requires { spec.HasRoomFor (length calls.now * MOST_CALL_REASON) outbox.old }
    ensures bytes { outbox.new.bytes.items
        ≡ outbox.old.bytes.items ++ flat_map words.call_reason calls.now }
    ensures room { length outbox.new.bytes.items
        ≤ length outbox.old.bytes.items + length calls.now * MOST_CALL_REASON }
{
    for call in calls {
        put_call_reason(call, outbox);
    }
}

/// Puts the line of a call, where there is one.
fn put_call_reason(call: &Option<Call>, outbox: &mut Outbox)
    requires { spec.HasRoomFor MOST_CALL_REASON outbox.old }
    ensures bytes { outbox.new.bytes.items
        ≡ outbox.old.bytes.items ++ words.call_reason call.now }
    ensures room { length outbox.new.bytes.items
        ≤ length outbox.old.bytes.items + MOST_CALL_REASON }
{
    outbox.text.clear();
    push_call_reason(&mut outbox.text, call);
    put_piece(outbox);
}

/// Puts the line of a kong, where there is one.
fn put_kong_reason(tile: Kind, kong: &Option<ShapeAnswer>, outbox: &mut Outbox)
    requires { spec.HasRoomFor MOST_KONG_REASON outbox.old }
    ensures bytes { outbox.new.bytes.items
        ≡ outbox.old.bytes.items ++ words.kong_reason tile kong.now }
    ensures room { length outbox.new.bytes.items
        ≤ length outbox.old.bytes.items + MOST_KONG_REASON }
{
    outbox.text.clear();
    push_kong_reason(&mut outbox.text, tile, kong);
    put_piece(outbox);
}
