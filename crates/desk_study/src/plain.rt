//! What is found, as a line.
ghost use Rattle.std.specs.Prelude.{◌≡◌, ◌+◌, ◌*◌, ◌≤◌, ◌++◌, codes, length};
ghost use Rattle.std.specs.List.{flat_map};
ghost use Rattle.riichi_study.specs.Texts as texts;
ghost use Rattle.riichi_study.specs.Findings as found;
ghost use Rattle.desk_study.specs.Answers as spec;

use crate::puts::put_piece;
use desk_lines::Outbox;
use riichi_deeper::{Call, Outlook};
use riichi_shape::{LiveList, ShapeAnswer};
use riichi_study::{
    MOST_CALLS, MOST_HAND, MOST_PROSPECT, MOST_SHANTEN, Prospect, push_call, push_calls, push_hand,
    push_kong, push_prospect, push_shanten,
};
use riichi_text::ANSWER_ROOM;
use riichi_tiles::Kind;

/// The bytes of a call: any text fits.
const MOST_CALL: usize = ANSWER_ROOM;

/// The bytes of the longest line of thirteen tiles.
const MOST_HAND_TEXT: usize = MOST_SHANTEN + MOST_HAND;

/// The bytes of the longest line of fourteen tiles.
const MOST_DISCARDS_TEXT: usize = MOST_SHANTEN + 14 * MOST_PROSPECT;

/// The bytes of the longest line of calls and a kong.
pub(crate) const MOST_CALLS_TEXT: usize = MOST_CALLS + 5 * MOST_CALL;

/// Puts the line of thirteen tiles.
pub(crate) fn put_hand_text(
    shanten: i8,
    accepted: &LiveList,
    outlook: &Option<Outlook>,
    outbox: &mut Outbox,
)
    requires { spec.HasRoomFor MOST_HAND_TEXT outbox.old }
    ensures bytes { outbox.new.bytes.items ≡ outbox.old.bytes.items
        ++ texts.finding_text (found.Hand shanten accepted.now outlook.now) }
    ensures room { length outbox.new.bytes.items
        ≤ length outbox.old.bytes.items + MOST_HAND_TEXT }
{
    outbox.text.clear();
    push_shanten(&mut outbox.text, shanten);
    push_hand(&mut outbox.text, accepted, outlook);
    put_piece(outbox);
}

/// Puts the line of fourteen tiles.
pub(crate) fn put_discards_text(shanten: i8, list: &[Option<Prospect>], outbox: &mut Outbox)
    requires few { length list.now ≤ 14 }
    requires room { spec.HasRoomFor MOST_DISCARDS_TEXT outbox.old }
    ensures bytes { outbox.new.bytes.items ≡ outbox.old.bytes.items
        ++ (texts.shanten_front shanten ++ flat_map spec.kept_text list.now) }
    ensures room { length outbox.new.bytes.items
        ≤ length outbox.old.bytes.items + MOST_DISCARDS_TEXT }
{
    outbox.text.clear();
    push_shanten(&mut outbox.text, shanten);
    put_piece(outbox);
    put_prospects(list, outbox);
}

/// Puts the discards of fourteen tiles.
fn put_prospects(list: &[Option<Prospect>], outbox: &mut Outbox)
    requires { spec.HasRoomFor (length list.now * MOST_PROSPECT) outbox.old }
    ensures bytes { outbox.new.bytes.items
        ≡ outbox.old.bytes.items ++ flat_map spec.kept_text list.now }
    ensures room { length outbox.new.bytes.items
        ≤ length outbox.old.bytes.items + length list.now * MOST_PROSPECT }
{
    for prospect in list {
        put_prospect(prospect, outbox);
    }
}

/// Puts a discard, where there is one.
fn put_prospect(prospect: &Option<Prospect>, outbox: &mut Outbox)
    requires { spec.HasRoomFor MOST_PROSPECT outbox.old }
    ensures bytes { outbox.new.bytes.items
        ≡ outbox.old.bytes.items ++ spec.kept_text prospect.now }
    ensures room { length outbox.new.bytes.items
        ≤ length outbox.old.bytes.items + MOST_PROSPECT }
{
    outbox.text.clear();
    if let Some(prospect) = prospect {
        push_prospect(&mut outbox.text, prospect);
    }
    put_piece(outbox);
}

/// Puts the line of calls and a kong.
pub(crate) fn put_calls_text(
    shanten: i8,
    tile: Kind,
    calls: &[Option<Call>; 4],
    kong: &Option<ShapeAnswer>,
    outbox: &mut Outbox,
)
    requires shanten { texts.IsShanten shanten }
    requires room { spec.HasRoomFor MOST_CALLS_TEXT outbox.old }
    ensures bytes { outbox.new.bytes.items ≡ outbox.old.bytes.items
        ++ texts.finding_text (found.Calls shanten tile calls.now kong.now) }
    ensures room { length outbox.new.bytes.items
        ≤ length outbox.old.bytes.items + MOST_CALLS_TEXT }
{
    outbox.text.clear();
    push_calls(&mut outbox.text, calls);
    put_piece(outbox);
    put_each(shanten, calls, outbox);
    put_kong(tile, kong, outbox);
}

/// Puts each call.
fn put_each(shanten: i8, calls: &[Option<Call>], outbox: &mut Outbox)
    requires shanten { texts.IsShanten shanten }
    requires room { spec.HasRoomFor (length calls.now * MOST_CALL) outbox.old }
    ensures bytes { outbox.new.bytes.items
        ≡ outbox.old.bytes.items ++ flat_map (texts.call_text shanten) calls.now }
    ensures room { length outbox.new.bytes.items
        ≤ length outbox.old.bytes.items + length calls.now * MOST_CALL }
{
    for call in calls {
        put_call(shanten, call, outbox);
    }
}

/// Puts a call, where there is one.
fn put_call(shanten: i8, call: &Option<Call>, outbox: &mut Outbox)
    requires shanten { texts.IsShanten shanten }
    requires room { spec.HasRoomFor MOST_CALL outbox.old }
    ensures bytes { outbox.new.bytes.items
        ≡ outbox.old.bytes.items ++ texts.call_text shanten call.now }
    ensures room { length outbox.new.bytes.items ≤ length outbox.old.bytes.items + MOST_CALL }
{
    outbox.text.clear();
    push_call(&mut outbox.text, shanten, call);
    put_piece(outbox);
}

/// Puts a kong, where there is one.
fn put_kong(tile: Kind, kong: &Option<ShapeAnswer>, outbox: &mut Outbox)
    requires { spec.HasRoomFor MOST_CALL outbox.old }
    ensures bytes { outbox.new.bytes.items
        ≡ outbox.old.bytes.items ++ texts.kong_text tile kong.now }
    ensures room { length outbox.new.bytes.items ≤ length outbox.old.bytes.items + MOST_CALL }
{
    outbox.text.clear();
    push_kong(&mut outbox.text, tile, kong);
    put_piece(outbox);
}
