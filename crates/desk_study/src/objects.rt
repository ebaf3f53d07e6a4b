//! The pieces of an object of JSON.
ghost use Rattle.std.specs.Prelude.{◌≡◌, ◌+◌, ◌*◌, ◌≤◌, ◌++◌, codes, map};
ghost use Rattle.std.specs.Fmt.{signed_decimal};
ghost use Rattle.arrayvec.specs.ArrayString.{array_string_len};
ghost use Rattle.desk_json.specs.Parts.{comma_if, listed};
ghost use Rattle.desk_study.specs.Objects as spec;

use desk_json::{JSON_ROOM, JsonText, MOST_ACCEPTED, push_accepted};
use riichi_deeper::{Call, Outlook};
use riichi_shape::{Accepts, Discard, DiscardList, LiveList, ShapeAnswer};
use riichi_study::{Order, Prospect};
use riichi_text::{MOST_I8, MOST_MELD, MOST_U8, MOST_U32, push_kind, push_meld, push_number};
use riichi_tiles::{Kind, Meld};

const MOST_U16: usize = "65535".len();

const MOST_FIGURES: usize = "\"second\":".len()
    + MOST_U16
    + ",\"good\":".len()
    + MOST_U8
    + ",".len();

/// The bytes of the longest list of what is accepted, with its figures.
pub(crate) const MOST_HAND: usize = MOST_FIGURES + MOST_ACCEPTED;

/// The bytes of the longest discard of fourteen tiles.
pub(crate) const MOST_PROSPECT: usize = ",{\"discard\":\"1m\",".len() + MOST_HAND;

/// The bytes of the shanten of an answer, with what stands before it.
pub(crate) const MOST_SHANTEN: usize = "\"answer\":\"shape\",\"shanten\":".len() + MOST_I8;

/// The bytes of what stands before the discards.
pub(crate) const MOST_ORDER: usize = ",\"order\":\"second\",\"discards\":[".len();

const MOST_CHOICE: usize = ",{\"discard\":\"1m\",\"live\":".len() + MOST_U32 + "}".len();

/// The bytes of the longest call.
pub(crate) const MOST_CALL: usize = ",{\"meld\":\"".len()
    + MOST_MELD
    + "\",\"discards\":[".len()
    + 14 * MOST_CHOICE
    + "]}".len();

/// The bytes of the longest kong.
pub(crate) const MOST_KONG: usize = "{\"meld\":\"".len()
    + MOST_MELD
    + "\",\"shanten\":".len()
    + MOST_I8
    + ",".len()
    + MOST_ACCEPTED;

/// Writes a comma, where something stands before.
pub(crate) fn push_comma_if(text: &mut JsonText, later: bool)
    requires { array_string_len text.old + 1 ≤ JSON_ROOM }
    ensures bytes { text.new.bytes ≡ text.old.bytes ++ comma_if later }
    ensures len { array_string_len text.new ≤ array_string_len text.old + 1 }
{
    if later {
        text.push_str(",");
    }
}

/// Writes what stands beyond the next step, where the hand isn't ready.
fn push_figures(text: &mut JsonText, outlook: &Option<Outlook>)
    requires { array_string_len text.old + MOST_FIGURES ≤ JSON_ROOM }
    ensures bytes { text.new.bytes ≡ text.old.bytes ++ spec.figures_json outlook.now }
    ensures len { array_string_len text.new ≤ array_string_len text.old + MOST_FIGURES }
{
    if let Some(outlook) = outlook {
        text.push_str("\"second\":");
        push_number(text, outlook.second);
        text.push_str(",\"good\":");
        push_number(text, outlook.good);
        text.push_str(",");
    }
}

/// Writes what thirteen tiles accept, behind the figures.
pub(crate) fn push_hand(text: &mut JsonText, accepted: &LiveList, outlook: &Option<Outlook>)
    requires { array_string_len text.old + MOST_HAND ≤ JSON_ROOM }
    ensures bytes { text.new.bytes ≡ text.old.bytes ++ spec.hand_json accepted.now outlook.now }
    ensures len { array_string_len text.new ≤ array_string_len text.old + MOST_HAND }
{
    push_figures(text, outlook);
    push_accepted(text, accepted);
}

/// Writes a discard of fourteen tiles, behind a comma where it is not the first.
pub(crate) fn push_prospect(text: &mut JsonText, later: bool, prospect: &Prospect)
    requires { array_string_len text.old + MOST_PROSPECT ≤ JSON_ROOM }
    ensures bytes { text.new.bytes
        ≡ text.old.bytes ++ (comma_if later ++ spec.prospect_json prospect.now) }
    ensures len { array_string_len text.new ≤ array_string_len text.old + MOST_PROSPECT }
{
    push_comma_if(text, later);
    text.push_str("{\"discard\":\"");
    push_kind(text, prospect.discard.kind);
    text.push_str("\",");
    push_hand(text, &prospect.discard.accepted, &prospect.outlook);
}

/// Writes the shanten of a shape, behind what an answer is.
pub(crate) fn push_shape_front(text: &mut JsonText, shanten: i8)
    requires { array_string_len text.old + MOST_SHANTEN ≤ JSON_ROOM }
    ensures bytes { text.new.bytes
        ≡ text.old.bytes ++ (codes "\"answer\":\"shape\",\"shanten\":" ++ signed_decimal shanten) }
    ensures len { array_string_len text.new ≤ array_string_len text.old + MOST_SHANTEN }
{
    text.push_str("\"answer\":\"shape\",\"shanten\":");
    push_number(text, shanten);
}

/// Writes the same of calls.
pub(crate) fn push_calls_front(text: &mut JsonText, shanten: i8)
    requires { array_string_len text.old + MOST_SHANTEN ≤ JSON_ROOM }
    ensures bytes { text.new.bytes
        ≡ text.old.bytes ++ (codes "\"answer\":\"calls\",\"shanten\":" ++ signed_decimal shanten) }
    ensures len { array_string_len text.new ≤ array_string_len text.old + MOST_SHANTEN }
{
    text.push_str("\"answer\":\"calls\",\"shanten\":");
    push_number(text, shanten);
}

/// Writes the order, and what stands before the discards.
pub(crate) fn push_order(text: &mut JsonText, order: Order)
    requires { array_string_len text.old + MOST_ORDER ≤ JSON_ROOM }
    ensures bytes { text.new.bytes ≡ text.old.bytes ++ spec.order_json order }
    ensures len { array_string_len text.new ≤ array_string_len text.old + MOST_ORDER }
{
    text.push_str(",\"order\":\"");
    text.push_str(order.word());
    text.push_str("\",\"discards\":[");
}

/// Writes a discard with the live copies that it leaves, behind a comma where it is not the first.
fn push_choice(text: &mut JsonText, later: bool, discard: &Discard)
    requires { array_string_len text.old + MOST_CHOICE ≤ JSON_ROOM }
    ensures bytes { text.new.bytes
        ≡ text.old.bytes ++ comma_if later ++ spec.choice_json discard.now }
    ensures len { array_string_len text.new ≤ array_string_len text.old + MOST_CHOICE }
{
    push_comma_if(text, later);
    text.push_str("{\"discard\":\"");
    push_kind(text, discard.kind);
    text.push_str("\",\"live\":");
    push_number(text, discard.accepted.live());
    text.push_str("}");
}

/// Writes the discards of a call.
fn push_choices(text: &mut JsonText, discards: &DiscardList)
    requires { array_string_len text.old + 14 * MOST_CHOICE ≤ JSON_ROOM }
    ensures bytes { text.new.bytes
        ≡ text.old.bytes ++ listed (map spec.choice_json discards.now) }
    ensures len { array_string_len text.new ≤ array_string_len text.old + 14 * MOST_CHOICE }
{
    let mut later = false;
    for place in 0..discards.len() {
        let Some(discard) = discards.get(place) else {
            unreachable!()
        };
        push_choice(text, later, &discard);
        later = true;
    }
}

/// Writes a call with its discards, behind a comma where it is not the first.
pub(crate) fn push_call(text: &mut JsonText, later: bool, call: &Call)
    requires { array_string_len text.old + MOST_CALL ≤ JSON_ROOM }
    ensures bytes { text.new.bytes
        ≡ text.old.bytes ++ (comma_if later ++ spec.call_json call.now) }
    ensures len { array_string_len text.new ≤ array_string_len text.old + MOST_CALL }
{
    push_comma_if(text, later);
    text.push_str("{\"meld\":\"");
    push_meld(text, &call.meld);
    text.push_str("\",\"discards\":[");
    push_choices(text, &call.discards);
    text.push_str("]}");
}

/// Writes what thirteen tiles accept, and the brace that ends their object.
fn push_accepted_if(text: &mut JsonText, accepts: &Accepts)
    requires { array_string_len text.old + 1 + MOST_ACCEPTED ≤ JSON_ROOM }
    ensures bytes { text.new.bytes ≡ text.old.bytes ++ spec.accepted_json_if accepts.now }
    ensures len { array_string_len text.new ≤ array_string_len text.old + 1 + MOST_ACCEPTED }
{
    match accepts {
        Accepts::Thirteen(accepted) => {
            text.push_str(",");
            push_accepted(text, accepted);
        }
        Accepts::Fourteen(_) => text.push_str("}"),
    }
}

/// Writes what a kong leads to, or that there is none.
pub(crate) fn push_kong(text: &mut JsonText, tile: Kind, kong: &Option<ShapeAnswer>)
    requires { array_string_len text.old + MOST_KONG ≤ JSON_ROOM }
    ensures bytes { text.new.bytes ≡ text.old.bytes ++ spec.kong_json tile kong.now }
    ensures len { array_string_len text.new ≤ array_string_len text.old + MOST_KONG }
{
    match kong {
        None => text.push_str("null"),
        Some(answer) => {
            text.push_str("{\"meld\":\"");
            push_meld(text, &Meld::Kan(tile));
            text.push_str("\",\"shanten\":");
            push_number(text, answer.shanten);
            push_accepted_if(text, &answer.accepts);
        }
    }
}
