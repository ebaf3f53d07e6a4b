//! Furiten and safe tiles as the members of an object of JSON.
ghost use Rattle.std.specs.Prelude.{◌≡◌, ◌+◌, ◌*◌, ◌≤◌, ◌++◌};
ghost use Rattle.arrayvec.specs.ArrayString.{array_string_len};
ghost use Rattle.riichi_safe.specs.Safe.{safe_kinds};
ghost use Rattle.desk_json.specs.Parts.{comma_if, quoted_kind};
ghost use Rattle.desk_study.specs.SafeObjects as spec;

use crate::objects::push_comma_if;
use desk_json::{JSON_ROOM, JsonText};
use riichi_safe::{SafeRecord, TwoSided, cannot_win, furiten, two_sided};
use riichi_study::{has_two_sided, is_risk, state_word};
use riichi_text::push_kind;
use riichi_tiles::{Kind, KindSet};

pub(crate) const MOST_QUOTED: usize = ",\"1m\"".len();

const MOST_SET: usize = 34 * MOST_QUOTED;

const MOST_STATE: usize = "\"suji\"".len();

const MOST_SIDES: usize = ",\"below\":".len() + MOST_STATE + ",\"above\":".len() + MOST_STATE;

const MOST_KIND: usize = ",{\"kind\":\"4p\"".len();

const MOST_WAIT: usize = MOST_KIND + MOST_SIDES + "}".len();

const MOST_WAITS: usize = 34 * MOST_WAIT;

const MOST_FURITEN: usize = "null".len() + "[]".len() + MOST_SET;

const MOST_FRONT: usize = "\"answer\":\"safe\",\"safe\":[".len() + MOST_SET + "],\"waits\":[".len();

const MOST_BEHIND: usize = "],\"furiten\":".len() + MOST_FURITEN + "}".len();

/// The bytes of the longest members.
pub(crate) const MOST_MEMBERS: usize = MOST_FRONT + MOST_WAITS + MOST_BEHIND;

/// Writes a kind in quotes, behind a comma where it is not the first.
pub(crate) fn push_quoted(text: &mut JsonText, later: bool, kind: Kind)
    requires { array_string_len text.old + MOST_QUOTED ≤ JSON_ROOM }
    ensures bytes { text.new.bytes
        ≡ (text.old.bytes ++ comma_if later) ++ quoted_kind kind }
    ensures len { array_string_len text.new ≤ array_string_len text.old + MOST_QUOTED }
{
    push_comma_if(text, later);
    text.push_str("\"");
    push_kind(text, kind);
    text.push_str("\"");
}

/// Writes the kinds of a set, with commas between them.
fn push_set(text: &mut JsonText, kinds: KindSet)
    requires { array_string_len text.old + MOST_SET ≤ JSON_ROOM }
    ensures bytes { text.new.bytes ≡ text.old.bytes ++ spec.set_json kinds }
    ensures len { array_string_len text.new ≤ array_string_len text.old + MOST_SET }
{
    let mut later = false;
    for number in 0..34 {
        let kind = Kind::at(number);
        if kinds.contains(kind) {
            push_quoted(text, later, kind);
            later = true;
        }
    }
}

/// Writes what is known of a two-sided wait, `null` where there is none.
fn push_state(text: &mut JsonText, wait: &Option<TwoSided>)
    requires { array_string_len text.old + MOST_STATE ≤ JSON_ROOM }
    ensures bytes { text.new.bytes ≡ text.old.bytes ++ spec.state_json wait.now }
    ensures len { array_string_len text.new ≤ array_string_len text.old + MOST_STATE }
{
    match wait {
        None => text.push_str("null"),
        Some(wait) => {
            text.push_str("\"");
            text.push_str(state_word(wait.state));
            text.push_str("\"");
        }
    }
}

/// Writes what is known of the wait by the two kinds below and of that by the two above.
#[tactic(auto, using(riichi_text::proofs::Pieces::pushed_four))]
fn push_sides(text: &mut JsonText, below: &Option<TwoSided>, above: &Option<TwoSided>)
    requires { array_string_len text.old + MOST_SIDES ≤ JSON_ROOM }
    ensures bytes { text.new.bytes ≡ text.old.bytes ++ spec.sides_json below.now above.now }
    ensures len { array_string_len text.new ≤ array_string_len text.old + MOST_SIDES }
{
    text.push_str(",\"below\":");
    push_state(text, below);
    text.push_str(",\"above\":");
    push_state(text, above);
}

/// Writes a kind on which two-sided waits may stand, behind a comma where it is not the first.
fn push_waited(text: &mut JsonText, later: bool, kind: Kind)
    requires { array_string_len text.old + MOST_KIND ≤ JSON_ROOM }
    ensures bytes { text.new.bytes
        ≡ (text.old.bytes ++ comma_if later) ++ spec.kind_json kind }
    ensures len { array_string_len text.new ≤ array_string_len text.old + MOST_KIND }
{
    push_comma_if(text, later);
    text.push_str("{\"kind\":\"");
    push_kind(text, kind);
    text.push_str("\"");
}

/// Writes the two-sided waits on a kind, behind a comma where it is not the first.
fn push_waits(text: &mut JsonText, later: bool, asked: &SafeRecord, kind: Kind)
    requires { array_string_len text.old + MOST_WAIT ≤ JSON_ROOM }
    ensures bytes { text.new.bytes
        ≡ (text.old.bytes ++ comma_if later) ++ spec.waited_json asked.now kind }
    ensures len { array_string_len text.new ≤ array_string_len text.old + MOST_WAIT }
{
    let [below, above] = two_sided(asked, kind);
    push_waited(text, later, kind);
    push_sides(text, &below, &above);
    text.push_str("}");
}

/// Whether the hand has a kind that isn't safe and on which a two-sided wait may stand.
fn has_waits(asked: &SafeRecord, safe: KindSet, kind: Kind) -> bool
    requires { safe ≡ safe_kinds asked.now }
    ensures { result ≡ spec.has_waits asked.now kind }
{
    is_risk(asked, safe, kind) && has_two_sided(&two_sided(asked, kind))
}

/// Writes the two-sided waits on all kinds.
fn push_every_wait(text: &mut JsonText, asked: &SafeRecord, safe: KindSet)
    requires safe { safe ≡ safe_kinds asked.now }
    requires room { array_string_len text.old + MOST_WAITS ≤ JSON_ROOM }
    ensures bytes { text.new.bytes ≡ text.old.bytes ++ spec.every_wait_json asked.now }
    ensures len { array_string_len text.new ≤ array_string_len text.old + MOST_WAITS }
{
    let mut later = false;
    for number in 0..34 {
        let kind = Kind::at(number);
        if has_waits(asked, safe, kind) {
            push_waits(text, later, asked, kind);
            later = true;
        }
    }
}

/// Writes the kinds for which a ready hand is furiten, `null` for one that isn't ready.
fn push_furiten(text: &mut JsonText, kinds: Option<KindSet>)
    requires { array_string_len text.old + MOST_FURITEN ≤ JSON_ROOM }
    ensures bytes { text.new.bytes ≡ text.old.bytes ++ spec.furiten_json kinds }
    ensures len { array_string_len text.new ≤ array_string_len text.old + MOST_FURITEN }
{
    match kinds {
        None => text.push_str("null"),
        Some(kinds) => {
            text.push_str("[");
            push_set(text, kinds);
            text.push_str("]");
        }
    }
}

/// Writes what stands before the two-sided waits.
fn push_front(text: &mut JsonText, safe: KindSet)
    requires { array_string_len text.old + MOST_FRONT ≤ JSON_ROOM }
    ensures bytes { text.new.bytes ≡ text.old.bytes ++ spec.front_json safe }
    ensures len { array_string_len text.new ≤ array_string_len text.old + MOST_FRONT }
{
    text.push_str("\"answer\":\"safe\",\"safe\":[");
    push_set(text, safe);
    text.push_str("],\"waits\":[");
}

/// Writes what stands behind them.
fn push_behind(text: &mut JsonText, kinds: Option<KindSet>)
    requires { array_string_len text.old + MOST_BEHIND ≤ JSON_ROOM }
    ensures bytes { text.new.bytes ≡ text.old.bytes ++ spec.behind_json kinds }
    ensures len { array_string_len text.new ≤ array_string_len text.old + MOST_BEHIND }
{
    text.push_str("],\"furiten\":");
    push_furiten(text, kinds);
    text.push_str("}");
}

/// Writes the members, with the brace that ends their object.
pub(crate) fn push_members(text: &mut JsonText, asked: &SafeRecord)
    requires { array_string_len text.old + MOST_MEMBERS ≤ JSON_ROOM }
    ensures bytes { text.new.bytes ≡ text.old.bytes ++ spec.safe_members asked.now }
    ensures len { array_string_len text.new ≤ array_string_len text.old + MOST_MEMBERS }
{
    let safe = cannot_win(asked);
    push_front(text, safe);
    push_every_wait(text, asked, safe);
    push_behind(text, furiten(asked));
}
