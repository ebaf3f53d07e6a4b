//! Furiten and safe tiles in words, in pieces: lines below the answer, each behind a line feed and two spaces.
ghost use Rattle.std.specs.Prelude.{◌≡◌, ◌+◌, ◌*◌, ◌≤◌, ◌++◌, length};
ghost use Rattle.std.specs.List.{flat_map};
ghost use Rattle.arrayvec.specs.ArrayString.{array_string_len};
ghost use Rattle.riichi_safe.specs.Safe.{safe_kinds};
ghost use Rattle.riichi_study.specs.SafeReasons as spec;

use crate::safe_text::{MOST_KINDS, is_risk, push_each_kind, push_neighbours};
use riichi_safe::{SafeRecord, TwoSided, WaitState, two_sided};
use riichi_text::{ANSWER_ROOM, AnswerText, push_kind};
use riichi_tiles::{Kind, KindSet};

/// The bytes of the line of the kinds that can't be won on.
pub const MOST_PASSED_REASON: usize = "\n  that player can't win on:".len() + MOST_KINDS;

const MOST_STATE_REASON: usize = ", but nobody has both: all four of one are seen (wall)".len();

const MOST_HOLDER: usize = "\n  1m: who waits with 23p".len();

const MOST_OTHER: usize = " waits for 1m too".len();

const MOST_WAIT_REASON: usize = MOST_HOLDER + MOST_OTHER + MOST_STATE_REASON;

/// The bytes of the lines of a kind with the two-sided waits on it.
pub const MOST_RISK_REASON: usize = 2 * MOST_WAIT_REASON;

/// The bytes of the line of furiten.
pub const MOST_FURITEN_REASON: usize =
    "\n  furiten, no win by ron: the hand has thrown what it waits for:".len() + MOST_KINDS;

/// Writes the line of the kinds that can't be won on, where there are any.
pub fn push_passed_reason(text: &mut AnswerText, safe: KindSet)
    requires { array_string_len text.old + MOST_PASSED_REASON ≤ ANSWER_ROOM }
    ensures bytes { text.new.bytes ≡ text.old.bytes ++ spec.passed_reason safe }
    ensures len { array_string_len text.new ≤ array_string_len text.old + MOST_PASSED_REASON }
{
    if !safe.is_empty() {
        text.push_str("\n  that player can't win on:");
        push_each_kind(text, safe);
    }
}

/// What is known of a wait, in words.
fn state_reason(state: WaitState) -> &'static str
    ensures words { result.now ≡ spec.state_reason state }
    ensures short { length result.now ≤ MOST_STATE_REASON }
{
    match state {
        WaitState::Open => " (open)",
        WaitState::Suji => ", and wins on neither (suji)",
        WaitState::Wall => ", but nobody has both: all four of one are seen (wall)",
    }
}

/// Writes who waits for a kind: by two neighbours, of which the lower is this.
fn push_holder(text: &mut AnswerText, kind: Kind, low: Kind)
    requires { array_string_len text.old + MOST_HOLDER ≤ ANSWER_ROOM }
    ensures bytes { text.new.bytes ≡ text.old.bytes ++ spec.holder_words kind low }
    ensures len { array_string_len text.new ≤ array_string_len text.old + MOST_HOLDER }
{
    text.push_str("\n  ");
    push_kind(text, kind);
    text.push_str(": who waits with ");
    push_neighbours(text, low);
}

/// Writes the other kind that they wait for.
fn push_other_kind(text: &mut AnswerText, other: Kind)
    requires { array_string_len text.old + MOST_OTHER ≤ ANSWER_ROOM }
    ensures bytes { text.new.bytes ≡ text.old.bytes ++ spec.other_kind_words other }
    ensures len { array_string_len text.new ≤ array_string_len text.old + MOST_OTHER }
{
    text.push_str(" waits for ");
    push_kind(text, other);
    text.push_str(" too");
}

/// Writes the line of a two-sided wait on a kind, where there is one.
fn push_wait_reason(text: &mut AnswerText, kind: Kind, wait: &Option<TwoSided>)
    requires { array_string_len text.old + MOST_WAIT_REASON ≤ ANSWER_ROOM }
    ensures bytes { text.new.bytes ≡ text.old.bytes ++ spec.wait_reason kind wait.now }
    ensures len { array_string_len text.new ≤ array_string_len text.old + MOST_WAIT_REASON }
{
    if let Some(wait) = wait {
        push_holder(text, kind, wait.low);
        push_other_kind(text, wait.other);
        text.push_str(state_reason(wait.state));
    }
}

/// Writes the lines of some two-sided waits on a kind.
fn push_wait_reasons(text: &mut AnswerText, kind: Kind, waits: &[Option<TwoSided>])
    requires { array_string_len text.old + length waits.now * MOST_WAIT_REASON ≤ ANSWER_ROOM }
    ensures bytes { text.new.bytes
        ≡ text.old.bytes ++ flat_map (spec.wait_reason kind) waits.now }
    ensures len { array_string_len text.new
        ≤ array_string_len text.old + length waits.now * MOST_WAIT_REASON }
{
    for wait in waits {
        push_wait_reason(text, kind, wait);
    }
}

/// Writes the lines of the two-sided waits on a kind, where the hand has it and it isn't among those that can't be won on.
#[tactic(auto, unfolding(crate::specs::SafeReasons::risk_reason))]
pub fn push_risk_reason(text: &mut AnswerText, asked: &SafeRecord, safe: KindSet, kind: Kind)
    requires safe { safe ≡ safe_kinds asked.now }
    requires room { array_string_len text.old + MOST_RISK_REASON ≤ ANSWER_ROOM }
    ensures bytes { text.new.bytes ≡ text.old.bytes ++ spec.risk_reason asked.now kind }
    ensures len { array_string_len text.new ≤ array_string_len text.old + MOST_RISK_REASON }
{
    if is_risk(asked, safe, kind) {
        push_wait_reasons(text, kind, &two_sided(asked, kind));
    }
}

/// Writes the line of furiten, where the hand is ready.
pub fn push_furiten_reason(text: &mut AnswerText, kinds: Option<KindSet>)
    requires { array_string_len text.old + MOST_FURITEN_REASON ≤ ANSWER_ROOM }
    ensures bytes { text.new.bytes ≡ text.old.bytes ++ spec.furiten_reason kinds }
    ensures len { array_string_len text.new ≤ array_string_len text.old + MOST_FURITEN_REASON }
{
    if let Some(kinds) = kinds {
        push_thrown(text, kinds);
    }
}

/// Writes which of the waits the hand has thrown.
fn push_thrown(text: &mut AnswerText, kinds: KindSet)
    requires { array_string_len text.old + MOST_FURITEN_REASON ≤ ANSWER_ROOM }
    ensures bytes { text.new.bytes ≡ text.old.bytes ++ spec.thrown_reason kinds }
    ensures len { array_string_len text.new ≤ array_string_len text.old + MOST_FURITEN_REASON }
{
    if kinds.is_empty() {
        text.push_str("\n  not furiten: the hand has thrown nothing that it waits for");
    } else {
        text.push_str("\n  furiten, no win by ron: the hand has thrown what it waits for:");
        push_each_kind(text, kinds);
    }
}
