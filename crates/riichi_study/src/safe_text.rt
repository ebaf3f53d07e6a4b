//! Furiten and safe tiles as text.
ghost use Rattle.std.specs.Prelude.{◌≡◌, ◌+◌, ◌*◌, ◌≤◌, ◌++◌, length};
ghost use Rattle.std.specs.List.{flat_map, list_any};
ghost use Rattle.arrayvec.specs.ArrayString.{array_string_len};
ghost use Rattle.riichi_tiles.specs.Melds.{every_kind};
ghost use Rattle.riichi_safe.specs.Safe.{safe_kinds};
ghost use Rattle.riichi_study.specs.SafeTexts as spec;

use arrayvec::ArrayString;
use riichi_safe::{SafeRecord, TwoSided, WaitState, cannot_win, furiten, two_sided};
use riichi_text::{ANSWER_ROOM, AnswerText, digit_of, letter_of, push_kind};
use riichi_tiles::{Kind, KindSet};

const MOST_KIND: usize = " 1m".len();

pub(crate) const MOST_KINDS: usize = " none".len() + 34 * MOST_KIND;

const MOST_STATE: usize = "open".len();

const MOST_WAIT: usize = " 23p:".len() + MOST_STATE;

const MOST_RISK: usize = " discard 1m".len() + 2 * MOST_WAIT;

const MOST_FURITEN: usize = " furiten".len() + MOST_KINDS;

/// The bytes of the longest answer.
pub const MOST_SAFE: usize = "safe".len() + MOST_KINDS + 34 * MOST_RISK + MOST_FURITEN;

/// Writes a kind behind a space, where a set has it.
fn push_within(text: &mut AnswerText, set: KindSet, kind: Kind)
    requires { array_string_len text.old + MOST_KIND ≤ ANSWER_ROOM }
    ensures bytes { text.new.bytes ≡ text.old.bytes ++ spec.kind_within set kind }
    ensures len { array_string_len text.new ≤ array_string_len text.old + MOST_KIND }
{
    if set.contains(kind) {
        text.push_str(" ");
        push_kind(text, kind);
    }
}

/// Writes the kinds of a set.
pub(crate) fn push_each_kind(text: &mut AnswerText, set: KindSet)
    requires { array_string_len text.old + MOST_KINDS ≤ ANSWER_ROOM }
    ensures bytes { text.new.bytes
        ≡ text.old.bytes ++ flat_map (spec.kind_within set) every_kind }
    ensures len { array_string_len text.new ≤ array_string_len text.old + MOST_KINDS }
{
    for number in 0..34 {
        push_within(text, set, Kind::at(number));
    }
}

/// Writes the kinds of a set, or that there is none.
fn push_set(text: &mut AnswerText, set: KindSet)
    requires { array_string_len text.old + MOST_KINDS ≤ ANSWER_ROOM }
    ensures bytes { text.new.bytes ≡ text.old.bytes ++ spec.kinds_or_none set }
    ensures len { array_string_len text.new ≤ array_string_len text.old + MOST_KINDS }
{
    if set.is_empty() {
        text.push_str(" none");
    } else {
        push_each_kind(text, set);
    }
}

/// The word of what is known of a wait.
pub fn state_word(state: WaitState) -> &'static str
    ensures word { result.now ≡ spec.state_word state }
    ensures short { length result.now ≤ MOST_STATE }
{
    match state {
        WaitState::Open => "open",
        WaitState::Suji => "suji",
        WaitState::Wall => "wall",
    }
}

/// Writes two neighbours, of which the lower is this.
pub fn push_neighbours<const ROOM: usize>(text: &mut ArrayString<ROOM>, low: Kind)
    requires { array_string_len text.old + 3 ≤ ROOM }
    ensures bytes { text.new.bytes ≡ text.old.bytes ++ spec.neighbours_text low }
    ensures len { array_string_len text.new ≡ array_string_len text.old + 3 }
{
    let digit = digit_of(low.index());
    text.push(digit as char);
    text.push((digit + 1) as char);
    text.push(letter_of(low.index()) as char);
}

/// Writes a two-sided wait, where there is one.
fn push_wait(text: &mut AnswerText, wait: &Option<TwoSided>)
    requires { array_string_len text.old + MOST_WAIT ≤ ANSWER_ROOM }
    ensures bytes { text.new.bytes ≡ text.old.bytes ++ spec.two_sided_text wait.now }
    ensures len { array_string_len text.new ≤ array_string_len text.old + MOST_WAIT }
{
    if let Some(wait) = wait {
        text.push_str(" ");
        push_neighbours(text, wait.low);
        text.push_str(":");
        text.push_str(state_word(wait.state));
    }
}

/// Writes each of some two-sided waits.
fn push_each_wait(text: &mut AnswerText, waits: &[Option<TwoSided>])
    requires { array_string_len text.old + length waits.now * MOST_WAIT ≤ ANSWER_ROOM }
    ensures bytes { text.new.bytes ≡ text.old.bytes ++ flat_map spec.two_sided_text waits.now }
    ensures len { array_string_len text.new
        ≤ array_string_len text.old + length waits.now * MOST_WAIT }
{
    for wait in waits {
        push_wait(text, wait);
    }
}

/// Whether there is a two-sided wait.
pub fn has_two_sided(waits: &[Option<TwoSided>]) -> bool
    ensures { result ≡ list_any spec.stands_there waits.now }
{
    waits.iter().any(|wait| wait.is_some())
}

/// Writes a kind with the two-sided waits on it, where there is one.
fn push_kind_risk(text: &mut AnswerText, kind: Kind, waits: &[Option<TwoSided>; 2])
    requires { array_string_len text.old + MOST_RISK ≤ ANSWER_ROOM }
    ensures bytes { text.new.bytes ≡ text.old.bytes ++ spec.kind_risk_text kind waits.now }
    ensures len { array_string_len text.new ≤ array_string_len text.old + MOST_RISK }
{
    if has_two_sided(waits) {
        text.push_str(" discard ");
        push_kind(text, kind);
        push_each_wait(text, waits);
    }
}

/// Whether the hand has a kind that isn't safe.
pub fn is_risk(asked: &SafeRecord, safe: KindSet, kind: Kind) -> bool
    requires { safe ≡ safe_kinds asked.now }
    ensures { result ≡ spec.is_risk asked.now kind }
{
    asked.hand().tiles().get(kind) > 0 && !safe.contains(kind)
}

/// Writes a kind with the two-sided waits on it, where the hand has it and it isn't safe.
#[tactic(auto, unfolding(crate::specs::SafeTexts::risk_text))]
fn push_risk(text: &mut AnswerText, asked: &SafeRecord, safe: KindSet, kind: Kind)
    requires safe { safe ≡ safe_kinds asked.now }
    requires room { array_string_len text.old + MOST_RISK ≤ ANSWER_ROOM }
    ensures bytes { text.new.bytes ≡ text.old.bytes ++ spec.risk_text asked.now kind }
    ensures len { array_string_len text.new ≤ array_string_len text.old + MOST_RISK }
{
    if is_risk(asked, safe, kind) {
        push_kind_risk(text, kind, &two_sided(asked, kind));
    }
}

/// Writes those of all kinds.
fn push_risks(text: &mut AnswerText, asked: &SafeRecord, safe: KindSet)
    requires safe { safe ≡ safe_kinds asked.now }
    requires room { array_string_len text.old + 34 * MOST_RISK ≤ ANSWER_ROOM }
    ensures bytes { text.new.bytes
        ≡ text.old.bytes ++ flat_map (spec.risk_text asked.now) every_kind }
    ensures len { array_string_len text.new ≤ array_string_len text.old + 34 * MOST_RISK }
{
    for number in 0..34 {
        push_risk(text, asked, safe, Kind::at(number));
    }
}

/// Writes for which kinds a ready hand is furiten.
fn push_furiten(text: &mut AnswerText, kinds: Option<KindSet>)
    requires { array_string_len text.old + MOST_FURITEN ≤ ANSWER_ROOM }
    ensures bytes { text.new.bytes ≡ text.old.bytes ++ spec.furiten_text kinds }
    ensures len { array_string_len text.new ≤ array_string_len text.old + MOST_FURITEN }
{
    if let Some(kinds) = kinds {
        text.push_str(" furiten");
        push_set(text, kinds);
    }
}

/// Writes the answer: the kinds that can't be won on, the two-sided waits on the other kinds of the hand, and whether it is furiten.
#[tactic(auto, using(riichi_text::proofs::Pieces::pushed_four))]
pub fn push_safe(text: &mut AnswerText, asked: &SafeRecord)
    requires { array_string_len text.old + MOST_SAFE ≤ ANSWER_ROOM }
    ensures bytes { text.new.bytes ≡ text.old.bytes ++ spec.safe_text asked.now }
    ensures len { array_string_len text.new ≤ array_string_len text.old + MOST_SAFE }
{
    let safe = cannot_win(asked);
    text.push_str("safe");
    push_set(text, safe);
    push_risks(text, asked, safe);
    push_furiten(text, furiten(asked));
}
