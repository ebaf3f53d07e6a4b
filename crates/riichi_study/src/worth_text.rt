//! The texts of what a hand is worth, in pieces.
ghost use Rattle.std.specs.Prelude.{◌≡◌, ◌+◌, ◌≤◌, ◌++◌};
ghost use Rattle.std.specs.List.{list_any};
ghost use Rattle.arrayvec.specs.ArrayString.{array_string_len};
ghost use Rattle.riichi_study.specs.WorthTexts as spec;

use riichi_chances_text::{MOST_POINTS, MOST_POINTS_DECIMAL, push_points, push_points_decimal};
use riichi_text::{ANSWER_ROOM, AnswerText, push_kind};
use riichi_worth::{DiscardWorth, Worth};

/// The bytes of the longest worth.
pub const MOST_WORTH: usize = " worth ".len() + MOST_POINTS;

/// The bytes of the longest worth after a discard.
pub const MOST_WORTH_AFTER: usize = " discard 1m".len() + MOST_WORTH;

const MOST_WORTH_WORDS: usize = "worth ".len()
    + MOST_POINTS_DECIMAL
    + " points by these draws, on the average".len();

/// The bytes of the longest line in words.
pub const MOST_WORTH_REASON: usize = "\n  after 1m: ".len() + MOST_WORTH_WORDS + ", the most".len();

/// Writes what thirteen tiles are worth.
pub fn push_worth(text: &mut AnswerText, worth: &Worth)
    requires rest { spec.IsRest worth.now.rest }
    requires room { array_string_len text.old + MOST_WORTH ≤ ANSWER_ROOM }
    ensures bytes { text.new.bytes ≡ text.old.bytes ++ spec.worth_text worth.now }
    ensures len { array_string_len text.new ≤ array_string_len text.old + MOST_WORTH }
{
    text.push_str(" worth ");
    push_points(text, worth.points, worth.rest);
}

/// Writes what they are worth after a discard.
pub fn push_worth_after(text: &mut AnswerText, one: &DiscardWorth)
    requires rest { spec.IsRest one.now.worth.rest }
    requires room { array_string_len text.old + MOST_WORTH_AFTER ≤ ANSWER_ROOM }
    ensures bytes { text.new.bytes ≡ text.old.bytes ++ spec.worth_after_text one.now }
    ensures len { array_string_len text.new ≤ array_string_len text.old + MOST_WORTH_AFTER }
{
    text.push_str(" discard ");
    push_kind(text, one.kind);
    push_worth(text, &one.worth);
}

/// Writes what it is worth in words.
fn push_worth_words(text: &mut AnswerText, worth: &Worth)
    requires rest { spec.IsRest worth.now.rest }
    requires room { array_string_len text.old + MOST_WORTH_WORDS ≤ ANSWER_ROOM }
    ensures bytes { text.new.bytes ≡ text.old.bytes ++ spec.worth_words worth.now }
    ensures len { array_string_len text.new ≤ array_string_len text.old + MOST_WORTH_WORDS }
{
    text.push_str("worth ");
    push_points_decimal(text, worth.points, worth.rest);
    text.push_str(" points by these draws, on the average");
}

/// Writes the line of thirteen tiles in words.
pub fn push_hand_worth_reason(text: &mut AnswerText, worth: &Worth)
    requires rest { spec.IsRest worth.now.rest }
    requires room { array_string_len text.old + MOST_WORTH_REASON ≤ ANSWER_ROOM }
    ensures bytes { text.new.bytes ≡ text.old.bytes ++ spec.hand_worth_reason worth.now }
    ensures len { array_string_len text.new ≤ array_string_len text.old + MOST_WORTH_REASON }
{
    text.push_str("\n  ");
    push_worth_words(text, worth);
}

/// Writes the line of a discard in words: also whether no other is worth more.
#[tactic(auto, unfolding(crate::specs::WorthTexts::worth_reason))]
pub fn push_worth_reason(text: &mut AnswerText, others: &[DiscardWorth], one: &DiscardWorth)
    requires rest { spec.IsRest one.now.worth.rest }
    requires room { array_string_len text.old + MOST_WORTH_REASON ≤ ANSWER_ROOM }
    ensures bytes { text.new.bytes ≡ text.old.bytes ++ spec.worth_reason others.now one.now }
    ensures len { array_string_len text.new ≤ array_string_len text.old + MOST_WORTH_REASON }
{
    text.push_str("\n  after ");
    push_kind(text, one.kind);
    text.push_str(": ");
    push_worth_words(text, &one.worth);
    push_if_most(text, &one.worth, others);
}

/// Whether another discard is worth more. Both are of as many draws.
fn is_exceeded(worth: &Worth, other: &DiscardWorth) -> bool
    ensures { result ≡ spec.is_exceeded worth.now other.now }
{
    let more = &other.worth;
    worth.points < more.points || (worth.points == more.points && worth.rest.part < more.rest.part)
}

/// Whether some other discard is worth more.
fn is_exceeded_by_any(worth: &Worth, others: &[DiscardWorth]) -> bool
    ensures { result ≡ list_any (spec.is_exceeded worth.now) others.now }
{
    others.iter().any(|other| is_exceeded(worth, other))
}

/// Writes that no other discard is worth more, where it is so.
fn push_if_most(text: &mut AnswerText, worth: &Worth, others: &[DiscardWorth])
    requires { array_string_len text.old + 10 ≤ ANSWER_ROOM }
    ensures bytes { text.new.bytes ≡ text.old.bytes ++ spec.most_words worth.now others.now }
    ensures len { array_string_len text.new ≤ array_string_len text.old + 10 }
{
    if !is_exceeded_by_any(worth, others) {
        text.push_str(", the most");
    }
}
