//! The texts of chances, in pieces.
ghost use Rattle.std.specs.Prelude.{◌≡◌, ◌+◌, ◌*◌, ◌≤◌, ◌++◌, length};
ghost use Rattle.std.specs.List.{flat_map, list_any};
ghost use Rattle.arrayvec.specs.ArrayString.{array_string_len};
ghost use Rattle.riichi_chances.specs.Odds.{ArePartsOfAll};
ghost use Rattle.riichi_study.specs.ChanceTexts as spec;

use riichi_chances::{DiscardOdds, Odds};
use riichi_chances_text::{MOST_ODDS, MOST_ODDS_WORDS, push_odds, push_odds_words};
use riichi_text::{ANSWER_ROOM, AnswerText, MOST_I8, MOST_U8, push_kind, push_number};
use riichi_tiles::Kind;

/// The bytes of what stands before the chances.
pub const MOST_CHANCES_FRONT: usize = "shanten ".len()
    + MOST_I8
    + " turns ".len()
    + MOST_U8
    + " unseen ".len()
    + MOST_U8;

/// The bytes of the longest chances after a discard.
pub const MOST_AFTER: usize = " discard 1m".len() + MOST_ODDS;

/// The bytes that name the other discards, no more than fourteen.
const MOST_BEATEN: usize = ", surely oftener than after".len() + 14 * " 1m".len();

/// The bytes of the longest line in words.
pub const MOST_AFTER_REASON: usize = "\n  after 1m: ".len() + MOST_ODDS_WORDS + MOST_BEATEN;

/// Writes the shanten of a hand, how many turns are to come, and how many tiles are unseen.
pub fn push_chances_front(text: &mut AnswerText, shanten: i8, turns: u8, unseen: u8)
    requires { array_string_len text.old + MOST_CHANCES_FRONT ≤ ANSWER_ROOM }
    ensures bytes { text.new.bytes ≡ text.old.bytes ++ spec.front_text shanten turns unseen }
    ensures len { array_string_len text.new ≤ array_string_len text.old + MOST_CHANCES_FRONT }
{
    text.push_str("shanten ");
    push_number(text, shanten);
    text.push_str(" turns ");
    push_number(text, turns);
    text.push_str(" unseen ");
    push_number(text, unseen);
}

/// Writes the chances after a discard.
pub fn push_after(text: &mut AnswerText, one: &DiscardOdds)
    requires parts { ArePartsOfAll one.now.odds }
    requires room { array_string_len text.old + MOST_AFTER ≤ ANSWER_ROOM }
    ensures bytes { text.new.bytes ≡ text.old.bytes ++ spec.after_text one.now }
    ensures len { array_string_len text.new ≤ array_string_len text.old + MOST_AFTER }
{
    text.push_str(" discard ");
    push_kind(text, one.kind);
    push_odds(text, &one.odds);
}

/// Writes the line of thirteen tiles in words.
pub fn push_hand_odds_reason(text: &mut AnswerText, odds: &Odds)
    requires parts { ArePartsOfAll odds.now }
    requires room { array_string_len text.old + MOST_AFTER_REASON ≤ ANSWER_ROOM }
    ensures bytes { text.new.bytes ≡ text.old.bytes ++ spec.hand_odds_reason odds.now }
    ensures len { array_string_len text.new ≤ array_string_len text.old + MOST_AFTER_REASON }
{
    text.push_str("\n  ");
    push_odds_words(text, odds);
}

/// Writes the line of a discard in words: also after which of the others no play wins as often.
#[tactic(auto, unfolding(crate::specs::ChanceTexts::after_reason))]
pub fn push_after_reason(text: &mut AnswerText, others: &[DiscardOdds], one: &DiscardOdds)
    requires parts { ArePartsOfAll one.now.odds }
    requires few { length others.now ≤ 14 }
    requires room { array_string_len text.old + MOST_AFTER_REASON ≤ ANSWER_ROOM }
    ensures bytes { text.new.bytes ≡ text.old.bytes ++ spec.after_reason others.now one.now }
    ensures len { array_string_len text.new ≤ array_string_len text.old + MOST_AFTER_REASON }
{
    text.push_str("\n  after ");
    push_kind(text, one.kind);
    text.push_str(": ");
    push_odds_words(text, &one.odds);
    push_beaten(text, &one.odds, others);
}

/// Whether there is a discard after which no play wins as often.
fn beats_any(odds: &Odds, others: &[DiscardOdds]) -> bool
    ensures { result ≡ list_any (spec.is_beaten odds.now) others.now }
{
    others
        .iter()
        .any(|other| odds.wins_surely_over(&other.odds))
}

/// Writes after which other discards no play wins as often, where there are such.
fn push_beaten(text: &mut AnswerText, odds: &Odds, others: &[DiscardOdds])
    requires few { length others.now ≤ 14 }
    requires room { array_string_len text.old + MOST_BEATEN ≤ ANSWER_ROOM }
    ensures bytes { text.new.bytes ≡ text.old.bytes ++ spec.beaten_words odds.now others.now }
    ensures len { array_string_len text.new ≤ array_string_len text.old + MOST_BEATEN }
{
    if beats_any(odds, others) {
        text.push_str(", surely oftener than after");
        push_beaten_kinds(text, odds, others);
    }
}

/// Writes their kinds.
fn push_beaten_kinds(text: &mut AnswerText, odds: &Odds, others: &[DiscardOdds])
    requires { array_string_len text.old + 3 * length others.now ≤ ANSWER_ROOM }
    ensures bytes { text.new.bytes
        ≡ text.old.bytes ++ flat_map (spec.beaten_word odds.now) others.now }
    ensures len { array_string_len text.new
        ≤ array_string_len text.old + 3 * length others.now }
{
    for other in others {
        push_if_beaten(text, odds, other);
    }
}

fn push_if_beaten(text: &mut AnswerText, odds: &Odds, other: &DiscardOdds)
    requires { array_string_len text.old + 3 ≤ ANSWER_ROOM }
    ensures bytes { text.new.bytes ≡ text.old.bytes ++ spec.beaten_word odds.now other.now }
    ensures len { array_string_len text.new ≤ array_string_len text.old + 3 }
{
    if odds.wins_surely_over(&other.odds) {
        text.push_str(" ");
        push_kind(text, other.kind);
    }
}
