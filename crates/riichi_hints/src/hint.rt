//! The lines that follow a refusal, and among them a line that is answered.
ghost use Rattle.std.specs.Prelude.{◌≡◌, ◌⊎◌, [], ◌+◌, ◌≤◌, ◌++◌, ℕ, List, Option, Some, IfNone, IfSome, length, codes, false, IsTrue, ◌↔◌};
ghost use Rattle.std.specs.List.{list_any};
ghost use Rattle.arrayvec.specs.ArrayString.{array_string_len};
ghost use Rattle.riichi_hand.specs.Lines.{outcome_of, is_other_byte};
ghost use Rattle.riichi_hand.specs.Refusals.{IsRefusalOf};
ghost use Rattle.riichi_hints.specs.Hint.{is_record, IsNote, IsAnswered, IsPrintable, HaveNoPlace, IsNoteUntold, told_line, said_if, IsRefusalText, HasItsNote, IsHint, HintText, IsHintOrNone, mark_of};

use crate::account::{AccountText, account_of, has_guess};
use crate::draft::Draft;
use crate::notes::note_of;
use crate::plain::plain_line;
use crate::role::Spot;
use crate::text::{Line, MOST};
use riichi_hand::{Refusal, Rules, has_other_byte, read_line};
use riichi_refusals::{MOST_REFUSAL, push_refusal_lines, seen};
use riichi_text::{ANSWER_ROOM, AnswerText};

/// Writes the lines that follow a refusal: the word at fault and what may stand there, a note where more can be said, and a
/// line like the refused one that is answered under these rules, where one is found.
pub fn push_refusal(text: &mut AnswerText, rules: Rules, line: &[u8], refusal: &Refusal<'_>)
    requires room { array_string_len text.old + MOST_REFUSAL ≤ ANSWER_ROOM }
    requires refusal { IsRefusalOf line.now refusal.now }
    ensures text { (said : List ℕ) × IsRefusalText rules line.now refusal.now.fault said
        × (text.new.bytes ≡ text.old.bytes ++ said) }
    ensures note { (said : List ℕ)
        × HasItsNote rules line.now refusal.now.fault (array_string_len text.old) said
        × (text.new.bytes ≡ text.old.bytes ++ said) }
{
    push_refusal_lines(text, line, refusal);
    push_note(text, line, refusal);
    push_hint(text, rules, line);
}

fn push_note(text: &mut AnswerText, line: &[u8], refusal: &Refusal<'_>)
    requires { IsRefusalOf line.now refusal.now }
    ensures { let fault = refusal.now.fault in
        (note : Option (List ℕ)) × IfSome note (λ words. IsNote fault line.now words × IsPrintable words)
        × IfNone note (IsNoteUntold fault line.now (array_string_len text.old))
        × (text.new.bytes ≡ text.old.bytes ++ told_line (codes "  ") note) }
{
    if let Some(note) = note_of(line, refusal) {
        push_line(text, "  ", note.as_slice());
    }
}

fn push_hint(text: &mut AnswerText, rules: Rules, line: &[u8])
    ensures { (hint : List ℕ) × IsHintOrNone rules line.now hint
        × (text.new.bytes ≡ text.old.bytes ++ hint) }
{
    if let Some(hint) = hint_of(rules, line) {
        push_tried(text, &hint);
    }
}

/// Writes what became of the words, and below it the line, where they are seen and there is room for both.
fn push_tried(text: &mut AnswerText, hint: &Hint)
    ensures { (said : List ℕ)
        × ((said ≡ []) ⊎ (HintText hint.now.line.items hint.now.account.items hint.now.is_guess said))
        × (text.new.bytes ≡ text.old.bytes ++ said) }
{
    let line = hint.line.as_slice();
    let Some(account) = seen(hint.account.as_slice()) else {
        return;
    };
    if has_other_byte(line) || text.remaining_capacity() < line.len() + account.len() + 20 {
        return;
    }
    push_account(text, account);
    push_line(text, hint.mark(), line);
}

/// Writes what became of the words, where there is anything to tell.
fn push_account(text: &mut AnswerText, account: &str)
    requires { array_string_len text.old + length account.now + 20 ≤ ANSWER_ROOM }
    ensures bytes { text.new.bytes
        ≡ text.old.bytes ++ told_line (codes "  here") (said_if account.now) }
    ensures len { array_string_len text.new ≤ array_string_len text.old + length account.now + 10 }
{
    if !account.is_empty() {
        text.push_str("  here");
        text.push_str(account);
        text.push_str("\n");
    }
}

/// A line that is answered, and what became of the words of the refused one in it.
#[derive(Drop)]
pub struct Hint {
    pub line: Line,
    /// What is read as something else, what is left out, and what is a guess; empty where each word is kept.
    pub account: AccountText,
    /// A word of the line is a guess.
    pub is_guess: bool,
}

impl Hint {
    /// What stands before the line.
    fn mark(&self) -> &'static str
        ensures value { result.now ≡ mark_of self.now.is_guess }
        ensures short { length result.now ≤ 9 }
    {
        if self.is_guess {
            "  guess: "
        } else {
            "  try: "
        }
    }
}

/// A line like this one that is answered under these rules, where one is found: what a loose reading of its words makes of it.
pub fn hint_of(rules: Rules, line: &[u8]) -> Option<Hint>
    ensures { IfSome result (λ hint.
        IsHint rules line.now hint.line.items hint.account.items hint.is_guess) }
{
    if !is_read(line) {
        return None;
    }
    let plain = plain_line(line);
    let mut draft = Draft::read(plain.as_slice());
    draft.mend(rules);
    let line = draft.line();
    if !is_answered(rules, line.as_slice()) {
        return None;
    }
    let (roles, shown) = (draft.roles.as_slice(), line.as_slice());
    let is_guess = has_guess(roles, Spot::First, shown);
    let account = account_of(plain.as_slice(), roles, shown)?;
    Some(Hint {
        line,
        account,
        is_guess,
    })
}

/// A line that isn't too long is read loosely.
fn is_read(line: &[u8]) -> bool
    ensures { IsTrue result ↔ (length line.now ≤ MOST) }
{
    line.len() <= MOST
}

fn is_answered(rules: Rules, line: &[u8]) -> bool
    ensures { result ≡ is_record (outcome_of rules line.now) }
{
    match read_line(rules, line) {
        Ok(Some(_)) => true,
        _ => false,
    }
}

/// Writes a line of words where they are printable and there is room.
fn push_line(text: &mut AnswerText, before: &str, words: &[u8])
    requires { length before.now ≤ 9 }
    ensures room { list_any is_other_byte words.now ≡ false
        → array_string_len text.old + length words.now + 10 ≤ ANSWER_ROOM
        → text.new.bytes ≡ text.old.bytes ++ told_line before.now (Some words.now) }
    ensures line { (told : Option (List ℕ))
        × IfSome told (λ line. (line ≡ words.now) × IsPrintable line)
        × IfNone told (HaveNoPlace (array_string_len text.old) words.now)
        × (text.new.bytes ≡ text.old.bytes ++ told_line before.now told) }
{
    if has_other_byte(words) || text.remaining_capacity() < words.len() + 10 {
        return;
    }
    if let Ok(words) = std::str::from_utf8(words) {
        text.push_str(before);
        text.push_str(words);
        text.push_str("\n");
    }
}
