//! Answers to questions of a worth.
ghost use Rattle.std.specs.Prelude.{◌≡◌, ◌+◌, ◌*◌, ◌≤◌, ◌++◌, length};
ghost use Rattle.std.specs.List.{flat_map};
ghost use Rattle.arrayvec.specs.ArrayString.{array_string_len};
ghost use Rattle.desk_json.specs.Parts.{comma_if};
ghost use Rattle.riichi_study.specs.WorthTexts.{IsRest};
ghost use Rattle.desk_study.specs.Answers as room;
ghost use Rattle.desk_study.specs.FoundWorths as spec;
ghost use Rattle.desk_study.specs.WorthObjects as objects;

use crate::chance_objects::{MOST_FRONT, push_worth_front};
use crate::chances::{MOST_UNCOUNTED, push_uncounted};
use crate::form::StudiesForm;
use crate::found_worths::{FoundWorth, FoundWorths};
use crate::puts::{put_object_piece, put_piece};
use crate::worth_objects::{
    MOST_AFTER as MOST_MEMBER, MOST_FIRST as MOST_FIRST_MEMBER, push_after as push_member,
    push_end, push_first,
};
use desk_lines::Outbox;
use riichi_study::{
    MOST_CHANCES_FRONT, MOST_WORTH, MOST_WORTH_AFTER, MOST_WORTH_REASON, push_chances_front,
    push_hand_worth_reason, push_worth, push_worth_after, push_worth_reason,
};
use riichi_text::{ANSWER_ROOM, AnswerText};
use riichi_worth::DiscardWorth;

/// The bytes of the worth after a discard, in the line or in words.
const MOST_AFTER: usize = MOST_WORTH_AFTER + MOST_WORTH_REASON;

/// The bytes of the longest line. No hand has more than fourteen discards.
const MOST_LINE: usize = MOST_CHANCES_FRONT + MOST_WORTH + 14 * MOST_AFTER;

/// The bytes of the longest lines in words.
const MOST_WORDS: usize = MOST_UNCOUNTED + MOST_WORTH_REASON + 14 * MOST_AFTER;

/// The bytes of the longest members.
const MOST_MEMBERS: usize = MOST_FRONT + MOST_FIRST_MEMBER + 14 * MOST_MEMBER + "]}".len();

/// The bytes of the longest answer.
const MOST_ANSWER: usize = MOST_LINE + MOST_WORDS + MOST_MEMBERS;

/// Puts what is found of a question of a worth.
pub(crate) fn put_worths(form: StudiesForm, found: &FoundWorths, outbox: &mut Outbox)
    requires rests { spec.HasRests found.now.worth }
    requires few { length (spec.each_of found.now.worth) ≤ 14 }
    requires room { room.HasRoomFor MOST_ANSWER outbox.old }
    ensures bytes { outbox.new.bytes.items
        ≡ outbox.old.bytes.items ++ spec.found_told form found.now }
    ensures room { length outbox.new.bytes.items ≤ length outbox.old.bytes.items + MOST_ANSWER }
{
    match form {
        StudiesForm::Answers => put_line(found, outbox),
        StudiesForm::Explained => {
            put_line(found, outbox);
            put_words(found, outbox);
        }
        StudiesForm::Objects => put_members(found, outbox),
    }
}

/// Puts the line of the answer.
fn put_line(found: &FoundWorths, outbox: &mut Outbox)
    requires rests { spec.HasRests found.now.worth }
    requires few { length (spec.each_of found.now.worth) ≤ 14 }
    requires room { room.HasRoomFor MOST_LINE outbox.old }
    ensures bytes { outbox.new.bytes.items ≡ outbox.old.bytes.items ++ spec.found_text found.now }
    ensures room { length outbox.new.bytes.items ≤ length outbox.old.bytes.items + MOST_LINE }
{
    outbox.text.clear();
    push_chances_front(
        &mut outbox.text,
        found.shanten,
        found.turns.count(),
        found.unseen,
    );
    push_first_text(&mut outbox.text, &found.worth);
    put_piece(outbox);
    put_each(false, found.worth.discards(), outbox);
}

/// Puts the lines in words.
fn put_words(found: &FoundWorths, outbox: &mut Outbox)
    requires rests { spec.HasRests found.now.worth }
    requires few { length (spec.each_of found.now.worth) ≤ 14 }
    requires room { room.HasRoomFor MOST_WORDS outbox.old }
    ensures bytes { outbox.new.bytes.items
        ≡ outbox.old.bytes.items ++ spec.found_reasons found.now }
    ensures room { length outbox.new.bytes.items ≤ length outbox.old.bytes.items + MOST_WORDS }
{
    outbox.text.clear();
    push_first_reason(&mut outbox.text, &found.worth);
    put_piece(outbox);
    put_each(true, found.worth.discards(), outbox);
}

/// Writes the worth of thirteen tiles, or that none is counted.
fn push_first_text(text: &mut AnswerText, worth: &FoundWorth)
    requires rests { spec.HasRests worth.now }
    requires room { array_string_len text.old + MOST_WORTH ≤ ANSWER_ROOM }
    ensures bytes { text.new.bytes ≡ text.old.bytes ++ spec.first_text worth.now }
    ensures len { array_string_len text.new ≤ array_string_len text.old + MOST_WORTH }
{
    match worth {
        FoundWorth::Uncounted => text.push_str(" worth none"),
        FoundWorth::Hand(worth) => push_worth(text, worth),
        FoundWorth::Discards(_) => {}
    }
}

/// Writes the same in words.
fn push_first_reason(text: &mut AnswerText, worth: &FoundWorth)
    requires rests { spec.HasRests worth.now }
    requires room { array_string_len text.old + MOST_UNCOUNTED + MOST_WORTH_REASON ≤ ANSWER_ROOM }
    ensures bytes { text.new.bytes ≡ text.old.bytes ++ spec.first_reason worth.now }
    ensures len { array_string_len text.new
        ≤ array_string_len text.old + MOST_UNCOUNTED + MOST_WORTH_REASON }
{
    match worth {
        FoundWorth::Uncounted => push_uncounted(text),
        FoundWorth::Hand(worth) => push_hand_worth_reason(text, worth),
        FoundWorth::Discards(_) => {}
    }
}

/// Puts the worth after each discard, in the line or in words.
fn put_each(in_words: bool, each: &[DiscardWorth], outbox: &mut Outbox)
    requires rests { spec.HaveRests each.now }
    requires room { room.HasRoomFor (length each.now * MOST_AFTER) outbox.old }
    ensures bytes { outbox.new.bytes.items
        ≡ outbox.old.bytes.items ++ flat_map (spec.one_told in_words each.now) each.now }
    ensures room { length outbox.new.bytes.items
        ≤ length outbox.old.bytes.items + length each.now * MOST_AFTER }
{
    for one in each {
        put_after(in_words, each, one, outbox);
    }
}

/// Puts the worth after a discard.
fn put_after(in_words: bool, others: &[DiscardWorth], one: &DiscardWorth, outbox: &mut Outbox)
    requires rest { IsRest one.now.worth.rest }
    requires room { room.HasRoomFor MOST_AFTER outbox.old }
    ensures bytes { outbox.new.bytes.items
        ≡ outbox.old.bytes.items ++ spec.one_told in_words others.now one.now }
    ensures room { length outbox.new.bytes.items ≤ length outbox.old.bytes.items + MOST_AFTER }
{
    outbox.text.clear();
    if in_words {
        push_worth_reason(&mut outbox.text, others, one);
    } else {
        push_worth_after(&mut outbox.text, one);
    }
    put_piece(outbox);
}

/// Puts the members of the answer's object.
fn put_members(found: &FoundWorths, outbox: &mut Outbox)
    requires rests { spec.HasRests found.now.worth }
    requires few { length (spec.each_of found.now.worth) ≤ 14 }
    requires room { room.HasRoomFor MOST_MEMBERS outbox.old }
    ensures bytes { outbox.new.bytes.items
        ≡ outbox.old.bytes.items ++ spec.found_members found.now }
    ensures room { length outbox.new.bytes.items
        ≤ length outbox.old.bytes.items + MOST_MEMBERS }
{
    outbox.object.clear();
    push_worth_front(
        &mut outbox.object,
        found.shanten,
        found.turns.count(),
        found.unseen,
    );
    push_first(&mut outbox.object, &found.worth);
    put_object_piece(outbox);
    put_each_member(found.worth.discards(), outbox);
    outbox.object.clear();
    push_end(&mut outbox.object, &found.worth);
    put_object_piece(outbox);
}

/// Puts the worth after each discard, with commas between them.
fn put_each_member(each: &[DiscardWorth], outbox: &mut Outbox)
    requires rests { spec.HaveRests each.now }
    requires room { room.HasRoomFor (length each.now * MOST_MEMBER) outbox.old }
    ensures bytes { outbox.new.bytes.items
        ≡ outbox.old.bytes.items ++ objects.each_worth_json each.now }
    ensures room { length outbox.new.bytes.items
        ≤ length outbox.old.bytes.items + length each.now * MOST_MEMBER }
{
    let mut later = false;
    for one in each {
        put_member(later, one, outbox);
        later = true;
    }
}

/// Puts the worth after a discard, behind a comma where it is not the first.
fn put_member(later: bool, one: &DiscardWorth, outbox: &mut Outbox)
    requires rest { IsRest one.now.worth.rest }
    requires room { room.HasRoomFor MOST_MEMBER outbox.old }
    ensures bytes { outbox.new.bytes.items
        ≡ outbox.old.bytes.items ++ (comma_if later ++ objects.worth_after_json one.now) }
    ensures room { length outbox.new.bytes.items ≤ length outbox.old.bytes.items + MOST_MEMBER }
{
    outbox.object.clear();
    push_member(&mut outbox.object, later, one);
    put_object_piece(outbox);
}
