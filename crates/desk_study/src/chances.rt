//! Answers to questions of chances.
ghost use Rattle.std.specs.Prelude.{◌≡◌, ◌+◌, ◌*◌, ◌≤◌, ◌++◌, All, length};
ghost use Rattle.std.specs.List.{flat_map};
ghost use Rattle.arrayvec.specs.ArrayString.{array_string_len};
ghost use Rattle.riichi_chances.specs.Odds.{ArePartsOfAll};
ghost use Rattle.desk_json.specs.Parts.{comma_if};
ghost use Rattle.riichi_study.specs.ChanceTexts.{uncounted_reason};
ghost use Rattle.desk_study.specs.Answers as room;
ghost use Rattle.desk_study.specs.Found as spec;

use crate::chance_objects::{
    MOST_AFTER as MOST_MEMBER, MOST_FIRST as MOST_FIRST_MEMBER, MOST_FRONT,
    push_after as push_member, push_chances_front as push_members_front, push_end, push_first,
};
use crate::form::StudiesForm;
use crate::found::{FoundByTurn, FoundChances};
use crate::puts::{put_object_piece, put_piece};
use desk_lines::Outbox;
use riichi_chances::{DiscardChances, DiscardOdds, each_odds_at};
use riichi_chances_text::{MOST_ODDS, push_odds};
use riichi_study::{
    MOST_AFTER, MOST_AFTER_REASON, MOST_CHANCES_FRONT, push_after, push_after_reason,
    push_chances_front, push_hand_odds_reason,
};
use riichi_text::{ANSWER_ROOM, AnswerText};

const MOST_FIRST: usize = MOST_CHANCES_FRONT + MOST_ODDS;

/// The bytes of the words where nothing is counted.
pub(crate) const MOST_UNCOUNTED: usize =
    "\n  chances are counted to three-shanten, and for no more draws than there are tiles".len();

/// The bytes of the longest line. No hand has more than fourteen discards.
const MOST_LINE: usize = MOST_FIRST + 14 * MOST_AFTER;

/// The bytes of the longest lines in words.
const MOST_WORDS: usize = MOST_UNCOUNTED + MOST_AFTER_REASON + 14 * MOST_AFTER;

/// The bytes of the longest members.
const MOST_MEMBERS: usize = MOST_FRONT + MOST_FIRST_MEMBER + 14 * MOST_MEMBER + "]}".len();

/// The bytes of the longest answer, which is that by members: they are more than a line with its words.
const MOST_ANSWER: usize = MOST_MEMBERS;

/// Puts what is found of a question of chances.
pub(crate) fn put_chances(form: StudiesForm, found: &FoundChances, outbox: &mut Outbox)
    requires parts { spec.AreParts found.now.turns found.now.by_turn }
    requires room { room.HasRoomFor MOST_ANSWER outbox.old }
    ensures bytes { outbox.new.bytes.items
        ≡ outbox.old.bytes.items ++ spec.found_told form found.now }
    ensures room { length outbox.new.bytes.items ≤ length outbox.old.bytes.items + MOST_ANSWER }
{
    match form {
        StudiesForm::Answers => put_line(found, outbox),
        StudiesForm::Explained => {
            put_line(found, outbox);
            put_words(found, outbox);
        }
        StudiesForm::Objects => put_members(found, outbox),
    }
}

/// Puts the line of the answer.
fn put_line(found: &FoundChances, outbox: &mut Outbox)
    requires parts { spec.AreParts found.now.turns found.now.by_turn }
    requires room { room.HasRoomFor MOST_LINE outbox.old }
    ensures bytes { outbox.new.bytes.items ≡ outbox.old.bytes.items ++ spec.found_text found.now }
    ensures room { length outbox.new.bytes.items ≤ length outbox.old.bytes.items + MOST_LINE }
{
    outbox.text.clear();
    push_chances_front(
        &mut outbox.text,
        found.shanten,
        found.turns.count(),
        found.unseen,
    );
    push_first_text(&mut outbox.text, &found.by_turn, found.turns.count());
    put_piece(outbox);
    put_discards(false, found, outbox);
}

/// Puts the lines in words.
fn put_words(found: &FoundChances, outbox: &mut Outbox)
    requires parts { spec.AreParts found.now.turns found.now.by_turn }
    requires room { room.HasRoomFor MOST_WORDS outbox.old }
    ensures bytes { outbox.new.bytes.items
        ≡ outbox.old.bytes.items ++ spec.found_reasons found.now }
    ensures room { length outbox.new.bytes.items ≤ length outbox.old.bytes.items + MOST_WORDS }
{
    outbox.text.clear();
    push_first_reason(&mut outbox.text, &found.by_turn, found.turns.count());
    put_piece(outbox);
    put_discards(true, found, outbox);
}

/// Writes the chances of thirteen tiles, or that none are counted.
fn push_first_text(text: &mut AnswerText, found: &FoundByTurn, turns: u8)
    requires turns { turns ≤ 18 }
    requires parts { spec.AreParts turns found.now }
    requires room { array_string_len text.old + MOST_ODDS ≤ ANSWER_ROOM }
    ensures bytes { text.new.bytes ≡ text.old.bytes ++ spec.first_text turns found.now }
    ensures len { array_string_len text.new ≤ array_string_len text.old + MOST_ODDS }
{
    match found {
        FoundByTurn::Uncounted => text.push_str(" chances none"),
        FoundByTurn::Hand(chances) => push_odds(text, &chances.at(turns)),
        FoundByTurn::Discards(_) => {}
    }
}

/// Writes the same in words.
fn push_first_reason(text: &mut AnswerText, found: &FoundByTurn, turns: u8)
    requires turns { turns ≤ 18 }
    requires parts { spec.AreParts turns found.now }
    requires room { array_string_len text.old + MOST_UNCOUNTED + MOST_AFTER_REASON ≤ ANSWER_ROOM }
    ensures bytes { text.new.bytes ≡ text.old.bytes ++ spec.first_reason turns found.now }
    ensures len { array_string_len text.new
        ≤ array_string_len text.old + MOST_UNCOUNTED + MOST_AFTER_REASON }
{
    match found {
        FoundByTurn::Uncounted => push_uncounted(text),
        FoundByTurn::Hand(chances) => push_hand_odds_reason(text, &chances.at(turns)),
        FoundByTurn::Discards(_) => {}
    }
}

/// Writes in words that nothing is counted.
pub(crate) fn push_uncounted(text: &mut AnswerText)
    requires { array_string_len text.old + MOST_UNCOUNTED ≤ ANSWER_ROOM }
    ensures bytes { text.new.bytes ≡ text.old.bytes ++ uncounted_reason }
    ensures len { array_string_len text.new ≤ array_string_len text.old + MOST_UNCOUNTED }
{
    text.push_str(
        "\n  chances are counted to three-shanten, and for no more draws than there are tiles",
    );
}

/// Puts the chances after each discard, in the line or in words.
fn put_discards(in_words: bool, found: &FoundChances, outbox: &mut Outbox)
    requires parts { spec.AreParts found.now.turns found.now.by_turn }
    requires room { room.HasRoomFor (14 * MOST_AFTER) outbox.old }
    ensures bytes { outbox.new.bytes.items ≡ outbox.old.bytes.items
        ++ flat_map (spec.one_told in_words (spec.each_of found.now.turns found.now.by_turn))
        (spec.each_of found.now.turns found.now.by_turn) }
    ensures room { length outbox.new.bytes.items
        ≤ length outbox.old.bytes.items + 14 * MOST_AFTER }
{
    let each = found.by_turn.discards_at(found.turns.count());
    put_each(in_words, each.as_slice(), outbox);
}

fn put_each(in_words: bool, each: &[DiscardOdds], outbox: &mut Outbox)
    requires parts { All (λ one. ArePartsOfAll one.odds) each.now }
    requires few { length each.now ≤ 14 }
    requires room { room.HasRoomFor (length each.now * MOST_AFTER) outbox.old }
    ensures bytes { outbox.new.bytes.items
        ≡ outbox.old.bytes.items ++ flat_map (spec.one_told in_words each.now) each.now }
    ensures room { length outbox.new.bytes.items
        ≤ length outbox.old.bytes.items + length each.now * MOST_AFTER }
{
    for one in each {
        put_after(in_words, each, one, outbox);
    }
}

/// Puts the chances after a discard.
fn put_after(in_words: bool, others: &[DiscardOdds], one: &DiscardOdds, outbox: &mut Outbox)
    requires parts { ArePartsOfAll one.now.odds }
    requires few { length others.now ≤ 14 }
    requires room { room.HasRoomFor MOST_AFTER outbox.old }
    ensures bytes { outbox.new.bytes.items
        ≡ outbox.old.bytes.items ++ spec.one_told in_words others.now one.now }
    ensures room { length outbox.new.bytes.items ≤ length outbox.old.bytes.items + MOST_AFTER }
{
    outbox.text.clear();
    if in_words {
        push_after_reason(&mut outbox.text, others, one);
    } else {
        push_after(&mut outbox.text, one);
    }
    put_piece(outbox);
}

/// Puts the members of the answer's object.
fn put_members(found: &FoundChances, outbox: &mut Outbox)
    requires parts { spec.AreParts found.now.turns found.now.by_turn }
    requires room { room.HasRoomFor MOST_MEMBERS outbox.old }
    ensures bytes { outbox.new.bytes.items
        ≡ outbox.old.bytes.items ++ spec.found_members found.now }
    ensures room { length outbox.new.bytes.items
        ≤ length outbox.old.bytes.items + MOST_MEMBERS }
{
    let turns = found.turns.count();
    outbox.object.clear();
    push_members_front(&mut outbox.object, found.shanten, turns, found.unseen);
    push_first(&mut outbox.object, &found.by_turn, turns);
    put_object_piece(outbox);
    put_each_member(found.by_turn.discards(), turns, outbox);
    outbox.object.clear();
    push_end(&mut outbox.object, &found.by_turn);
    put_object_piece(outbox);
}

/// Puts the chances after each discard, with commas between them.
fn put_each_member(each: &[DiscardChances], turns: u8, outbox: &mut Outbox)
    requires turns { turns ≤ 18 }
    requires parts { spec.ArePartsOfEach turns each.now }
    requires few { length each.now ≤ 14 }
    requires room { room.HasRoomFor (length each.now * MOST_MEMBER) outbox.old }
    ensures bytes { outbox.new.bytes.items
        ≡ outbox.old.bytes.items ++ spec.each_json turns each.now }
    ensures room { length outbox.new.bytes.items
        ≤ length outbox.old.bytes.items + length each.now * MOST_MEMBER }
{
    let others = each_odds_at(each, turns);
    let mut later = false;
    for one in each {
        put_member(later, others.as_slice(), one, turns, outbox);
        later = true;
    }
}

/// Puts the chances after a discard, behind a comma where it is not the first.
fn put_member(
    later: bool,
    others: &[DiscardOdds],
    one: &DiscardChances,
    turns: u8,
    outbox: &mut Outbox,
)
    requires turns { turns ≤ 18 }
    requires parts { spec.AreAllParts turns one.now.chances }
    requires few { length others.now ≤ 14 }
    requires room { room.HasRoomFor MOST_MEMBER outbox.old }
    ensures bytes { outbox.new.bytes.items ≡ outbox.old.bytes.items
        ++ (comma_if later ++ spec.one_json others.now turns one.now) }
    ensures room { length outbox.new.bytes.items ≤ length outbox.old.bytes.items + MOST_MEMBER }
{
    outbox.object.clear();
    push_member(&mut outbox.object, later, others, one, turns);
    put_object_piece(outbox);
}
