//! Answers to questions of furiten and safe tiles.
ghost use Rattle.std.specs.Prelude.{◌≡◌, ◌+◌, ◌*◌, ◌≤◌, ◌++◌, length};
ghost use Rattle.std.specs.List.{flat_map};
ghost use Rattle.riichi_tiles.specs.Melds.{every_kind};
ghost use Rattle.riichi_safe.specs.Safe.{safe_kinds};
ghost use Rattle.riichi_study.specs.Findings as found;
ghost use Rattle.riichi_study.specs.SafeReasons as words;
ghost use Rattle.riichi_study.specs.SafeTexts as texts;
ghost use Rattle.desk_study.specs.Answers as spec;
ghost use Rattle.desk_study.specs.SafeObjects as objects;

use crate::form::StudiesForm;
use crate::puts::{put_object_piece, put_piece};
use crate::safe_objects::{MOST_MEMBERS, push_members};
use desk_lines::Outbox;
use riichi_safe::{SafeRecord, cannot_win, furiten};
use riichi_study::{
    MOST_FURITEN_REASON, MOST_PASSED_REASON, MOST_RISK_REASON, MOST_SAFE, push_furiten_reason,
    push_passed_reason, push_risk_reason, push_safe,
};
use riichi_tiles::{Kind, KindSet};

const MOST_SAFE_REASONS: usize = MOST_PASSED_REASON + 34 * MOST_RISK_REASON + MOST_FURITEN_REASON;

/// The bytes of the longest answer.
const MOST_ANSWER: usize = MOST_SAFE + MOST_SAFE_REASONS + MOST_MEMBERS;

/// Puts the answer to a question of safe tiles.
pub(crate) fn put_safe(form: StudiesForm, asked: &SafeRecord, outbox: &mut Outbox)
    requires { spec.HasRoomFor MOST_ANSWER outbox.old }
    ensures bytes { outbox.new.bytes.items ≡ outbox.old.bytes.items
        ++ spec.told_in form (found.Safety asked.now) }
    ensures room { length outbox.new.bytes.items ≤ length outbox.old.bytes.items + MOST_ANSWER }
{
    match form {
        StudiesForm::Answers => put_safe_text(asked, outbox),
        StudiesForm::Explained => {
            put_safe_text(asked, outbox);
            put_safe_reasons(asked, outbox);
        }
        StudiesForm::Objects => put_safe_members(asked, outbox),
    }
}

/// Puts the line of the answer.
fn put_safe_text(asked: &SafeRecord, outbox: &mut Outbox)
    requires { spec.HasRoomFor MOST_SAFE outbox.old }
    ensures bytes { outbox.new.bytes.items
        ≡ outbox.old.bytes.items ++ texts.safe_text asked.now }
    ensures room { length outbox.new.bytes.items ≤ length outbox.old.bytes.items + MOST_SAFE }
{
    outbox.text.clear();
    push_safe(&mut outbox.text, asked);
    put_piece(outbox);
}

/// Puts the lines in words.
fn put_safe_reasons(asked: &SafeRecord, outbox: &mut Outbox)
    requires { spec.HasRoomFor MOST_SAFE_REASONS outbox.old }
    ensures bytes { outbox.new.bytes.items
        ≡ outbox.old.bytes.items ++ words.safe_reasons asked.now }
    ensures room { length outbox.new.bytes.items
        ≤ length outbox.old.bytes.items + MOST_SAFE_REASONS }
{
    let safe = cannot_win(asked);
    put_passed(safe, outbox);
    put_risks(asked, safe, outbox);
    put_furiten(furiten(asked), outbox);
}

/// Puts the line of the kinds that can't be won on.
fn put_passed(safe: KindSet, outbox: &mut Outbox)
    requires { spec.HasRoomFor MOST_PASSED_REASON outbox.old }
    ensures bytes { outbox.new.bytes.items
        ≡ outbox.old.bytes.items ++ words.passed_reason safe }
    ensures room { length outbox.new.bytes.items
        ≤ length outbox.old.bytes.items + MOST_PASSED_REASON }
{
    outbox.text.clear();
    push_passed_reason(&mut outbox.text, safe);
    put_piece(outbox);
}

/// Puts the lines of a kind.
fn put_risk(asked: &SafeRecord, safe: KindSet, kind: Kind, outbox: &mut Outbox)
    requires safe { safe ≡ safe_kinds asked.now }
    requires room { spec.HasRoomFor MOST_RISK_REASON outbox.old }
    ensures bytes { outbox.new.bytes.items
        ≡ outbox.old.bytes.items ++ words.risk_reason asked.now kind }
    ensures room { length outbox.new.bytes.items
        ≤ length outbox.old.bytes.items + MOST_RISK_REASON }
{
    outbox.text.clear();
    push_risk_reason(&mut outbox.text, asked, safe, kind);
    put_piece(outbox);
}

/// Puts the lines of all kinds.
fn put_risks(asked: &SafeRecord, safe: KindSet, outbox: &mut Outbox)
    requires safe { safe ≡ safe_kinds asked.now }
    requires room { spec.HasRoomFor (34 * MOST_RISK_REASON) outbox.old }
    ensures bytes { outbox.new.bytes.items
        ≡ outbox.old.bytes.items ++ flat_map (words.risk_reason asked.now) every_kind }
    ensures room { length outbox.new.bytes.items
        ≤ length outbox.old.bytes.items + 34 * MOST_RISK_REASON }
{
    for number in 0..34 {
        put_risk(asked, safe, Kind::at(number), outbox);
    }
}

/// Puts the line of furiten.
fn put_furiten(kinds: Option<KindSet>, outbox: &mut Outbox)
    requires { spec.HasRoomFor MOST_FURITEN_REASON outbox.old }
    ensures bytes { outbox.new.bytes.items
        ≡ outbox.old.bytes.items ++ words.furiten_reason kinds }
    ensures room { length outbox.new.bytes.items
        ≤ length outbox.old.bytes.items + MOST_FURITEN_REASON }
{
    outbox.text.clear();
    push_furiten_reason(&mut outbox.text, kinds);
    put_piece(outbox);
}

/// Puts the members of an object.
fn put_safe_members(asked: &SafeRecord, outbox: &mut Outbox)
    requires { spec.HasRoomFor MOST_MEMBERS outbox.old }
    ensures bytes { outbox.new.bytes.items
        ≡ outbox.old.bytes.items ++ objects.safe_members asked.now }
    ensures room { length outbox.new.bytes.items
        ≤ length outbox.old.bytes.items + MOST_MEMBERS }
{
    outbox.object.clear();
    push_members(&mut outbox.object, asked);
    put_object_piece(outbox);
}
