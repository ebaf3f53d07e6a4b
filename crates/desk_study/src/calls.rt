//! Answers to questions of calls.
ghost use Rattle.std.specs.Prelude.{◌≡◌, ◌+◌, ◌≤◌, ◌++◌, length};
ghost use Rattle.riichi_study.specs.Findings as found;
ghost use Rattle.riichi_study.specs.Texts.{IsShanten};
ghost use Rattle.desk_study.specs.Answers as spec;

use crate::form::StudiesForm;
use crate::members::put_calls_members;
use crate::plain::{MOST_CALLS_TEXT, put_calls_text};
use crate::reasons::{MOST_CALLS_REASONS, put_calls_reasons};
use desk_lines::Outbox;
use riichi_deeper::{Call, calls, kong};
use riichi_shape::{RowSource, ShapeAnswer, shanten_with};
use riichi_study::CallRecord;
use riichi_tiles::Kind;

/// The bytes of the longest answer to a question of calls, its line with lines in words.
const MOST_ANSWER: usize = MOST_CALLS_TEXT + MOST_CALLS_REASONS;

/// Puts the calls that bring a hand nearer with what each leads to, and a kong.
pub(crate) fn put_calls<S: RowSource>(
    form: StudiesForm,
    asked: &CallRecord,
    outbox: &mut Outbox,
    source: &mut S,
)
    requires { spec.HasRoomFor MOST_ANSWER outbox.old }
    ensures bytes { outbox.new.bytes.items ≡ outbox.old.bytes.items
        ++ spec.told_in form (found.calls_finding asked.now) }
    ensures room { length outbox.new.bytes.items ≤ length outbox.old.bytes.items + MOST_ANSWER }
{
    let hand = asked.hand();
    let thrown = asked.thrown();
    let shanten = shanten_with(source, &hand.tiles(), &hand.melds());
    let found = calls(source, &hand, &thrown);
    let led = kong(source, &hand, thrown.tile);
    put_found(form, shanten, thrown.tile, &found, &led, outbox);
}

/// Puts these calls of a tile by a hand of this shanten, and a kong.
fn put_found(
    form: StudiesForm,
    shanten: i8,
    tile: Kind,
    calls: &[Option<Call>; 4],
    kong: &Option<ShapeAnswer>,
    outbox: &mut Outbox,
)
    requires shanten { IsShanten shanten }
    requires room { spec.HasRoomFor MOST_ANSWER outbox.old }
    ensures bytes { outbox.new.bytes.items ≡ outbox.old.bytes.items
        ++ spec.told_in form (found.Calls shanten tile calls.now kong.now) }
    ensures room { length outbox.new.bytes.items ≤ length outbox.old.bytes.items + MOST_ANSWER }
{
    match form {
        StudiesForm::Answers => put_calls_text(shanten, tile, calls, kong, outbox),
        StudiesForm::Explained => {
            put_calls_text(shanten, tile, calls, kong, outbox);
            put_calls_reasons(tile, calls, kong, outbox);
        }
        StudiesForm::Objects => put_calls_members(shanten, tile, calls, kong, outbox),
    }
}
