//! Answers to questions of a shape.
ghost use Rattle.std.specs.Prelude.{◌≡◌, ◌+◌, ◌*◌, ◌≤◌, ◌++◌, length};
ghost use Rattle.riichi_study.specs.Findings as found;
ghost use Rattle.desk_study.specs.Answers as spec;

use crate::form::StudiesForm;
use crate::members::{MOST_DISCARDS_MEMBERS, put_discards_members, put_hand_members};
use crate::plain::{put_discards_text, put_hand_text};
use crate::reasons::{put_hand_reason, put_prospect_reasons};
use desk_lines::Outbox;
use riichi_deeper::{Outlook, deeper};
use riichi_hand::ShapeRecord;
use riichi_shape::{Accepts, LiveList, RowSource, shape_with};
use riichi_study::{Order, Prospect, prospects};

/// The bytes of the longest answer to a question of a shape, the members of fourteen discards.
const MOST_ANSWER: usize = MOST_DISCARDS_MEMBERS;

/// Puts the answer to a shape, and what stands beyond its next step.
pub(crate) fn put_shape<S: RowSource>(
    form: StudiesForm,
    hand: &ShapeRecord,
    order: Order,
    outbox: &mut Outbox,
    source: &mut S,
)
    requires { spec.HasRoomFor MOST_ANSWER outbox.old }
    ensures bytes { outbox.new.bytes.items ≡ outbox.old.bytes.items
        ++ spec.told_in form (found.shape_finding hand.now order) }
    ensures room { length outbox.new.bytes.items ≤ length outbox.old.bytes.items + MOST_ANSWER }
{
    let _shape = hand.tiles();
    let answer = shape_with(source, hand);
    match &answer.accepts {
        Accepts::Thirteen(accepted) => {
            let outlook = deeper(source, hand);
            put_hand(form, answer.shanten, accepted, &outlook, outbox);
        }
        Accepts::Fourteen(discards) => {
            let list = prospects(source, hand, order, discards);
            put_discards(form, answer.shanten, order, list.as_slice(), outbox);
        }
    }
}

/// Puts the answer to thirteen tiles.
fn put_hand(
    form: StudiesForm,
    shanten: i8,
    accepted: &LiveList,
    outlook: &Option<Outlook>,
    outbox: &mut Outbox,
)
    requires { spec.HasRoomFor MOST_ANSWER outbox.old }
    ensures bytes { outbox.new.bytes.items ≡ outbox.old.bytes.items
        ++ spec.told_in form (found.Hand shanten accepted.now outlook.now) }
    ensures room { length outbox.new.bytes.items ≤ length outbox.old.bytes.items + MOST_ANSWER }
{
    match form {
        StudiesForm::Answers => put_hand_text(shanten, accepted, outlook, outbox),
        StudiesForm::Explained => {
            put_hand_text(shanten, accepted, outlook, outbox);
            put_hand_reason(accepted.live(), outlook, outbox);
        }
        StudiesForm::Objects => put_hand_members(shanten, accepted, outlook, outbox),
    }
}

/// Puts the answer to fourteen tiles.
fn put_discards(
    form: StudiesForm,
    shanten: i8,
    order: Order,
    list: &[Option<Prospect>],
    outbox: &mut Outbox,
)
    requires few { length list.now ≤ 14 }
    requires room { spec.HasRoomFor MOST_ANSWER outbox.old }
    ensures bytes { outbox.new.bytes.items ≡ outbox.old.bytes.items
        ++ spec.told_in form (found.Discards shanten order (spec.all_there list.now)) }
    ensures room { length outbox.new.bytes.items ≤ length outbox.old.bytes.items + MOST_ANSWER }
{
    match form {
        StudiesForm::Answers => put_discards_text(shanten, list, outbox),
        StudiesForm::Explained => {
            put_discards_text(shanten, list, outbox);
            put_prospect_reasons(list, outbox);
        }
        StudiesForm::Objects => put_discards_members(shanten, order, list, outbox),
    }
}
