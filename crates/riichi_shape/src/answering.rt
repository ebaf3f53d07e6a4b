//! The answer of a shape record.
ghost use Rattle.std.specs.Prelude.{true, ℕ, ◌≡◌, ◌<◌, ◌≤◌, slice_index};
ghost use Rattle.riichi_tiles.specs.Melds.{tiles};
ghost use Rattle.riichi_hand.specs.Hand.{is_thirteen, size};
ghost use Rattle.riichi_shape.specs.Answer.{shape_answer_of};
ghost use Rattle.riichi_shape.specs.Choosing.{HasDiscards};

use crate::acceptance::{accepted_by, live_copies};
use crate::accepts::Accepts;
use crate::distance::shanten_at;
use crate::hand_forms::HandForms;
use crate::removal::discards_by;
use crate::shape_answer::ShapeAnswer;
use riichi_hand::ShapeRecord;
use riichi_rows::{FreshRows, RowSource};
use riichi_tiles::{Counts, Melds};

/// The answer of thirteen tiles.
fn shape_of_thirteen<R: RowSource>(
    source: &mut R,
    hand: &Counts,
    melds: &Melds,
    seen: &Counts,
) -> ShapeAnswer
    requires melded { (k : ℕ) → k < 34 → tiles melds.now k ≤ 4 }
    requires thirteen { is_thirteen hand.now melds.now ≡ true }
    ensures shape { result
        ≡ shape_answer_of (record { tiles = hand.now; melds = melds.now; seen = seen.now }) }
    ensures stays { source.new ≡ source.old }
{
    let forms = HandForms::new(source, hand, melds);
    let least = forms.distance(melds);
    let live = live_copies(hand, melds, seen);
    let kinds = accepted_by(&forms.lacked(melds, least), hand, &live);
    ShapeAnswer {
        shanten: shanten_at(least),
        accepts: Accepts::Thirteen(live.list(kinds)),
    }
}

/// The answer of fourteen tiles.
fn shape_of_fourteen<R: RowSource>(
    source: &mut R,
    hand: &Counts,
    melds: &Melds,
    seen: &Counts,
) -> ShapeAnswer
    requires melded { (k : ℕ) → k < 34 → tiles melds.now k ≤ 4 }
    requires fourteen { size hand.now melds.now ≡ 14 }
    ensures shape { result
        ≡ shape_answer_of (record { tiles = hand.now; melds = melds.now; seen = seen.now }) }
    ensures stays { source.new ≡ source.old }
{
    let forms = HandForms::new(source, hand, melds);
    let distance = forms.distance(melds);
    ShapeAnswer {
        shanten: shanten_at(distance),
        accepts: Accepts::Fourteen(discards_by(source, &forms, distance, hand, melds, seen)),
    }
}

/// The shanten of a hand and what it accepts, by the rows of a source: the same whichever it is.
pub fn shape_with<R: RowSource>(source: &mut R, asked: &ShapeRecord) -> ShapeAnswer
    ensures shape { result ≡ shape_answer_of asked.now }
    ensures discards { HasDiscards asked.now result.accepts }
    ensures stays { source.new ≡ source.old }
{
    let hand = asked.tiles();
    let melds = asked.melds();
    let seen = asked.seen();
    if hand.total() as usize + 3 * melds.count() == 13 {
        shape_of_thirteen(source, &hand, &melds, &seen)
    } else {
        shape_of_fourteen(source, &hand, &melds, &seen)
    }
}

/// The same by rows that are made anew.
pub fn shape(asked: &ShapeRecord) -> ShapeAnswer
    ensures shape { result ≡ shape_answer_of asked.now }
    ensures discards { HasDiscards asked.now result.accepts }
{
    shape_with(&mut FreshRows, asked)
}
