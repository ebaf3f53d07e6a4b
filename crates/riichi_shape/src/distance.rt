//! The distance of a hand from winning, and its shanten.
ghost use Rattle.std.specs.Prelude.{ℕ, ◌≡◌, ◌≤◌, ◌<◌, pos, ◌-ℤ◌};
ghost use Rattle.riichi_tiles.specs.Melds.{tiles};
ghost use Rattle.riichi_shape.specs.Distance.{IsDistance, NoneLacksLess, ShantenReached};
ghost use Rattle.riichi_shape.specs.EveryWinning.{distance_of, shanten_of};
ghost use Rattle.riichi_shape.specs.Rows.{AreJoinsBeside, AreRowsOf, IsRowAt};
ghost use Rattle.riichi_shape.specs.Special.{SpecialLacks};

use crate::hand_caps::hand_caps_of;
use crate::hand_joins::HandJoins;
use crate::hand_rows::{HandRows, hand_rows_of};
use crate::special::SpecialForms;
use riichi_rows::{FreshRows, RowSource, SuitRow, join_rows};
use riichi_tiles::{Counts, Kind, Melds};

/// The distance of a hand that has changed at one kind since its rows were joined, by the row of
/// the suit of that kind. No seven pairs or thirteen orphans lack fewer tiles than `floor`, and they
/// are looked at only where they can be least.
pub(crate) fn distance_with(
    joins: &HandJoins,
    floor: u8,
    kind: Kind,
    row: &SuitRow,
    hand: &Counts,
    melds: &Melds,
) -> u8
    requires melded { (k : ℕ) → k < 34 → tiles melds.now k ≤ 4 }
    requires joins { AreJoinsBeside kind hand.now melds.now joins.now }
    requires floor { SpecialLacks hand.now melds.now floor }
    requires row { IsRowAt hand.now melds.now kind row.now }
    ensures value { result ≡ distance_of hand.now melds.now }
    ensures few { result ≤ 14 }
{
    let melded = melds.count() as u8;
    let Some(standard) = joins.standard_with(kind, row, 4 - melded) else {
        unreachable!()
    };
    if standard <= floor {
        standard
    } else {
        standard.min(SpecialForms::new(hand, melds).distance())
    }
}

/// The shanten of so many tiles lacking.
pub(crate) fn shanten_at(distance: u8) -> i8
    requires { distance ≤ 14 }
    ensures { result ≡ pos distance -ℤ pos 1 }
{
    distance as i8 - 1
}

/// The distance of a hand by the rows of its suits.
fn distance_by(rows: &HandRows, hand: &Counts, melds: &Melds) -> u8
    requires melded { (k : ℕ) → k < 34 → tiles melds.now k ≤ 4 }
    requires rows { AreRowsOf hand.now melds.now rows.now }
    ensures value { result ≡ distance_of hand.now melds.now }
    ensures least { IsDistance hand.now melds.now result }
    ensures few { result ≤ 14 }
{
    let sets = 4 - melds.count() as u8;
    let standard = join_rows(rows, sets).unwrap_or(u8::MAX);
    standard.min(SpecialForms::new(hand, melds).distance())
}

/// One less than the distance: 0 for a ready hand, -1 for a complete one. It is the same by the rows
/// of any source, and asks for four of them.
pub fn shanten_with<R: RowSource>(source: &mut R, hand: &Counts, melds: &Melds) -> i8
    requires { (kind : ℕ) → kind < 34 → tiles melds.now kind ≤ 4 }
    ensures value { result ≡ shanten_of hand.now melds.now }

    // Some winning multiset lacks one tile more than this, and none lacks fewer.
    ensures reached { ShantenReached hand.now melds.now result }
    ensures none_less { NoneLacksLess hand.now melds.now result }
    ensures stays { source.new ≡ source.old }
{
    let rows = hand_rows_of(source, hand, &hand_caps_of(melds));
    shanten_at(distance_by(&rows, hand, melds))
}

/// The same by rows that are made anew.
pub fn shanten(hand: &Counts, melds: &Melds) -> i8
    requires { (kind : ℕ) → kind < 34 → tiles melds.now kind ≤ 4 }
    ensures value { result ≡ shanten_of hand.now melds.now }
    ensures reached { ShantenReached hand.now melds.now result }
    ensures none_less { NoneLacksLess hand.now melds.now result }
{
    shanten_with(&mut FreshRows, hand, melds)
}
