//! The least sum of rows.
ghost use Rattle.riichi_rows.specs.Join.{IsLeastSum};
ghost use Rattle.riichi_rows.specs.Lanes.{lane};

use crate::lanes::Lanes;

/// The least sums of an entry of each.
pub(crate) fn join_lanes(left: Lanes, right: Lanes) -> Lanes
    ensures { IsLeastSum (lane left.lacks) (lane right.lacks) (lane result.lacks) }
{
    let lacks = left.lacks.to_array();
    let mut best = Lanes::none();
    let mut moved = right;
    for sets in 0..5 {
        let plain = moved.lacking(lacks[sets]);
        let paired = moved.with_pair().lacking(lacks[8 + sets]);
        best = best.or(plain).or(paired);
        moved = moved.with_set();
    }
    best
}
