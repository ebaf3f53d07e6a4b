//! Places for points.
ghost use Rattle.std.specs.Prelude.{◌≡◌, ◌<◌, slice_index};

use crate::points::Points;
use std::marker::Model;

/// A place that is lent for the points of a hand: for each number of turns that may be left, those of all draws.
#[derive(Clone, Copy)]
#[repr(C)]
pub struct WorthRow {
    pub(crate) points: [Points; 19],
}

impl Model for WorthRow {
    ghost use Rattle.riichi_worth.specs.PointRows.{PointRow};

    ghost Value = { PointRow };

    ghost view = { λ row. record { points = row.points } };

    ghost inverse = { λ row. record { points = row.points } };
}

impl WorthRow {
    /// A place where nothing stands yet.
    pub fn free() -> WorthRow {
        WorthRow {
            points: [Points::NONE; 19],
        }
    }

    /// The points where so many turns are left.
    pub(crate) fn at(&self, left: u8) -> Points
        requires { left < 19 }
        ensures { result ≡ slice_index self.now.points left }
    {
        self.points[left as usize]
    }
}
