//! What a rank costs.

ghost use Rattle.std.specs.Prelude.{◌≡◌, ℕ, ◌≤◌};
ghost use Rattle.riichi_rows.specs.Costs.{AreCosts, IsCost};
ghost use Rattle.riichi_rows.specs.Open as table;

use crate::cost::Cost;
use crate::lanes::NONE;

/// By how many tiles of a rank are held; no cap is above four.
#[derive(Clone, Copy)]
pub struct Costs {
    pub zero: Cost,
    pub one: Cost,
    pub two: Cost,
    pub three: Cost,
    pub four: Cost,
}

#[inline(always)]
fn lacking_at(have: u8, limit: u8, used: u8) -> u8
    ensures { result ≡ table.cost have limit used }
{
    if used <= limit {
        used.saturating_sub(have)
    } else {
        NONE
    }
}

impl Costs {
    /// The costs of a rank that has so many tiles, and is marked by the bit.
    #[inline(always)]
    pub fn new(have: u8, limit: u8, bit: u8) -> Costs
        ensures { AreCosts have limit bit result }
    {
        Costs {
            zero: Cost::new(lacking_at(have, limit, 0), bit),
            one: Cost::new(lacking_at(have, limit, 1), bit),
            two: Cost::new(lacking_at(have, limit, 2), bit),
            three: Cost::new(lacking_at(have, limit, 3), bit),
            four: Cost::new(lacking_at(have, limit, 4), bit),
        }
    }

    /// What it costs to hold so many tiles.
    #[inline(always)]
    pub fn of(&self, used: u8) -> Cost
        requires { used ≤ 4 }
        ensures { (have limit bit : ℕ) → limit ≤ 4 → AreCosts have limit bit self.now
            → IsCost have limit bit used result }
    {
        match used {
            0 => self.zero,
            1 => self.one,
            2 => self.two,
            3 => self.three,
            _ => self.four,
        }
    }
}
