//! The rows of the table of payments.
ghost use Rattle.std.specs.Prelude.{◌≡◌, ◌≤◌, ◌<◌};
ghost use Rattle.riichi_need.specs.Rows as spec;

use riichi_game::{LimitHand, occurs};
use riichi_hand::{By, Rules};
use riichi_score::base_points;

/// The fu that a hand may have; no hand has any other.
pub const ALL_FU: [u8; 14] = [20, 25, 30, 40, 50, 60, 70, 80, 90, 100, 110, 120, 130, 140];

/// Whether there is a hand of so many han and fu, and it has these base points.
pub fn pays_so(rules: Rules, by: By, base: u32, han: u8, fu: u8) -> bool
    ensures { result ≡ spec.pays_so rules by base han fu }
{
    occurs(rules, by, han, fu) && base_points(rules, han, fu) == base
}

/// The limit hand, up to one yakuman, that has these base points.
pub fn limit_of(base: u32) -> Option<LimitHand>
    ensures { result ≡ spec.limit_of base }
{
    match base {
        2000 => Some(LimitHand::Mangan),
        3000 => Some(LimitHand::Haneman),
        4000 => Some(LimitHand::Baiman),
        6000 => Some(LimitHand::Sanbaiman),
        8000 => Some(LimitHand::Yakuman { limits: 1 }),
        _ => None,
    }
}
