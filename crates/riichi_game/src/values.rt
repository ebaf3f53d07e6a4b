//! What a hand is worth by its han and fu, or as a limit hand.
ghost use Rattle.std.specs.Prelude.{◌≡◌, ◌≤◌};
ghost use Rattle.riichi_game.specs.Values as spec;

use riichi_hand::{By, Rules, Switch, is_ron};
use riichi_score::base_points;
use riichi_table::Worth;

/// A limit hand, by its name.
#[derive(Clone, Copy, Debug, PartialEq, Eq)]
pub enum LimitHand {
    Mangan,
    Haneman,
    Baiman,
    Sanbaiman,
    /// Of so many limits of 8000 base points.
    Yakuman { limits: u8 },
}

/// What a hand of so many han and fu is worth, where some hand has so many.
pub fn counted_worth(rules: Rules, by: By, han: u8, fu: u8) -> Option<Worth>
    ensures { result ≡ spec.worth_of_han_and_fu rules by han fu }
{
    if occurs(rules, by, han, fu) {
        Some(Worth::Counted {
            base: base_points(rules, han, fu) as u16,
        })
    } else {
        None
    }
}

/// Whether some hand has so many han and fu: the fu are 25 or whole tens, and no smaller hand than a pinfu, seven pairs or the
/// pair of a double wind allows.
#[tactic(auto, unfolding(crate::specs::Values::occurs))]
pub fn occurs(rules: Rules, by: By, han: u8, fu: u8) -> bool
    ensures { result ≡ spec.occurs rules by han fu }
{
    han >= 1 && is_fu(han, fu) && !is_none(rules, by, han, fu)
}

fn is_fu(han: u8, fu: u8) -> bool
    ensures { result ≡ spec.is_fu han fu }
{
    let most = if han >= 4 { 140 } else { 110 };
    fu == 25 || (fu % 10 == 0 && fu >= 20 && fu <= most)
}

fn is_none(rules: Rules, by: By, han: u8, fu: u8) -> bool
    ensures { result ≡ spec.is_none rules by han fu }
{
    is_low_ron(rules, by, fu)
        || is_low_pairs(by, han, fu)
        || is_low_draw(by, han, fu)
        || lacks_double_wind(rules, han, fu)
}

fn is_low_ron(rules: Rules, by: By, fu: u8) -> bool
    ensures { result ≡ spec.is_low_ron rules by fu }
{
    is_ron(by) && fu == 20 && rules.has(Switch::OpenPinfuFu)
}

fn is_low_pairs(by: By, han: u8, fu: u8) -> bool
    ensures { result ≡ spec.is_low_pairs by han fu }
{
    fu == 25 && (han == 1 || (han == 2 && !is_ron(by)))
}

fn is_low_draw(by: By, han: u8, fu: u8) -> bool
    ensures { result ≡ spec.is_low_draw by han fu }
{
    han == 1 && !is_ron(by) && (fu == 20 || fu == 110)
}

fn lacks_double_wind(rules: Rules, han: u8, fu: u8) -> bool
    ensures { result ≡ spec.lacks_double_wind rules han fu }
{
    han == 1 && fu == 110 && !rules.has(Switch::DoubleWindPair)
}

/// How many limits a yakuman may have under the rules.
pub fn most_limits(rules: Rules) -> u8
    ensures { result ≡ spec.most_limits rules }
{
    let double = rules.has(Switch::DoubleYakuman);
    if rules.has(Switch::AddYakuman) {
        if double { 6 } else { 4 }
    } else if double {
        2
    } else {
        1
    }
}

/// Whether the rules have a yakuman of so many limits.
pub(crate) fn is_limits(rules: Rules, limits: u8) -> bool
    ensures { result ≡ spec.is_limits rules limits }
{
    limits >= 1 && limits <= most_limits(rules)
}

/// What a limit hand is worth, where the rules have so many limits.
pub fn limit_worth(rules: Rules, limit: LimitHand) -> Option<Worth>
    ensures { result ≡ spec.worth_of_limit rules limit }
{
    match limit {
        LimitHand::Mangan => Some(Worth::Counted { base: 2000 }),
        LimitHand::Haneman => Some(Worth::Counted { base: 3000 }),
        LimitHand::Baiman => Some(Worth::Counted { base: 4000 }),
        LimitHand::Sanbaiman => Some(Worth::Counted { base: 6000 }),
        LimitHand::Yakuman { limits } => {
            if is_limits(rules, limits) {
                Some(Worth::Yakuman { limits })
            } else {
                None
            }
        }
    }
}
