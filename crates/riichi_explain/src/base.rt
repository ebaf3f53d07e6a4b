//! How base points come from han and fu.
ghost use Rattle.std.specs.Prelude.{◌≡◌, ◌≤◌};
ghost use Rattle.riichi_yaku.specs.YakuSets.{is_yakuman};
ghost use Rattle.riichi_score.specs.Limits.{limits_of};
ghost use Rattle.riichi_explain.specs.Base as spec;

use riichi_hand::{Rules, Switch, WinRecord};
use riichi_score::{Score, is_raised, product_of, yakuman_limits};
use riichi_split::Reading;

/// A limit hand.
#[derive(Clone, Copy, Debug, PartialEq, Eq)]
pub enum Limit {
    Mangan,
    Haneman,
    Baiman,
    Sanbaiman,
    Yakuman,
}

/// What gives the base points.
#[derive(Clone, Copy, Debug, PartialEq, Eq)]
pub enum BaseRule {
    /// At most four han: the fu, doubled for each han and twice more.
    Product { product: u32 },
    /// Such a product above a mangan, which counts as one.
    Capped { product: u32 },
    /// Such a product that the rules raise to a mangan.
    Raised { product: u32 },
    /// Five han or more.
    Limited(Limit),
    /// A yakuman, which pays so many limits.
    OfYakuman { limits: u32 },
}

/// What gives the base points of a reading that has this score.
pub fn base_rule(reading: &Reading, score: &Score, win: &WinRecord) -> BaseRule
    ensures { result
        ≡ spec.base_rule (is_yakuman score.now.yaku) (limits_of reading.now win.now score.now.yaku)
        win.now.rules score.now.han score.now.fu }
{
    if score.yaku.is_yakuman() {
        BaseRule::OfYakuman {
            limits: yakuman_limits(reading, win, score.yaku),
        }
    } else {
        counted_rule(win.rules(), score.han, score.fu)
    }
}

fn counted_rule(rules: Rules, han: u8, fu: u8) -> BaseRule
    ensures value { result ≡ spec.counted_rule rules han fu }
{
    match han {
        0..=4 => low_rule(rules, han, fu),
        5 => BaseRule::Limited(Limit::Mangan),
        6..=7 => BaseRule::Limited(Limit::Haneman),
        8..=10 => BaseRule::Limited(Limit::Baiman),
        11..=12 => BaseRule::Limited(Limit::Sanbaiman),
        _ => BaseRule::Limited(most_limit(rules)),
    }
}

/// What 13 han and more are.
fn most_limit(rules: Rules) -> Limit
    ensures { result ≡ spec.most_limit rules }
{
    if rules.has(Switch::CountedYakuman) {
        Limit::Yakuman
    } else {
        Limit::Sanbaiman
    }
}

fn low_rule(rules: Rules, han: u8, fu: u8) -> BaseRule
    requires { han ≤ 4 }
    ensures value { result ≡ spec.low_rule rules han fu }
{
    let product = product_of(han, fu);
    if is_raised(rules, han, fu) {
        BaseRule::Raised { product }
    } else if product > 2000 {
        BaseRule::Capped { product }
    } else {
        BaseRule::Product { product }
    }
}
