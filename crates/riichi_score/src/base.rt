//! Han and base points.
ghost use Rattle.std.specs.Prelude.{◌≡◌, ◌+◌, ◌≤◌};
ghost use Rattle.riichi_yaku.specs.YakuSets.{han_of};
ghost use Rattle.riichi_score.specs.Base as spec;

use riichi_hand::{Rules, Switch};
use riichi_yaku::YakuSet;

/// The han of a counted hand: those of its set of yaku, and the dora.
pub fn han(yaku: YakuSet, concealed: bool, dora: u8) -> u8
    requires { dora ≤ 100 }
    ensures { result ≡ han_of yaku concealed + dora }
{
    yaku.han(concealed) + dora
}

/// The base points of a counted hand. The rules say whether four han 30 fu and three han 60 fu are raised to 2000, and whether
/// 13 han are a yakuman.
pub fn base_points(rules: Rules, han: u8, fu: u8) -> u32
    ensures value { result ≡ spec.base_of rules han fu }
    ensures most { result ≤ 8000 }
{
    match han {
        0..=4 => low_base(rules, han, fu),
        5 => 2000,
        6..=7 => 3000,
        8..=10 => 4000,
        11..=12 => 6000,
        _ => most_base(rules),
    }
}

/// The base points of 13 han and more.
fn most_base(rules: Rules) -> u32
    ensures { result ≡ spec.most_base rules }
{
    if rules.has(Switch::CountedYakuman) {
        8000
    } else {
        6000
    }
}

/// The base points of at most four han.
fn low_base(rules: Rules, han: u8, fu: u8) -> u32
    requires { han ≤ 4 }
    ensures value { result ≡ spec.low_base rules han fu }
    ensures most { result ≤ 2000 }
{
    if is_raised(rules, han, fu) {
        return 2000;
    }
    product_of(han, fu).min(2000)
}

/// The fu, doubled for each han and twice more.
pub fn product_of(han: u8, fu: u8) -> u32
    requires { han ≤ 4 }
    ensures { result ≡ spec.product_of han fu }
{
    let factor = match han {
        0 => 4,
        1 => 8,
        2 => 16,
        3 => 32,
        _ => 64,
    };
    u32::from(fu) * factor
}

/// Whether the rules raise so many han and fu to a mangan.
pub fn is_raised(rules: Rules, han: u8, fu: u8) -> bool
    ensures { result ≡ spec.is_raised rules han fu }
{
    rules.has(Switch::Raise) && ((han == 4 && fu == 30) || (han == 3 && fu == 60))
}
