//! What a hand costs.
ghost use Rattle.std.specs.Prelude.{◌≡◌, ◌≤◌};
ghost use Rattle.riichi_settle.specs.Prices as spec;

use riichi_score::up;
use riichi_table::Worth;

/// What a discard costs: four times the base points, to the dealer six times.
pub(crate) fn ron_price(worth: Worth, dealer: bool) -> u32
    ensures value { result ≡ spec.ron_price worth dealer }
    ensures most { result ≤ 13000000 }
{
    times_base(if dealer { 6 } else { 4 }, worth)
}

/// What one player pays for a self-draw, where `dealer` says that the winner is dealer, or that this payer is.
pub(crate) fn tsumo_price(worth: Worth, dealer: bool) -> u32
    ensures value { result ≡ spec.tsumo_price worth dealer }
    ensures most { result ≤ 13000000 }
{
    times_base(if dealer { 2 } else { 1 }, worth)
}

/// So many times the base points, rounded up to a hundred.
#[tactic(auto, unfolding(crate::specs::Prices::times_base), using(crate::proofs::Hundreds::limits_are_hundreds))]
fn times_base(number: u32, worth: Worth) -> u32
    requires { number ≤ 6 }
    ensures value { result ≡ spec.times_base number worth }
    ensures most { result ≤ 13000000 }
{
    match worth {
        Worth::Counted { base } => up(number * u32::from(base)),
        Worth::Yakuman { limits } => number * (8000 * u32::from(limits)),
    }
}
