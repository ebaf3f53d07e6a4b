//! What is paid for a win.
ghost use Rattle.std.specs.Prelude.{◌≡◌, ◌+◌, ◌≤◌};
ghost use Rattle.riichi_score.specs.Payment as spec;

use crate::payers::Payment;
use riichi_hand::{By, WinRecord};

/// What is paid for a win of so many base points: East is the dealer, and each counter adds 300 points in all.
pub fn payment(base: u32, win: &WinRecord) -> Payment
    requires { base ≤ 800000 }
    ensures value { result ≡ spec.payment_of base win.now }
    ensures most { spec.paid result ≤ 5000000 }
{
    paid_for(base, win.by(), win.seat().is_dealer(), win.counters())
}

/// The same, by how it was won, whether the winner is the dealer, and how many counters lie.
pub fn paid_for(base: u32, by: By, dealer: bool, counters: u8) -> Payment
    requires { base ≤ 800000 }
    ensures value { result ≡ spec.paid_for base by dealer counters }
    ensures most { spec.paid result ≤ 5000000 }
{
    match by {
        By::Ron => by_ron(base, dealer, counters),
        By::Tsumo => by_tsumo(base, dealer, counters),
    }
}

fn by_ron(base: u32, dealer: bool, counters: u8) -> Payment
    requires { base ≤ 800000 }
    ensures value { result ≡ spec.by_ron base dealer counters }
    ensures most { spec.paid result ≤ 5000000 }
{
    let times = if dealer { 6 } else { 4 };
    Payment::Ron {
        points: up(times * base) + 300 * u32::from(counters),
    }
}

fn by_tsumo(base: u32, dealer: bool, counters: u8) -> Payment
    requires { base ≤ 800000 }
    ensures value { result ≡ spec.by_tsumo base dealer counters }
    ensures most { spec.paid result ≤ 5000000 }
{
    let counters = 100 * u32::from(counters);
    let double = up(2 * base) + counters;
    if dealer {
        Payment::DealerTsumo { each: double }
    } else {
        Payment::Tsumo {
            other: up(base) + counters,
            dealer: double,
        }
    }
}

/// Rounded up to the next hundred.
pub fn up(points: u32) -> u32
    requires { points ≤ 4800000 }
    ensures value { result ≡ spec.up points }
    ensures most { result ≤ points + 99 }
{
    (points + 99) / 100 * 100
}
