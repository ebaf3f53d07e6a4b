//! A number of points.
ghost use Rattle.std.specs.Prelude.{◌≡◌, ◌+◌, ◌*◌, ◌/◌, ◌%◌, ◌^◌, ◌<◌, ◌≤◌, max, nat_lt};

use std::marker::Model;

/// 2 to the 64.
const WHOLE: u128 = 18_446_744_073_709_551_616;

/// All points that all draws of so many tiles bring together may be beyond a number of 128 bits. So they have three parts of 64, which
/// other languages lend too.
#[derive(Clone, Copy)]
#[repr(C)]
pub struct Points {
    low: u64,
    middle: u64,
    high: u64,
}

impl Model for Points {
    ghost use Rattle.std.specs.Prelude.{ℕ, ◌+◌, ◌*◌, ◌/◌, ◌%◌, ◌<◌};
    ghost use Rattle.riichi_worth.specs.Points.{parts_back};

    ghost Value = { ℕ };

    ghost view = { λ points. points.low + points.middle * 18446744073709551616 + points.high * 340282366920938463463374607431768211456 };

    ghost invariant = { λ points. (points.low < 18446744073709551616) × (points.middle < 18446744073709551616) };

    ghost inverse = { λ number. record {
      low = number % 18446744073709551616;
      middle = number / 18446744073709551616 % 18446744073709551616;
      high = number / 340282366920938463463374607431768211456;
    } };

    ghost inverse_ok = { λ points small. parts_back points small.0 small.1 };
}

impl Points {
    pub(crate) const NONE: Points = Points {
        low: 0,
        middle: 0,
        high: 0,
    };

    /// So many.
    pub(crate) fn of(number: u128) -> Points
        ensures { result ≡ number }
    {
        Points {
            low: (number % WHOLE) as u64,
            middle: (number / WHOLE) as u64,
            high: 0,
        }
    }

    /// With so many times others.
    pub(crate) fn plus_times(self, times: u64, other: Points) -> Points
        requires { self + times * other < 2 ^ 192 }
        ensures { result ≡ self + times * other }
    {
        let times = times as u128;
        let low = self.low as u128 + times * other.low as u128;
        let middle = self.middle as u128 + times * other.middle as u128 + low / WHOLE;
        let high = self.high as u128 + times * other.high as u128 + middle / WHOLE;
        Points {
            low: (low % WHOLE) as u64,
            middle: (middle % WHOLE) as u64,
            high: high as u64,
        }
    }

    /// Whether they are fewer than others.
    pub(crate) fn is_less(self, other: Points) -> bool
        ensures { result ≡ nat_lt self other }
    {
        if self.high != other.high {
            self.high < other.high
        } else if self.middle != other.middle {
            self.middle < other.middle
        } else {
            self.low < other.low
        }
    }

    /// The greater of both.
    pub(crate) fn max(self, other: Points) -> Points
        ensures { result ≡ max self other }
    {
        if self.is_less(other) { other } else { self }
    }

    /// How often they have a whole, and what is left then.
    pub(crate) fn divided(self, whole: u128) -> (u32, u128)
        requires some { 0 < whole }
        requires few { self < 2 ^ 23 * whole }
        ensures { result ≡ (self / whole, self % whole) }
    {
        let mut times = 0u32;
        let mut rest = self;
        for step in 0..23u8 {
            let bit = 1u32 << (22 - step);
            let part = Points::NONE.plus_times(u64::from(bit), Points::of(whole));
            if !rest.is_less(part) {
                times += bit;
                rest = rest.minus(part);
            }
        }
        (times, rest.low as u128 + rest.middle as u128 * WHOLE)
    }

    /// Without others, which are no more.
    fn minus(self, other: Points) -> Points
        requires { other ≤ self }
        ensures { result + other ≡ self }
    {
        let low = WHOLE + self.low as u128 - other.low as u128;
        let middle = WHOLE - 1 + low / WHOLE + self.middle as u128 - other.middle as u128;
        let high = self.high as u128 + middle / WHOLE - 1 - other.high as u128;
        Points {
            low: (low % WHOLE) as u64,
            middle: (middle % WHOLE) as u64,
            high: high as u64,
        }
    }
}
