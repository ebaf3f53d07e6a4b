//! A number of 128 bits in two halves.
ghost use Rattle.std.specs.Prelude.{◌≡◌};

use std::marker::Model;

/// 2 to the 64.
const WHOLE: u128 = 18_446_744_073_709_551_616;

/// A number in two halves: no other language lends one of 128 bits.
#[derive(Clone, Copy)]
#[repr(C)]
pub struct Halves {
    low: u64,
    high: u64,
}

impl Model for Halves {
    ghost use Rattle.std.specs.Prelude.{ℕ, ◌+◌, ◌*◌, ◌/◌, ◌%◌, ◌<◌};
    ghost use Rattle.riichi_chances.specs.Halves.{halves_back};

    ghost Value = { ℕ };

    ghost view = { λ halves. halves.low + halves.high * 18446744073709551616 };

    ghost invariant = { λ halves. halves.low < 18446744073709551616 };

    ghost inverse = { λ number. record {
      low = number % 18446744073709551616;
      high = number / 18446744073709551616;
    } };

    ghost inverse_ok = { λ halves small. halves_back halves small };
}

impl Halves {
    pub fn of(number: u128) -> Halves
        ensures { result ≡ number }
    {
        Halves {
            low: (number % WHOLE) as u64,
            high: (number / WHOLE) as u64,
        }
    }

    pub fn number(self) -> u128
        ensures { result ≡ self }
    {
        self.low as u128 + self.high as u128 * WHOLE
    }
}
