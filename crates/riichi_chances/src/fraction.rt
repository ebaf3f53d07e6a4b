//! A part of a whole.
ghost use Rattle.std.specs.Prelude.{◌≡◌, ◌+◌, ◌*◌, ◌<◌, ◌≤◌};
ghost use Rattle.riichi_chances.specs.Fractions as spec;

use crate::divisor::common_divisor;

/// A part of a whole, as some draws of all draws are a chance.
#[derive(Clone, Copy, Debug, PartialEq, Eq)]
pub struct Fraction {
    pub part: u128,
    pub whole: u128,
}

impl Fraction {
    /// The same in lowest terms.
    pub fn reduced(self) -> Fraction
        requires { 0 < self.whole }
        ensures value { result ≡ spec.in_lowest_terms self }
        ensures reduced { spec.IsReduced self result }
    {
        let divisor = common_divisor(self.part, self.whole);
        Fraction {
            part: self.part / divisor,
            whole: self.whole / divisor,
        }
    }

    /// How many ten thousandths it is: the nearest number, and of two the greater.
    pub fn ten_thousandths(self) -> u16
        requires part { self.part ≤ self.whole }
        requires some { 0 < self.whole }
        ensures value { result ≡ spec.nearest self }
        ensures nearest { spec.IsNearest self result }
        ensures few { result ≤ 10000 }
    {
        let mut number = (self.part / self.whole) as u16;
        let mut rest = self.part % self.whole;
        for _ in 0..4u8 {
            let (digit, left) = next_digit(rest, self.whole);
            number = 10 * number + digit;
            rest = left;
        }
        if rest < self.whole - rest {
            number
        } else {
            number + 1
        }
    }
}

/// How often the whole is in ten times a rest, and what is left then. Ten times the rest may be beyond every number.
fn next_digit(rest: u128, whole: u128) -> (u16, u128)
    requires { rest < whole }
    ensures all { 10 * rest ≡ result.0 * whole + result.1 }
    ensures left { result.1 < whole }
    ensures few { result.0 ≤ 10 }
{
    let mut digit = 0;
    let mut left = 0;
    for _ in 0..10u8 {
        if left < whole - rest {
            left += rest;
        } else {
            left -= whole - rest;
            digit += 1;
        }
    }
    (digit, left)
}
