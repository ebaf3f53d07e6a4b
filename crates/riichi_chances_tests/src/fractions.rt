//! Chances in lowest terms and in ten thousandths.
ghost use Rattle.std.specs.Prelude.{◌≡◌};

use crate::facts::same;
use riichi_chances::Fraction;

/// By 18 draws `123456789m1134p` wins in so many of all: found by plain Rust, in lowest terms by a second program.
const WINS: Fraction = Fraction {
    part: 8_191_184_964_652_972_845_875_385_563_922_432_000,
    whole: 11_232_051_764_969_661_433_600_305_709_228_032_000,
};

const LARGEST: u128 = u128::MAX;

/// A part of a whole.
fn of(part: u128, whole: u128) -> Fraction
    ensures part { result.part ≡ part }
    ensures whole { result.whole ≡ whole }
{
    Fraction { part, whole }
}

#[test]
fn lowest_terms(rt: HostRuntime) {
    same(&rt, WINS.reduced(), of(34_327_646, 47_071_321));
    same(&rt, of(0, 5).reduced(), of(0, 1));
    same(&rt, of(7, 7).reduced(), of(1, 1));
    same(&rt, of(8, 12).reduced(), of(2, 3));
    same(&rt, of(9, 6).reduced(), of(3, 2));
    same(&rt, of(LARGEST, LARGEST).reduced(), of(1, 1));
}

#[test]
fn nearest_decimal(rt: HostRuntime) {
    same(&rt, WINS.ten_thousandths(), 7_293);
    same(&rt, of(1, 3).ten_thousandths(), 3_333);
    same(&rt, of(2, 3).ten_thousandths(), 6_667);
    same(&rt, of(0, 9).ten_thousandths(), 0);
    same(&rt, of(9, 9).ten_thousandths(), 10_000);
    // half of a ten thousandth, and a little less
    same(&rt, of(1, 20_000).ten_thousandths(), 1);
    same(&rt, of(1, 20_001).ten_thousandths(), 0);
    same(&rt, of(LARGEST - 1, LARGEST).ten_thousandths(), 10_000);
}
