//! The greatest common divisor of two numbers.
ghost use Rattle.std.specs.Int.{IsGcd};

/// The greatest number that divides both, by Euclid's steps; of a number and 0 that number.
pub(crate) fn common_divisor(one: u128, other: u128) -> u128
    ensures { IsGcd one other result }
{
    let mut greater = one;
    let mut lesser = other;
    while lesser > 0 {
        let rest = greater % lesser;
        greater = lesser;
        lesser = rest;
    }
    greater
}
