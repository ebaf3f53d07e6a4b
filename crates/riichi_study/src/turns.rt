//! How many turns are to come.
ghost use Rattle.std.specs.Prelude.{◌≡◌, ◌≤◌};

use riichi_tiles::is_digit;
use std::marker::Model;

/// How many turns are to come: one at least, and no more than a player of four has in a deal.
#[derive(Clone, Copy, Debug, PartialEq, Eq)]
pub struct Turns {
    count: u8,
}

impl Model for Turns {
    ghost use Rattle.std.specs.Prelude.{ℕ, ◌≤◌};

    ghost Value = { ℕ };

    ghost view = { λ t. t.count };

    ghost invariant = { λ t. (1 ≤ t.count) × (t.count ≤ 18) };

    ghost inverse = { λ n. record { count = n } };
}

impl Turns {
    ghost use Rattle.riichi_study.specs.Values.{turns_named, turns_of};

    /// So many, where there can be as many.
    pub fn new(count: u8) -> Option<Turns>
        ensures { result ≡ turns_of count }
    {
        if 1 <= count && count <= 18 {
            Some(Turns { count })
        } else {
            None
        }
    }

    /// Their number.
    pub fn count(self) -> u8
        ensures value { result ≡ self }
        ensures some { 1 ≤ result }
        ensures most { result ≤ 18 }
    {
        self.count
    }

    /// One or two decimal digits.
    pub(crate) fn read(value: &[u8]) -> Option<Turns>
        ensures { result ≡ turns_named value.now }
    {
        match value {
            [ones] => if is_digit(*ones) {
                Turns::new(*ones - b'0')
            } else {
                None
            },
            [tens, ones] => if is_digit(*tens) && is_digit(*ones) {
                Turns::new(10 * (*tens - b'0') + (*ones - b'0'))
            } else {
                None
            },
            _ => None,
        }
    }
}
