//! The values of the keys that are no notation, but for the flags.
ghost use Rattle.std.specs.Prelude.{◌≡◌};
ghost use Rattle.riichi_hand.specs.Values.{by_of, wind_of, riichi_of, number_of};

use crate::win::{By, Wind};
use riichi_tiles::is_digit;

pub(crate) fn read_by(value: &[u8]) -> Option<By>
    ensures { result ≡ by_of value.now }
{
    match value {
        b"ron" => Some(By::Ron),
        b"tsumo" => Some(By::Tsumo),
        _ => None,
    }
}

pub(crate) fn read_wind(value: &[u8]) -> Option<Wind>
    ensures { result ≡ wind_of value.now }
{
    match value {
        b"E" => Some(Wind::East),
        b"S" => Some(Wind::South),
        b"W" => Some(Wind::West),
        b"N" => Some(Wind::North),
        _ => None,
    }
}

pub(crate) fn read_riichi(value: &[u8]) -> Option<u8>
    ensures { result ≡ riichi_of value.now }
{
    match value {
        b"0" => Some(0),
        b"1" => Some(1),
        b"2" => Some(2),
        _ => None,
    }
}

/// One or two decimal digits.
pub(crate) fn read_number(value: &[u8]) -> Option<u8>
    ensures { result ≡ number_of value.now }
{
    match value {
        [ones] => if is_digit(*ones) {
            Some(*ones - b'0')
        } else {
            None
        },
        [tens, ones] => if is_digit(*tens) && is_digit(*ones) {
            Some(10 * (*tens - b'0') + (*ones - b'0'))
        } else {
            None
        },
        _ => None,
    }
}
