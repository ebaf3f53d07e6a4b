//! A win as a row, and the parts that it says.
ghost use Rattle.std.specs.Prelude.{◌≡◌};
ghost use Rattle.riichi_arrays.specs.Hands.{counts_in};
ghost use Rattle.riichi_win_arrays.specs.WinRows as spec;

use crate::indicators::indicators_in;
use riichi_arrays::{counts_in, melds_in};
use riichi_hand::{By, Flags, Rules, WinParts, Wind};
use riichi_tiles::{Kind, Reds};

/// A win as a row of bytes. A flag is set where its byte isn't 0.
#[repr(C)]
#[derive(Clone, Copy, Debug, PartialEq, Eq)]
pub struct WinRow {
    /// How many tiles of each kind are concealed, without the winning tile.
    pub concealed: [u8; 34],
    /// The melds, as a row of melds has them.
    pub melds: [u8; 4],
    /// The kind of the winning tile.
    pub winning: u8,
    /// 0 by ron, 1 by self-draw.
    pub by: u8,
    /// The winner's wind: 0 East, who is the dealer, 1 South, 2 West, 3 North.
    pub seat: u8,
    /// The prevalent wind.
    pub round: u8,
    /// 1 for riichi, 2 for double riichi.
    pub riichi: u8,
    pub ippatsu: u8,
    pub rinshan: u8,
    pub chankan: u8,
    pub last: u8,
    pub first: u8,
    pub counters: u8,
    pub sticks: u8,
    /// The red fives of the characters, circles and bamboos among hand, melds and winning tile.
    pub reds: [u8; 3],
    /// The dora indicators, of each one more than its kind; 0 for none.
    pub dora: [u8; 5],
    /// The indicators under them.
    pub ura: [u8; 5],
    /// Always 0.
    pub zero: u8,
}

impl WinRow {
    /// The parts of the win, none where a byte says nothing.
    pub fn parts(&self, rules: Rules) -> Option<WinParts>
        ensures { result ≡ spec.parts_in_row rules self.now }
    {
        if self.zero != 0 {
            return None;
        }
        Some(WinParts {
            rules: rules,
            concealed: counts_in(&self.concealed)?,
            melds: melds_in(&self.melds)?,
            winning: Kind::new(self.winning)?,
            by: self.won_by()?,
            seat: wind_in(self.seat)?,
            round: wind_in(self.round)?,
            riichi: self.riichi,
            flags: self.flags(),
            dora: indicators_in(&self.dora)?,
            ura: indicators_in(&self.ura)?,
            counters: self.counters,
            sticks: self.sticks,
            reds: reds_in(&self.reds)?,
        })
    }

    /// How it was won, none where the byte says nothing.
    fn won_by(&self) -> Option<By>
        ensures { result ≡ spec.by_in self.now.by }
    {
        by_in(u32::from(self.by))
    }

    fn flags(&self) -> Flags
        ensures { result ≡ spec.flags_set self.now }
    {
        Flags {
            ippatsu: self.ippatsu != 0,
            rinshan: self.rinshan != 0,
            chankan: self.chankan != 0,
            last: self.last != 0,
            first: self.first != 0,
        }
    }
}

/// How a hand is won, by the number.
pub fn by_in(number: u32) -> Option<By>
    ensures { result ≡ spec.by_in number }
{
    match number {
        0 => Some(By::Ron),
        1 => Some(By::Tsumo),
        _ => None,
    }
}

/// The wind of a number, from 0 for East on.
pub fn wind_in(byte: u8) -> Option<Wind>
    ensures { result ≡ spec.wind_in byte }
{
    match byte {
        0 => Some(Wind::East),
        1 => Some(Wind::South),
        2 => Some(Wind::West),
        3 => Some(Wind::North),
        _ => None,
    }
}

fn reds_in(bytes: &[u8; 3]) -> Option<Reds>
    ensures { result ≡ counts_in bytes.now }
{
    let [characters, circles, bamboos] = *bytes;
    Reds::new(characters, circles, bamboos)
}
