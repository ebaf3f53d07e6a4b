//! The turns that are to come, and numbers of draws for them.
ghost use Rattle.std.specs.Prelude.{◌≡◌, ◌≤◌};
ghost use Rattle.riichi_chances.specs.Numbers as spec;

use crate::halves::Halves;

/// The most turns that are looked at. A player of four draws no more in a deal.
pub const MOST_TURNS: u8 = 18;

/// At each place the number of draws where so many turns are left.
pub type ByTurns = [Halves; 19];

/// The turns that are to come, and how many tiles are unseen before the first of them.
#[derive(Clone, Copy)]
pub struct Span {
    pub unseen: u8,
    pub turns: u8,
}

impl Span {
    /// How many tiles are unseen where so many turns are left.
    pub fn unseen_at(self, left: u8) -> u8
        ensures { result ≡ spec.unseen_at self left }
    {
        self.unseen.saturating_sub(self.turns.saturating_sub(left))
    }

    /// All draws of the turns that are left.
    pub fn all_draws(self) -> ByTurns
        requires turns { self.turns ≤ 18 }
        requires unseen { self.unseen ≤ 136 }
        ensures { spec.AreAllDraws self result }
    {
        let mut all = [Halves::of(1); 19];
        for left in 0..self.turns {
            let unseen = self.unseen_at(left + 1) as u128;
            let later = all[left as usize].number();
            all[left as usize + 1] = Halves::of(unseen * later);
        }
        all
    }
}
