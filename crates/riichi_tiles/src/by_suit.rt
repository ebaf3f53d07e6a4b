ghost use Rattle.std.specs.Prelude.{◌≡◌, ◌<◌, ◌^◌};
ghost use Rattle.riichi_tiles.specs.declared.suit.Suit.{Suit};
ghost use Rattle.riichi_tiles.specs.Suits.{of_suit, over_suits, with_suit};

use crate::suit::Suit;

/// Something for each suit.
#[derive(Clone, Copy, Debug, PartialEq, Eq)]
pub struct BySuit<T> {
    pub characters: T,
    pub circles: T,
    pub bamboos: T,
    pub honours: T,
}

impl<T: Copy> BySuit<T> {
    /// What a function makes of each suit.
    #[inline(always)]
    pub fn of<F: Fn(Suit) -> T>(f: F) -> BySuit<T>
        requires { F.IsAlwaysCallable f }
        ensures { (suit : Suit) → F.post f suit (of_suit result suit) }
    {
        BySuit {
            characters: f(Suit::Characters),
            circles: f(Suit::Circles),
            bamboos: f(Suit::Bamboos),
            honours: f(Suit::Honours),
        }
    }

    /// What a suit has.
    pub fn get(&self, suit: Suit) -> T
        ensures { result ≡ of_suit self.now suit }
    {
        *self.lent(suit)
    }

    /// The same but for one suit.
    pub fn with(&self, suit: Suit, value: T) -> BySuit<T>
        ensures { result ≡ with_suit self.now suit value }
    {
        let mut changed = *self;
        match suit {
            Suit::Characters => changed.characters = value,
            Suit::Circles => changed.circles = value,
            Suit::Bamboos => changed.bamboos = value,
            Suit::Honours => changed.honours = value,
        }
        changed
    }
}

impl<T> BySuit<T> {
    /// What a suit has, lent.
    pub fn lent(&self, suit: Suit) -> &T
        ensures { result.now ≡ of_suit self.now suit }
    {
        match suit {
            Suit::Characters => &self.characters,
            Suit::Circles => &self.circles,
            Suit::Bamboos => &self.bamboos,
            Suit::Honours => &self.honours,
        }
    }
}

impl BySuit<usize> {
    /// The numbers of the suits added up.
    pub fn total(&self) -> usize
        requires { over_suits (of_suit self.now) < 2 ^ 64 }
        ensures { result ≡ over_suits (of_suit self.now) }
    {
        self.characters + self.circles + self.bamboos + self.honours
    }
}
