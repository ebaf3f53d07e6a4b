//! Sets of ranks.
ghost use Rattle.std.specs.Prelude.{◌≡◌, ◌<◌};
ghost use Rattle.riichi_tiles.specs.HeldKinds.{with_kind};

use std::marker::Model;

/// Ranks of a suit, seen as the number whose bit n says that rank n is among them, as kinds are in a `KindSet`.
#[derive(Clone, Copy, Debug, PartialEq, Eq)]
pub struct Ranks {
    bits: u16,
}

impl Model for Ranks {
    ghost use Rattle.std.specs.Prelude.{ℕ, ◌<◌, ◌^◌};

    ghost Value = { ℕ };

    ghost view = { λ ranks. ranks.bits };

    ghost invariant = { λ ranks. ranks.bits < 2 ^ 9 };

    ghost inverse = { λ n. record { bits = n } };
}

impl Ranks {
    /// No rank.
    pub fn new() -> Ranks
        ensures { result ≡ 0 }
    {
        Ranks { bits: 0 }
    }

    /// Puts a rank among them; one that is there stays.
    #[tactic(auto, unfolding(riichi_tiles::specs::HeldKinds::with_kind))]
    pub fn insert(&mut self, rank: usize)
        requires { rank < 9 }
        ensures { self.new ≡ with_kind self.old rank }
    {
        self.bits |= 1 << rank;
    }

    /// The bits themselves.
    pub fn bits(self) -> u64
        ensures value { result ≡ self }
        ensures nine { self < 512 }
    {
        u64::from(self.bits)
    }
}
