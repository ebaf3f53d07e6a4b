//! What a hand is to reach.
ghost use Rattle.std.specs.Prelude.{ℕ, ◌≡◌, ◌-ℤ◌, nat_le, pos};

/// What a hand of thirteen tiles is to reach.
#[derive(Clone, Copy, Debug, PartialEq, Eq)]
pub enum Goal {
    /// To lack one tile.
    Ready,
    /// To lack none, by a tile that the player draws.
    Win,
}

/// Whether a hand of this shanten is ready.
pub(crate) fn is_ready(shanten: i8) -> bool
    ensures { (lack : ℕ) → shanten ≡ pos lack -ℤ pos 1 → result ≡ nat_le lack 1 }
{
    shanten <= 0
}

/// Whether a hand of this shanten is won.
pub fn is_won(shanten: i8) -> bool
    ensures { (lack : ℕ) → shanten ≡ pos lack -ℤ pos 1 → result ≡ nat_le lack 0 }
{
    shanten < 0
}
