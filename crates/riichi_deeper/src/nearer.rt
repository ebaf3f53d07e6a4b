//! Shanten compared: it is one less than the tiles that a hand lacks.
ghost use Rattle.std.specs.Prelude.{ℕ, ◌≡◌, pos, ◌-ℤ◌, max, nat_lt};

/// Whether a hand of this shanten lacks more than one tile, so that it isn't ready.
pub(crate) fn is_far(shanten: i8) -> bool
    ensures { (lack : ℕ) → shanten ≡ pos lack -ℤ pos 1 → result ≡ nat_lt 1 lack }
{
    shanten > 0
}

/// Whether a best discard of fourteen tiles of this shanten leaves fewer tiles lacking than a hand lacked before. A complete
/// hand lacks one after any discard.
pub(crate) fn is_nearer(after: i8, before: i8) -> bool
    ensures { (lack less : ℕ) → after ≡ pos less -ℤ pos 1 → before ≡ pos lack -ℤ pos 1
        → result ≡ nat_lt (max less 1) lack }
{
    is_far(before) & (after < before)
}
