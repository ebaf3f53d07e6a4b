//! What the melds leave of each kind of a suit.
ghost use Rattle.std.specs.Prelude.{ℕ, ◌≤◌, slice_index};

/// How many of each kind of a suit a winning multiset may hold beside the melds.
#[derive(Clone, Copy)]
pub(crate) struct SuitCaps {
    pub(crate) left: [u8; 9],
    ghost few: { (rank : ℕ) → slice_index left rank ≤ 4 },
}
