//! What a row is kept under.
ghost use Rattle.std.specs.Prelude.{ℕ, ◌≡◌, ◌<◌, ◌≤◌, ◌∷◌, IsTrue, drop, slice_index};
ghost use Rattle.std.proofs.Common.{rules};
ghost use Rattle.std.specs.Hash as fed;
ghost use Rattle.std.specs.Cmp.Rules.{hashing};

use std::hash::{Hash, Hasher};

/// The counts and caps of a suit, and whether it has runs: all that its row depends on.
#[derive(Clone, Copy, Debug, PartialEq, Eq)]
pub(crate) struct RowKey {
    pub(crate) counts: [u8; 9],
    pub(crate) caps: [u8; 9],
    pub(crate) runs: bool,
}

impl Hash for RowKey {
    ghost hash_input = { λ key. key.counts ∷ key.caps ∷ fed.bool key.runs };

    ghost respects_eq = { Prim.search (hashing, rules) };

    // Each list of nine at once: rank by rank, a hash would cost as much as a row.
    fn hash<H: Hasher>(&self, state: &mut H) {
        state.write(&self.counts);
        state.write(&self.caps);
        self.runs.hash(state);
    }
}

/// Whether nine numbers are the same: eight at once.
#[inline(always)]
fn are_same(some: &[u8; 9], others: &[u8; 9]) -> bool
    ensures { IsTrue result → some.now ≡ others.now }
{
    let [a, b, c, d, e, f, g, h, last] = *some;
    let [i, j, k, l, m, n, o, p, other_last] = *others;
    let first = u64::from_le_bytes([a, b, c, d, e, f, g, h]);
    let other_first = u64::from_le_bytes([i, j, k, l, m, n, o, p]);
    first == other_first && last == other_last
}

/// The ranks from the fifth on, and 0 for those before.
#[inline(always)]
fn from_fifth(ranks: &[u8; 9]) -> [u8; 9]
    ensures same { drop 4 result ≡ drop 4 ranks.now }
    ensures few { ((r : ℕ) → r < 9 → slice_index ranks.now r ≤ 4)
        → (r : ℕ) → r < 9 → slice_index result r ≤ 4 }
{
    let [_, _, _, _, fifth, sixth, seventh, eighth, ninth] = *ranks;
    [0, 0, 0, 0, fifth, sixth, seventh, eighth, ninth]
}

impl RowKey {
    /// The key of its upper ranks alone.
    #[inline(always)]
    pub(crate) fn upper(&self) -> RowKey
        ensures counts { drop 4 result.counts ≡ drop 4 self.now.counts }
        ensures caps { drop 4 result.caps ≡ drop 4 self.now.caps }
        ensures runs { result.runs ≡ self.now.runs }
        ensures few { ((r : ℕ) → r < 9 → slice_index self.now.caps r ≤ 4)
            → (r : ℕ) → r < 9 → slice_index result.caps r ≤ 4 }
    {
        RowKey {
            counts: from_fifth(&self.counts),
            caps: from_fifth(&self.caps),
            runs: self.runs,
        }
    }

    #[inline(always)]
    pub(crate) fn new(counts: &[u8; 9], caps: &[u8; 9], runs: bool) -> RowKey
        ensures { result ≡ record { counts = counts.now; caps = caps.now; runs = runs } }
    {
        RowKey {
            counts: *counts,
            caps: *caps,
            runs,
        }
    }

    /// Whether it is the same key.
    #[inline(always)]
    pub(crate) fn is(&self, other: &RowKey) -> bool
        ensures { IsTrue result → self.now ≡ other.now }
    {
        self.runs == other.runs
            && are_same(&self.counts, &other.counts)
            && are_same(&self.caps, &other.caps)
    }
}
