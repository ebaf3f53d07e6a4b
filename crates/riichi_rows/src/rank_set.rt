//! Sets of ranks.
ghost use Rattle.std.specs.Int.{bit_at};
ghost use Rattle.std.specs.Prelude.{ℕ, ◌↔◌, ◌≡◌, ◌==◌, ◌<◌, IsTrue};
ghost use Rattle.riichi_rows.specs.Marks.{has_rank};

/// Ranks of a suit: the first, and a bit for each later one.
#[derive(Clone, Copy)]
pub struct RankSet {
    pub(crate) first: bool,
    pub(crate) later: u8,
}

impl RankSet {
    /// Whether a rank is in the set.
    pub fn contains(&self, rank: u8) -> bool
        requires { rank < 9 }
        ensures { IsTrue result ↔ IsTrue (has_rank self.now rank) }
    {
        if rank == 0 {
            self.first
        } else {
            self.later & (1 << (rank - 1)) > 0
        }
    }

    /// The ranks as a number: bit n is for rank n.
    pub fn bits(&self) -> u64
        ensures each { (rank : ℕ) → rank < 9 → (bit_at result rank == 1) ≡ has_rank self.now rank }
        ensures nine { result < 512 }
    {
        let first = if self.first { 1 } else { 0 };
        first + 2 * self.later as u64
    }
}
