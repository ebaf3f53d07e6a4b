//! The tiles of one suit, and what they can be cut into.
ghost use Rattle.std.specs.Prelude.{◌≡◌, ◌↔◌, ◌%◌, ◌==◌, ◌<◌, ◌≤◌, ℕ, IsTrue, true, length, slice_index, sum};
ghost use Rattle.std.specs.List.{list_all};
ghost use Rattle.riichi_tiles.specs.Kinds as kinds;
ghost use Rattle.riichi_split.specs.SuitTiles as spec;

use riichi_tiles::Suit;
use std::marker::Model;

/// How many tiles there are of each rank of a suit. Of the honours the last two ranks are empty, and
/// they make no runs.
#[derive(Clone, Copy)]
pub struct SuitTiles {
    pub held: [u8; 9],
    pub has_runs: bool,
}

impl Model for SuitTiles {
    ghost use Rattle.std.specs.Prelude.{◌≡◌, length};
    ghost use Rattle.riichi_split.specs.SuitTiles.{OneSuit};

    ghost Value = { OneSuit };

    ghost view = { λ t. record { held = t.held; has_runs = t.has_runs } };

    ghost invariant = { λ t. length t.held ≡ 9 };

    ghost inverse = { λ s. record { held = s.held; has_runs = s.has_runs } };
}

impl SuitTiles {
    /// The tiles of a suit in a hand.
    #[tactic(auto, using(crate::proofs::Filling::of_facts))]
    pub fn of(counts: &[u8; 34], suit: Suit) -> SuitTiles
        ensures { result ≡ spec.tiles_of_suit counts.now suit }
    {
        let mut held = [0; 9];
        for rank in 0..suit.kinds() {
            held[rank] = counts[suit.first() + rank];
        }
        SuitTiles {
            held,
            has_runs: has_runs(suit),
        }
    }

    /// How many tiles of a rank there are.
    pub fn get(&self, rank: usize) -> u8
        requires { rank < 9 }
        ensures value { result ≡ slice_index self.now.held rank }
        ensures nine { length self.now.held ≡ 9 }
    {
        self.held[rank]
    }

    /// One tile more.
    fn with(&self, rank: usize) -> SuitTiles
        requires rank { rank < 9 }
        requires room { slice_index self.now.held rank < 4 }
        ensures { result ≡ spec.with_tile self.now rank }
    {
        let mut more = *self;
        more.held[rank] += 1;
        more
    }

    fn without_pair(&self, rank: usize) -> SuitTiles
        requires rank { rank < 9 }
        requires pair { 2 ≤ slice_index self.now.held rank }
        ensures { result ≡ spec.without_pair self.now rank }
    {
        let mut fewer = *self;
        fewer.held[rank] -= 2;
        fewer
    }

    /// How many tiles there are.
    pub fn total(&self) -> u16
        ensures value { result ≡ sum self.now.held }
        ensures nine { length self.now.held ≡ 9 }
    {
        let mut total = 0u16;
        for held in &self.held {
            total += u16::from(*held);
        }
        total
    }

    /// What the sum of all numbers leaves over by three.
    pub fn third(&self) -> usize
        ensures value { result ≡ spec.third_of self.now.held }
        ensures nine { length self.now.held ≡ 9 }
    {
        let once = u16::from(self.held[1]) + u16::from(self.held[4]) + u16::from(self.held[7]);
        let twice = u16::from(self.held[2]) + u16::from(self.held[5]) + u16::from(self.held[8]);
        usize::from((once + 2 * twice) % 3)
    }

    /// Whether the tiles are triplets and runs. The three numbers of a set leave nothing over by three.
    #[tactic(auto, using(crate::proofs::SuitCuts::third_of_sets))]
    pub(crate) fn are_sets(&self) -> bool
        ensures { IsTrue result ↔ spec.AreSets self.now }
    {
        self.third() == 0 && self.can_be_cut()
    }

    fn can_be_cut(&self) -> bool
        ensures { IsTrue result ↔ spec.AreSets self.now }
    {
        if self.has_runs {
            self.are_triplets_and_runs()
        } else {
            are_triplets(&self.held)
        }
    }

    /// From the lowest rank on it is known what begins: three equal runs are three triplets.
    #[tactic(auto, using(crate::proofs::SuitCuts::cut_more))]
    fn are_triplets_and_runs(&self) -> bool
        requires { self.now.has_runs ≡ true }
        ensures { IsTrue result ↔ spec.AreSets self.now }
    {
        let (mut one, mut two) = (0u8, 0u8);
        for held in &self.held {
            let below = one + two;
            if *held < below {
                return false;
            }
            let begun = (*held - below) % 3;
            two = one;
            one = begun;
        }
        one == 0 && two == 0
    }

    /// Whether there is a pair of a rank, and the other tiles are sets.
    fn are_sets_beside(&self, rank: usize) -> bool
        requires { rank < 9 }
        ensures pair { IsTrue result ↔ spec.HasPairOf self.now rank }
        ensures nine { length self.now.held ≡ 9 }
    {
        self.held[rank] >= 2 && self.without_pair(rank).can_be_cut()
    }

    /// Whether the tiles are sets and a pair.
    fn are_sets_and_pair(&self) -> bool
        ensures { IsTrue result ↔ spec.AreSetsAndPair self.now }
    {
        self.are_sets_and_pair_by(self.third())
    }

    /// The same, where `third` is what the sum of all numbers leaves over by three. What the number
    /// of the pair's rank leaves over is twice as much, so that only every third rank can have the pair.
    fn are_sets_and_pair_by(&self, third: usize) -> bool
        requires { third ≡ spec.third_of self.now.held }
        ensures { IsTrue result ↔ spec.AreSetsAndPair self.now }
    {
        let first = 2 * third % 3;
        self.are_sets_beside(first)
            || self.are_sets_beside(first + 3)
            || self.are_sets_beside(first + 6)
    }

    /// Whether the tiles and one more of a rank are sets, where `third` is what the sum of all numbers
    /// leaves over without it.
    pub fn are_sets_with(&self, rank: usize, third: usize) -> bool
        requires rank { rank < 9 }
        requires room { slice_index self.now.held rank < 4 }
        requires third { third ≡ spec.third_of self.now.held }
        requires nine { length self.now.held ≡ 9 }
        ensures { IsTrue result ↔ spec.AreSets (spec.with_tile self.now rank) }
    {
        (third + rank) % 3 == 0 && self.with(rank).can_be_cut()
    }

    /// Whether the tiles and one more of a rank are sets and a pair.
    pub fn are_sets_and_pair_with(&self, rank: usize, third: usize) -> bool
        requires rank { rank < 9 }
        requires room { slice_index self.now.held rank < 4 }
        requires third { third ≡ spec.third_of self.now.held }
        ensures { IsTrue result ↔ spec.AreSetsAndPair (spec.with_tile self.now rank) }
    {
        self.with(rank).are_sets_and_pair_by((third + rank) % 3)
    }

    /// How many pairs the tiles are beside sets: none or one, and two where they are neither. Sets have
    /// tiles that leave nothing over by three, and a pair leaves two. A suit without tiles is no sets.
    #[inline(never)]
    #[tactic(auto, using(crate::proofs::SuitCuts::pairs_facts))]
    pub fn pairs(&self) -> usize
        ensures pairs { spec.HasPairs self.now result }
        ensures few { result ≤ 2 }
    {
        let total = self.total();
        if total == 0 {
            return 0;
        }
        match total % 3 {
            0 => if self.are_sets() { 0 } else { 2 },
            2 => if self.are_sets_and_pair() { 1 } else { 2 },
            _ => 2,
        }
    }
}

/// Whether there are triplets alone.
fn are_triplets(held: &[u8; 9]) -> bool
    ensures { result ≡ list_all (λ held. held % 3 == 0) held.now }
{
    held.iter().all(|held| *held % 3 == 0)
}

/// Whether runs are made of a suit.
fn has_runs(suit: Suit) -> bool
    ensures { result ≡ kinds.has_runs suit }
{
    match suit {
        Suit::Honours => false,
        _ => true,
    }
}
