//! The kinds that complete sets and a pair, from what each suit is beside them.
ghost use Rattle.std.specs.Prelude.{◌≡◌, ◌↔◌, ◌+◌, ◌*◌, ◌<◌, ◌≤◌, ℕ, IsTrue, length, slice_index, sum};
ghost use Rattle.riichi_tiles.specs.Kinds.{first_of, kinds_of};
ghost use Rattle.riichi_tiles.specs.Suits.{of_suit};
ghost use Rattle.riichi_tiles.specs.HeldKinds.{IsMarked};
ghost use Rattle.riichi_split.specs.SuitTiles as spec;
ghost use Rattle.riichi_split.specs.Waits.{with_one};
ghost use Rattle.riichi_split.specs.Winning.{HasSplit};

use crate::suit_tiles::SuitTiles;
use riichi_tiles::{BySuit, Kind, KindSet, Suit};

/// The four suits of a hand.
#[derive(Clone, Copy)]
struct Suits {
    tiles: BySuit<SuitTiles>,
    // How many pairs each suit is beside sets.
    pairs: BySuit<usize>,
}

impl Suits {
    fn of(counts: &[u8; 34]) -> Suits
        ensures tiles { result.tiles ≡ spec.suits_of counts.now }
        ensures counted { spec.AreCounted result.tiles result.pairs }
    {
        let tiles = BySuit::of(|suit| SuitTiles::of(counts, suit));
        Suits {
            tiles,
            pairs: BySuit::of(|suit| tiles.lent(suit).pairs()),
        }
    }

    /// How many pairs the four suits are beside sets: just one where they are won.
    fn total_pairs(&self) -> usize
        requires { spec.AreCounted self.now.tiles self.now.pairs }
        ensures total { result ≡ spec.total_of self.now.pairs }
        ensures wins { (result ≡ 1) ↔ spec.AreWon self.now.tiles }
    {
        self.pairs.total()
    }

    /// Whether one more tile of a rank completes the hand: with the pair, where the other suits are
    /// sets; as sets, where another suit has the pair. `others` is how many pairs the others are,
    /// and `third` what the sum of this suit's numbers leaves over by three.
    fn is_completed_by(&self, suit: Suit, rank: usize, others: usize, third: usize) -> bool
        requires counted { spec.AreCounted self.now.tiles self.now.pairs }
        requires rank { rank < kinds_of suit }
        requires others { others + of_suit self.now.pairs suit ≡ spec.total_of self.now.pairs }
        requires third { third ≡ spec.third_of (of_suit self.now.tiles suit).held }
        ensures { IsTrue result ↔ spec.Completes self.now.tiles (first_of suit + rank) }
    {
        let tiles = self.tiles.lent(suit);
        if tiles.get(rank) >= 4 {
            return false;
        }
        match others {
            0 => tiles.are_sets_and_pair_with(rank, third),
            1 => tiles.are_sets_with(rank, third),
            _ => false,
        }
    }

    /// Marks the kinds of a suit that complete the hand.
    #[inline(always)]
    fn mark(&self, suit: Suit, marks: &mut KindSet)
        requires counted { spec.AreCounted self.now.tiles self.now.pairs }
        requires below { spec.MarksBelow (spec.Completes self.now.tiles) (first_of suit) marks.old }
        ensures { spec.MarksBelow (spec.Completes self.now.tiles)
            (first_of suit + kinds_of suit) marks.new }
    {
        let others = self.total_pairs() - self.pairs.get(suit);
        // No tile of this suit completes the others.
        if others > 1 {
            return;
        }
        self.mark_ranks(suit, others, marks);
    }

    /// The same, where `others` is how many pairs the other suits are.
    #[inline(never)]
    fn mark_ranks(&self, suit: Suit, others: usize, marks: &mut KindSet)
        requires counted { spec.AreCounted self.now.tiles self.now.pairs }
        requires others { others + of_suit self.now.pairs suit ≡ spec.total_of self.now.pairs }
        requires below { spec.MarksBelow (spec.Completes self.now.tiles) (first_of suit) marks.old }
        ensures { spec.MarksBelow (spec.Completes self.now.tiles)
            (first_of suit + kinds_of suit) marks.new }
    {
        let third = self.tiles.lent(suit).third();
        for rank in 0..suit.kinds() {
            if self.is_completed_by(suit, rank, others, third) {
                marks.insert(Kind::at((suit.first() + rank) as u8));
            }
        }
    }
}

/// The kinds of which fewer than four are held, and which make sets and a pair of thirteen tiles.
pub(crate) fn standard_waits(counts: &[u8; 34], melds: usize) -> KindSet
    requires { sum counts.now + 3 * melds ≡ 13 }
    ensures { (kind : ℕ) → IsMarked result kind ↔
        ((kind < 34) × (slice_index counts.now kind < 4) × HasSplit (with_one counts.now kind) melds) }
{
    let suits = Suits::of(counts);
    let mut marks = KindSet::new();
    for suit in Suit::ALL {
        suits.mark(suit, &mut marks);
    }
    marks
}

/// Whether tiles are sets and a pair, the melds among the sets.
pub(crate) fn has_split(counts: &[u8; 34], melds: usize) -> bool
    requires { sum counts.now + 3 * melds ≡ 14 }
    ensures { IsTrue result ↔ HasSplit counts.now melds }
{
    Suits::of(counts).total_pairs() == 1
}
