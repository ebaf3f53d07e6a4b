//! What waits need of one suit.
ghost use Rattle.riichi_split.specs.Marks.{MarksBelow};
ghost use Rattle.riichi_split.specs.SuitTiles.{AreSets, AreSetsAndPair};
ghost use Rattle.riichi_cuts.specs.SuitCut.{IsCut, Makes};

use crate::ranks::Ranks;
use riichi_split::SuitTiles;

/// What a suit is beside sets, and what one more tile makes of it. Of no rank of which four are held there is
/// one more.
#[derive(Clone, Copy, Debug, PartialEq, Eq)]
pub struct SuitCut {
    /// The ranks of which one more makes the tiles sets.
    pub sets: Ranks,
    /// The ranks of which one more makes them sets and a pair.
    pub pair: Ranks,
    /// How many pairs the tiles are beside sets: none or one, and two where they are neither.
    pub pairs: u8,
}

/// The cut of some tiles.
pub fn cut_of(tiles: &SuitTiles) -> SuitCut
    ensures { IsCut tiles.now result }
{
    SuitCut {
        sets: ranks_for_sets(tiles),
        pair: ranks_for_pair(tiles),
        pairs: tiles.pairs() as u8,
    }
}

/// The ranks of which one more makes sets. With it the tiles leave nothing over by three.
#[tactic(auto, using(riichi_tiles::proofs::KindSets::kind_sets, riichi_split::proofs::KindMarks::adds_none, crate::proofs::Remainders::no_sets))]
fn ranks_for_sets(tiles: &SuitTiles) -> Ranks
    ensures { MarksBelow (Makes AreSets tiles.now) 9 result }
{
    let mut ranks = Ranks::new();
    if tiles.total() % 3 != 2 {
        return ranks;
    }
    let third = tiles.third();
    for rank in 0..9 {
        if tiles.get(rank) < 4 && tiles.are_sets_with(rank, third) {
            ranks.insert(rank);
        }
    }
    ranks
}

/// The ranks of which one more makes sets and a pair. With it the tiles leave two over by three.
#[tactic(auto, using(riichi_tiles::proofs::KindSets::kind_sets, riichi_split::proofs::KindMarks::adds_none, crate::proofs::Remainders::no_pair))]
fn ranks_for_pair(tiles: &SuitTiles) -> Ranks
    ensures { MarksBelow (Makes AreSetsAndPair tiles.now) 9 result }
{
    let mut ranks = Ranks::new();
    if tiles.total() % 3 != 1 {
        return ranks;
    }
    let third = tiles.third();
    for rank in 0..9 {
        if tiles.get(rank) < 4 && tiles.are_sets_and_pair_with(rank, third) {
            ranks.insert(rank);
        }
    }
    ranks
}
