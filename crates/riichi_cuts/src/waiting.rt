//! The kinds that a hand waits for, by the cuts of its suits.
ghost use Rattle.std.specs.Prelude.{◌≡◌, ◌↔◌, ◌+◌, ◌*◌, ◌<◌, ◌^◌, ℕ, IsTrue, slice_index, sum};
ghost use Rattle.riichi_tiles.specs.HeldKinds.{IsMarked, is_held};
ghost use Rattle.riichi_tiles.specs.Kinds.{rank_of, suit_of};
ghost use Rattle.riichi_tiles.specs.Suits.{of_suit};
ghost use Rattle.riichi_tiles.specs.declared.by_suit.BySuit.{BySuit};
ghost use Rattle.riichi_split.specs.SuitTiles.{Completes, OneSuit};
ghost use Rattle.riichi_split.specs.Waits.{IsWait, waits_of, with_one};
ghost use Rattle.riichi_split.specs.Winning.{HasSplit};
ghost use Rattle.riichi_cuts.specs.SuitCut.{AreBeside, AreCuts};

use crate::cut_source::CutSource;
use crate::ranks::Ranks;
use crate::suit_cut::SuitCut;
use riichi_hand::HandRecord;
use riichi_split::{SuitTiles, mark_special_waits, with_tiles_left};
use riichi_tiles::{BySuit, KindSet};

/// The kinds of which hand and melds hold fewer than four, and which complete the hand, by the cuts of a source: the
/// same whichever it is.
pub fn waits_with<C: CutSource>(source: &mut C, hand: &HandRecord) -> KindSet
    ensures value { result ≡ waits_of hand.now }
    ensures each { (kind : ℕ) → IsMarked result kind ↔ IsWait hand.now kind }
    ensures stays { source.new ≡ source.old }
{
    let tiles = hand.concealed();
    let melds = hand.melds();
    let mut waits = standard_waits(source, tiles.as_array(), melds.count());
    if melds.count() > 0 {
        return with_tiles_left(&waits, &tiles, &melds);
    }
    mark_special_waits(&tiles, &mut waits);
    waits
}

/// The kinds of which fewer than four are held, and which make sets and a pair of thirteen tiles.
fn standard_waits<C: CutSource>(source: &mut C, counts: &[u8; 34], melds: usize) -> KindSet
    requires { sum counts.now + 3 * melds ≡ 13 }
    ensures kinds { (kind : ℕ) → IsMarked result kind ↔
        ((kind < 34) × (slice_index counts.now kind < 4) × HasSplit (with_one counts.now kind) melds) }
    ensures stays { source.new ≡ source.old }
{
    let suits = BySuit::of(|suit| SuitTiles::of(counts, suit));
    if may_complete(&suits) {
        completing(&cuts_of(source, &suits))
    } else {
        KindSet::new()
    }
}

/// Whether one more tile may make sets and a pair. One suit has the tile, and one the pair: the tiles of the others are sets,
/// which leave nothing over by three.
fn may_complete(suits: &BySuit<SuitTiles>) -> bool
    ensures { (kind : ℕ) → Completes suits.now kind → IsTrue result }
{
    let leaving = BySuit::of(|suit| usize::from(suits.lent(suit).total() % 3 > 0));
    leaving.total() <= 2
}

/// The cut of each suit.
fn cuts_of<C: CutSource>(source: &mut C, suits: &BySuit<SuitTiles>) -> BySuit<SuitCut>
    ensures cuts { AreCuts suits.now result }
    ensures stays { source.new ≡ source.old }
{
    BySuit {
        characters: source.cut(&suits.characters),
        circles: source.cut(&suits.circles),
        bamboos: source.cut(&suits.bamboos),
        honours: source.cut(&suits.honours),
    }
}

/// The kinds that complete sets and a pair of suits that are cut so.
fn completing(cuts: &BySuit<SuitCut>) -> KindSet
    ensures { (tiles : BySuit OneSuit) → AreCuts tiles cuts.now → (kind : ℕ)
        → IsMarked result kind ↔ Completes tiles kind }
{
    let pairs = BySuit::of(|suit| usize::from(cuts.lent(suit).pairs));
    let total = pairs.total();
    kinds_of(&BySuit::of(|suit| { ranks_beside(cuts.lent(suit), total - pairs.get(suit)) }))
}

/// The ranks of a suit that complete the hand, where the other suits are so many pairs beside sets: with the pair, or as
/// sets.
fn ranks_beside(cut: &SuitCut, others: usize) -> Ranks
    ensures { AreBeside cut.now others result }
{
    match others {
        0 => cut.pair,
        1 => cut.sets,
        _ => Ranks::new(),
    }
}

/// The kinds of the ranks of each suit.
fn kinds_of(ranks: &BySuit<Ranks>) -> KindSet
    ensures kinds { (kind : ℕ) → kind < 34
        → is_held result kind ≡ is_held (of_suit ranks.now (suit_of kind)) (rank_of kind) }
    ensures few { result < 2 ^ 34 }
{
    let honours = ranks.honours.bits() & 127;
    let from_bamboos = honours * 512 + ranks.bamboos.bits();
    let from_circles = from_bamboos * 512 + ranks.circles.bits();
    KindSet::from_bits(from_circles * 512 + ranks.characters.bits())
}
