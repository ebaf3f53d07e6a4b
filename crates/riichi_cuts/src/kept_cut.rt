//! Cuts with the tiles that they were made of.
ghost use Rattle.std.specs.Prelude.{◌≡◌, length};
ghost use Rattle.riichi_cuts.specs.SuitCut.{IsCut};

use crate::place::{is_suit, place_of};
use crate::suit_cut::{SuitCut, cut_of};
use riichi_split::SuitTiles;
use std::marker::Model;

/// The cut of some tiles.
#[derive(Clone, Copy)]
pub struct KeptCut {
    tiles: SuitTiles,
    cut: SuitCut,
}

impl Model for KeptCut {
    ghost use Rattle.riichi_split.specs.SuitTiles.{OneSuit};
    ghost use Rattle.riichi_cuts.specs.declared.suit_cut.SuitCut.{SuitCut};
    ghost use Rattle.riichi_cuts.specs.SuitCut.{IsCut};

    ghost Value = { OneSuit × SuitCut };

    ghost view = { λ kept. (kept.tiles, kept.cut) };

    ghost invariant = { λ kept. IsCut kept.tiles kept.cut };

    ghost inverse = { λ pair. record { tiles = pair.0; cut = pair.1 } };
}

impl KeptCut {
    /// The cut of these tiles. It is made apart from where cuts are found, which is quick.
    #[inline(never)]
    fn new(tiles: &SuitTiles) -> KeptCut
        ensures { result.0 ≡ tiles.now }
    {
        KeptCut {
            tiles: *tiles,
            cut: cut_of(tiles),
        }
    }

    /// The cut of no tiles: what stands in a place before another cut.
    pub fn of_nothing() -> KeptCut {
        KeptCut::new(&SuitTiles {
            held: [0; 9],
            has_runs: false,
        })
    }
}

/// The cut of some tiles: one that is kept, or a new one in its place. Without places it is made anew.
pub(crate) fn cut_at(places: &mut [KeptCut], tiles: &SuitTiles) -> SuitCut
    ensures cut { IsCut tiles.now result }
    ensures places { length places.new ≡ length places.old }
{
    if places.is_empty() {
        return cut_of(tiles);
    }
    let place = place_of(tiles, places.len());
    let kept = &places[place];
    if is_suit(&kept.tiles, tiles) {
        return kept.cut;
    }
    let made = KeptCut::new(tiles);
    places[place] = made;
    made.cut
}
