//! The rows of a hand.
ghost use Rattle.std.specs.Prelude.{ℕ, ◌≡◌, List};
ghost use Rattle.riichi_tiles.specs.Kinds.{suit_of};
ghost use Rattle.riichi_shape.specs.Rows.{AreRowsOf, AreSameBut, DifferAt, IsRowAt};
ghost use Rattle.riichi_shape.specs.Suits.{AreHandCaps};
ghost use Rattle.riichi_tiles.specs.declared.meld.Meld.{Meld};

use crate::hand_caps::HandCaps;
use crate::suit_of_hand::suit_row_of;
use riichi_rows::{RowSource, SuitRow};
use riichi_tiles::{BySuit, Counts, Kind, Suit};

/// The row of each suit. They are kept while tiles are added and removed: a tile changes one.
pub(crate) type HandRows = BySuit<SuitRow>;

/// The rows of a hand.
pub(crate) fn hand_rows_of<R: RowSource>(source: &mut R, hand: &Counts, caps: &HandCaps) -> HandRows
    ensures rows { (melds : List Meld) → AreHandCaps melds caps.now
        → AreRowsOf hand.now melds result }
    ensures stays { source.new ≡ source.old }
{
    BySuit {
        characters: suit_row_of(source, hand, caps, Suit::Characters),
        circles: suit_row_of(source, hand, caps, Suit::Circles),
        bamboos: suit_row_of(source, hand, caps, Suit::Bamboos),
        honours: suit_row_of(source, hand, caps, Suit::Honours),
    }
}

/// The row of the suit of a kind.
pub(crate) fn row_at<R: RowSource>(
    source: &mut R,
    hand: &Counts,
    caps: &HandCaps,
    kind: Kind,
) -> SuitRow
    ensures row { (melds : List Meld) → AreHandCaps melds caps.now
        → IsRowAt hand.now melds kind result }
    ensures stays { source.new ≡ source.old }
{
    suit_row_of(source, hand, caps, kind.suit())
}

/// The rows of a hand that has changed at one kind, with this row of the suit of that kind.
#[tactic(auto, using(riichi_tiles::proofs::Suits::of_suit_with_other, crate::proofs::KeptJoins::rows_with))]
pub(crate) fn with_row(rows: &HandRows, kind: Kind, row: &SuitRow) -> HandRows
    ensures others { AreSameBut (suit_of kind) rows.now result }
    ensures rows { (before hand : List ℕ) (melds : List Meld) → AreRowsOf before melds rows.now
        → DifferAt kind before hand → IsRowAt hand melds kind row.now
        → AreRowsOf hand melds result }
{
    rows.with(kind.suit(), *row)
}
