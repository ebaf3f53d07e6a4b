//! The rows of a hand joined beside each suit.
ghost use Rattle.std.specs.Prelude.{ℕ, ◌<◌, ◌≤◌, List};
ghost use Rattle.riichi_tiles.specs.Kinds.{suit_of};
ghost use Rattle.riichi_tiles.specs.declared.meld.Meld.{Meld};
ghost use Rattle.riichi_shape.specs.Distance.{IsLeastStandard};
ghost use Rattle.riichi_shape.specs.LackedKinds.{AreSuitsLacked, NoneStandardLess};
ghost use Rattle.riichi_rows.specs.Row.{AreJoinedBeside};
ghost use Rattle.riichi_shape.specs.Rows.{AreHalvesOf, AreJoinsBeside, AreJoinsOf, AreRowsOf, IsChangedAt, IsMeldedFew, IsRowAt};

use crate::halves::Halves;
use crate::hand_rows::HandRows;
use crate::suits_lacked::SuitsLacked;
use riichi_rows::{JoinedRows, SuitRow};
use riichi_tiles::{BySuit, Kind, Suit};

/// Beside each suit the rows of the other three, joined. They are kept while a tile of the suit is
/// added or removed. Of the others just those are joined anew that the suit is in.
#[derive(Clone, Copy)]
pub(crate) struct HandJoins {
    pub(crate) halves: Halves,
    pub(crate) beside: BySuit<JoinedRows>,
}

/// The rows beside a suit: of the other of its half, and of the half that it is not in.
#[inline(always)]
fn beside(rows: &HandRows, halves: &Halves, suit: Suit) -> JoinedRows
    requires { AreHalvesOf rows.now halves.now }
    ensures { AreJoinedBeside suit rows.now result }
{
    halves.far(suit).and(rows.lent(suit.partner()))
}

impl HandJoins {
    /// The joins of these rows.
    pub(crate) fn new(rows: &HandRows) -> HandJoins
        ensures { AreJoinsOf rows.now result }
    {
        let halves = Halves::of(rows);
        HandJoins {
            halves,
            beside: BySuit::of(|suit| beside(rows, &halves, suit)),
        }
    }

    /// The joins of these rows, where the rows that were joined differ in the suit of a kind alone.
    pub(crate) fn with_row(&self, kind: Kind, rows: &HandRows) -> HandJoins
        requires { IsChangedAt (suit_of kind) self.now rows.now }
        ensures { AreJoinsOf rows.now result }
    {
        let own = kind.suit();
        let halves = self.halves.with(own, rows);
        HandJoins {
            halves,
            beside: BySuit::of(|suit| self.beside_with(own, rows, &halves, suit)),
        }
    }

    /// Beside the suit whose row has changed the others stay as they were.
    #[inline(always)]
    fn beside_with(&self, own: Suit, rows: &HandRows, halves: &Halves, suit: Suit) -> JoinedRows
        requires halves { AreHalvesOf rows.now halves.now }
        requires changed { IsChangedAt own self.now rows.now }
        ensures { AreJoinedBeside suit rows.now result }
    {
        if suit == own {
            self.beside.get(suit)
        } else {
            beside(rows, halves, suit)
        }
    }

    /// Of the suits of the rows that were joined: the ranks that some sets and a pair lack which lack
    /// just so many tiles in all, where none lacks fewer.
    pub(crate) fn lacked(&self, rows: &HandRows, sets: u8, least: u8) -> SuitsLacked
        requires sets { sets ≤ 4 }
        requires least { least < 255 }
        ensures { (hand : List ℕ) (melds : List Meld) → AreRowsOf hand melds rows.now
            → AreJoinsOf rows.now self.now → IsMeldedFew melds
            → NoneStandardLess hand melds sets least → AreSuitsLacked hand melds sets least result }
    {
        BySuit::of(|suit| self
            .beside
            .lent(suit)
            .lacked_by(rows.lent(suit), sets, least))
    }

    /// The least number of tiles that a hand lacks of so many sets and a pair, or None where the
    /// melds leave none. It has changed at one kind since its rows were joined, and this is the row
    /// of the suit of that kind.
    pub(crate) fn standard_with(&self, kind: Kind, row: &SuitRow, sets: u8) -> Option<u8>
        requires { sets ≤ 4 }
        ensures { (hand : List ℕ) (melds : List Meld) → AreJoinsBeside kind hand melds self.now
            → IsMeldedFew melds → IsRowAt hand melds kind row.now
            → IsLeastStandard hand melds sets result }
    {
        self.beside.lent(kind.suit()).with(row, sets)
    }
}
