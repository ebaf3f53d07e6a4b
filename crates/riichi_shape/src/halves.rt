//! The rows of the two suits of each half, joined.
ghost use Rattle.std.specs.Prelude.{◌≡◌};
ghost use Rattle.riichi_tiles.specs.Suits.{of_suit, partner};
ghost use Rattle.riichi_shape.specs.Rows.{AreHalvesBeside, AreHalvesOf, AreJoinedTwo, far_half};

use crate::hand_rows::HandRows;
use riichi_rows::{JoinedRows, join_two};
use riichi_tiles::Suit;

/// The join of the characters and the circles, and that of the bamboos and the honours.
#[derive(Clone, Copy)]
pub(crate) struct Halves {
    pub(crate) low: JoinedRows,
    pub(crate) high: JoinedRows,
}

/// The rows of a suit and of the other of its half.
#[inline(always)]
fn join_half(rows: &HandRows, suit: Suit) -> JoinedRows
    ensures { AreJoinedTwo (of_suit rows.now suit) (of_suit rows.now (partner suit)) result }
{
    join_two(rows.lent(suit), rows.lent(suit.partner()))
}

impl Halves {
    /// The joins of these rows.
    pub(crate) fn of(rows: &HandRows) -> Halves
        ensures { AreHalvesOf rows.now result }
    {
        Halves {
            low: join_half(rows, Suit::Characters),
            high: join_half(rows, Suit::Bamboos),
        }
    }

    /// The joins of these rows, where the rows that were joined differ in one suit alone.
    #[inline(always)]
    pub(crate) fn with(&self, own: Suit, rows: &HandRows) -> Halves
        requires { AreHalvesBeside own self.now rows.now }
        ensures { AreHalvesOf rows.now result }
    {
        if own.is_low() {
            Halves {
                low: join_half(rows, Suit::Characters),
                high: self.high,
            }
        } else {
            Halves {
                low: self.low,
                high: join_half(rows, Suit::Bamboos),
            }
        }
    }

    /// The half that a suit is not in.
    #[inline(always)]
    pub(crate) fn far(&self, suit: Suit) -> &JoinedRows
        ensures { result.now ≡ far_half self.now suit }
    {
        if suit.is_low() { &self.high } else { &self.low }
    }
}
