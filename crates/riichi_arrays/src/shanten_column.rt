//! The shanten of many hands.
ghost use Rattle.std.specs.Prelude.{ℕ, ◌≡◌, ◌<◌, length, min};
ghost use Rattle.riichi_arrays.specs.Columns.{IsFilled, shanten_by, shape_of_row};

use crate::hands::Hands;
use crate::kept_rows::{ROWS, UPPERS};
use riichi_shape::{FreshRows, KeptRow, KeptUpper, LentMemo, RowSource, shanten_with};

/// The shanten that a row has which is no hand.
pub const NO_HAND: i8 = -128;

/// For fewer hands the rows that are kept cost more than they save.
pub(crate) const FEW_HANDS: usize = 128;

fn shanten_in<R: RowSource>(source: &mut R, hands: &Hands<'_>, row: usize) -> i8
    ensures shanten { result ≡ shanten_by (shape_of_row hands.now row) }
    ensures stays { source.new ≡ source.old }
{
    match hands.shape_at(row) {
        Some(hand) => shanten_with(source, &hand.tiles(), &hand.melds()),
        None => NO_HAND,
    }
}

#[tactic(auto, using(crate::proofs::ColumnLemmas::fill_next))]
fn fill_shantens<R: RowSource>(source: &mut R, hands: &Hands<'_>, shantens: &mut [i8]) -> usize
    ensures rows { result ≡ min (length hands.now.counts.now) (length shantens.old) }
    ensures shantens { IsFilled (λ row. shanten_by (shape_of_row hands.now row)) result
        shantens.old shantens.new }
{
    let rows = hands.counts.len().min(shantens.len());
    for row in 0..rows {
        shantens[row] = shanten_in(source, hands, row);
    }
    rows
}

#[inline(never)]
fn fill_many(hands: &Hands<'_>, shantens: &mut [i8]) -> usize
    ensures rows { result ≡ min (length hands.now.counts.now) (length shantens.old) }
    ensures shantens { IsFilled (λ row. shanten_by (shape_of_row hands.now row)) result
        shantens.old shantens.new }
{
    let mut rows_kept = [KeptRow::of_nothing(); ROWS];
    let mut uppers_kept = [KeptUpper::of_nothing(); UPPERS];
    let mut kept = LentMemo::new(&mut rows_kept, &mut uppers_kept, &mut []);
    fill_shantens(&mut kept, hands, shantens)
}

/// The shanten of each hand of thirteen or fourteen tiles, [`NO_HAND`] of a row that is none: of as many as there are hands and
/// places for a shanten, which it returns.
pub fn shantens(hands: &Hands<'_>, shantens: &mut [i8]) -> usize
    ensures rows { result ≡ min (length hands.now.counts.now) (length shantens.old) }
    ensures shantens { IsFilled (λ row. shanten_by (shape_of_row hands.now row)) result
        shantens.old shantens.new }
{
    if hands.counts.len() < FEW_HANDS {
        fill_shantens(&mut FreshRows, hands, shantens)
    } else {
        fill_many(hands, shantens)
    }
}
