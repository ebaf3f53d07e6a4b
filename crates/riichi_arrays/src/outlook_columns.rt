//! Second and good of many hands of thirteen tiles.
ghost use Rattle.std.specs.Prelude.{ℕ, ◌≡◌, ◌<◌, length, min};
ghost use Rattle.riichi_arrays.specs.Columns.{IsFilled, shanten_by};
ghost use Rattle.riichi_arrays.specs.Further.{good_in, outlook_by, second_in, thirteen_of_row};

use crate::hands::Hands;
use crate::kept_rows::{ROWS, UPPERS};
use crate::shanten_column::NO_HAND;
use riichi_deeper::{Outlook, deeper};
use riichi_hand::ShapeRecord;
use riichi_shape::{FreshRows, KeptRow, KeptUpper, LentMemo, RowSource, shanten_with};

/// For fewer hands the rows that are kept cost more than they save.
const FEW_HANDS: usize = 4;

/// What is told of a hand of thirteen tiles.
#[derive(Clone, Copy)]
struct OutlookRow {
    shanten: i8,
    outlook: Option<Outlook>,
}

impl OutlookRow {
    fn second(&self) -> u16
        ensures { result ≡ second_in self.now.outlook }
    {
        match self.outlook {
            Some(outlook) => outlook.second,
            None => 0,
        }
    }

    fn good(&self) -> u8
        ensures { result ≡ good_in self.now.outlook }
    {
        match self.outlook {
            Some(outlook) => outlook.good,
            None => 0,
        }
    }
}

fn row_of<R: RowSource>(source: &mut R, hands: &Hands<'_>, row: usize) -> OutlookRow
    ensures shanten { result.shanten ≡ shanten_by (thirteen_of_row hands.now row) }
    ensures outlook { result.outlook ≡ outlook_by (thirteen_of_row hands.now row) }
    ensures stays { source.new ≡ source.old }
{
    match hands.thirteen_at(row) {
        Some(hand) => OutlookRow {
            shanten: shanten_with(source, &hand.tiles(), &hand.melds()),
            outlook: deeper(source, &hand),
        },
        None => OutlookRow {
            shanten: NO_HAND,
            outlook: None,
        },
    }
}

#[tactic(auto, using(crate::proofs::ColumnLemmas::fill_next))]
fn fill_outlooks<R: RowSource>(
    source: &mut R,
    hands: &Hands<'_>,
    shantens: &mut [i8],
    second: &mut [u16],
    good: &mut [u8],
) -> usize
    ensures rows { result
        ≡ min (length hands.now.counts.now)
        (min (length shantens.old) (min (length second.old) (length good.old))) }
    ensures shantens { IsFilled (λ row. shanten_by (thirteen_of_row hands.now row)) result
        shantens.old shantens.new }
    ensures second { IsFilled (λ row. second_in (outlook_by (thirteen_of_row hands.now row))) result
        second.old second.new }
    ensures good { IsFilled (λ row. good_in (outlook_by (thirteen_of_row hands.now row))) result
        good.old good.new }
{
    let places = shantens.len().min(second.len().min(good.len()));
    let rows = hands.counts.len().min(places);
    for row in 0..rows {
        let told = row_of(source, hands, row);
        shantens[row] = told.shanten;
        second[row] = told.second();
        good[row] = told.good();
    }
    rows
}

#[inline(never)]
fn fill_many(hands: &Hands<'_>, shantens: &mut [i8], second: &mut [u16], good: &mut [u8]) -> usize
    ensures rows { result
        ≡ min (length hands.now.counts.now)
        (min (length shantens.old) (min (length second.old) (length good.old))) }
    ensures shantens { IsFilled (λ row. shanten_by (thirteen_of_row hands.now row)) result
        shantens.old shantens.new }
    ensures second { IsFilled (λ row. second_in (outlook_by (thirteen_of_row hands.now row))) result
        second.old second.new }
    ensures good { IsFilled (λ row. good_in (outlook_by (thirteen_of_row hands.now row))) result
        good.old good.new }
{
    let mut rows_kept = [KeptRow::of_nothing(); ROWS];
    let mut uppers_kept = [KeptUpper::of_nothing(); UPPERS];
    let mut kept = LentMemo::new(&mut rows_kept, &mut uppers_kept, &mut []);
    fill_outlooks(&mut kept, hands, shantens, second, good)
}

/// Of each hand of thirteen tiles its shanten, and where it isn't ready its second and good (`riichi_deeper::deeper`); else these
/// are 0. A row that is no such hand has the shanten [`NO_HAND`]. As many are answered as there are hands and places in the
/// columns, which it returns.
pub fn outlooks(
    hands: &Hands<'_>,
    shantens: &mut [i8],
    second: &mut [u16],
    good: &mut [u8],
) -> usize
    ensures rows { result
        ≡ min (length hands.now.counts.now)
        (min (length shantens.old) (min (length second.old) (length good.old))) }
    ensures shantens { IsFilled (λ row. shanten_by (thirteen_of_row hands.now row)) result
        shantens.old shantens.new }
    ensures second { IsFilled (λ row. second_in (outlook_by (thirteen_of_row hands.now row))) result
        second.old second.new }
    ensures good { IsFilled (λ row. good_in (outlook_by (thirteen_of_row hands.now row))) result
        good.old good.new }
{
    if hands.counts.len() < FEW_HANDS {
        fill_outlooks(&mut FreshRows, hands, shantens, second, good)
    } else {
        fill_many(hands, shantens, second, good)
    }
}
