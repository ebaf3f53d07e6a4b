//! What many hands of thirteen tiles accept.
ghost use Rattle.std.specs.Prelude.{ℕ, ◌≡◌, ◌<◌, length, min};
ghost use Rattle.riichi_arrays.specs.Columns.{IsFilled, shape_by, shape_of_row, shape_told};
ghost use Rattle.riichi_shape.specs.KeptDiscards.{kinds_in};

use crate::hands::Hands;
use crate::kept_rows::{ROWS, UPPERS};
use crate::shanten_column::{FEW_HANDS, NO_HAND};
use riichi_shape::{
    Accepts, FreshRows, KeptRow, KeptUpper, LentMemo, LiveList, RowSource, ShapeAnswer, shape_with,
};
use riichi_tiles::KindSet;

/// What is told of a hand of thirteen tiles.
#[derive(Clone, Copy)]
pub(crate) struct ShapeRow {
    pub(crate) shanten: i8,
    /// A bit for each kind that it accepts.
    pub(crate) accepts: u64,
    /// The live copies of these.
    pub(crate) live: [u8; 34],
}

/// What is told of a row that is no hand.
const NO_SHAPE: ShapeRow = ShapeRow {
    shanten: NO_HAND,
    accepts: 0,
    live: [0; 34],
};

/// The kinds of a list as bits.
#[tactic(auto, using(crate::proofs::KindLemmas::kinds_are))]
pub(crate) fn kinds_in(accepted: &LiveList) -> u64
    ensures { result ≡ kinds_in accepted.now }
{
    KindSet::of(accepted.copies()).bits()
}

#[tactic(auto, using(crate::proofs::KindLemmas::copies_are, crate::proofs::KindLemmas::told_thirteen))]
fn shape_told(answer: &ShapeAnswer) -> ShapeRow
    ensures { result ≡ shape_told answer.now.shanten answer.now.accepts }
{
    match &answer.accepts {
        Accepts::Thirteen(accepted) => ShapeRow {
            shanten: answer.shanten,
            accepts: kinds_in(accepted),
            live: *accepted.copies(),
        },
        Accepts::Fourteen(_) => NO_SHAPE,
    }
}

fn shape_row<R: RowSource>(source: &mut R, hands: &Hands<'_>, row: usize) -> ShapeRow
    ensures shape { result ≡ shape_by (shape_of_row hands.now row) }
    ensures stays { source.new ≡ source.old }
{
    match hands.shape_at(row) {
        Some(hand) => shape_told(&shape_with(source, &hand)),
        None => NO_SHAPE,
    }
}

#[tactic(auto, using(crate::proofs::ColumnLemmas::fill_next))]
fn fill_shapes<R: RowSource>(
    source: &mut R,
    hands: &Hands<'_>,
    shantens: &mut [i8],
    accepts: &mut [u64],
    live: &mut [[u8; 34]],
) -> usize
    ensures rows { result
        ≡ min (length hands.now.counts.now)
        (min (length shantens.old) (min (length accepts.old) (length live.old))) }
    ensures shantens { IsFilled (λ row. (shape_by (shape_of_row hands.now row)).shanten) result
        shantens.old shantens.new }
    ensures accepts { IsFilled (λ row. (shape_by (shape_of_row hands.now row)).accepts) result
        accepts.old accepts.new }
    ensures live { IsFilled (λ row. (shape_by (shape_of_row hands.now row)).live) result
        live.old live.new }
{
    let places = shantens.len().min(accepts.len().min(live.len()));
    let rows = hands.counts.len().min(places);
    for row in 0..rows {
        let told = shape_row(source, hands, row);
        let copies = told.live;
        shantens[row] = told.shanten;
        accepts[row] = told.accepts;
        live[row] = copies;
    }
    rows
}

#[inline(never)]
fn fill_many(
    hands: &Hands<'_>,
    shantens: &mut [i8],
    accepts: &mut [u64],
    live: &mut [[u8; 34]],
) -> usize
    ensures rows { result
        ≡ min (length hands.now.counts.now)
        (min (length shantens.old) (min (length accepts.old) (length live.old))) }
    ensures shantens { IsFilled (λ row. (shape_by (shape_of_row hands.now row)).shanten) result
        shantens.old shantens.new }
    ensures accepts { IsFilled (λ row. (shape_by (shape_of_row hands.now row)).accepts) result
        accepts.old accepts.new }
    ensures live { IsFilled (λ row. (shape_by (shape_of_row hands.now row)).live) result
        live.old live.new }
{
    let mut rows_kept = [KeptRow::of_nothing(); ROWS];
    let mut uppers_kept = [KeptUpper::of_nothing(); UPPERS];
    let mut kept = LentMemo::new(&mut rows_kept, &mut uppers_kept, &mut []);
    fill_shapes(&mut kept, hands, shantens, accepts, live)
}

/// Of each hand of thirteen tiles its shanten, the kinds that bring it nearer, a bit for each, and the live copies of these kinds.
/// A row that is none has the shanten [`NO_HAND`] and accepts nothing. As many are answered as there are hands and places in the
/// columns, which it returns.
pub fn shapes(
    hands: &Hands<'_>,
    shantens: &mut [i8],
    accepts: &mut [u64],
    live: &mut [[u8; 34]],
) -> usize
    ensures rows { result
        ≡ min (length hands.now.counts.now)
        (min (length shantens.old) (min (length accepts.old) (length live.old))) }
    ensures shantens { IsFilled (λ row. (shape_by (shape_of_row hands.now row)).shanten) result
        shantens.old shantens.new }
    ensures accepts { IsFilled (λ row. (shape_by (shape_of_row hands.now row)).accepts) result
        accepts.old accepts.new }
    ensures live { IsFilled (λ row. (shape_by (shape_of_row hands.now row)).live) result
        live.old live.new }
{
    if hands.counts.len() < FEW_HANDS {
        fill_shapes(&mut FreshRows, hands, shantens, accepts, live)
    } else {
        fill_many(hands, shantens, accepts, live)
    }
}
