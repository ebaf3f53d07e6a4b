//! The discards of many hands of fourteen tiles.
ghost use Rattle.std.specs.Prelude.{ℕ, ◌≡◌, ◌<◌, [], length, min, slice_set};
ghost use Rattle.riichi_arrays.specs.Columns.{IsFilled, discards_by, discards_row, discards_told, shape_of_row};
ghost use Rattle.riichi_tiles.specs.HeldKinds.{with_kind};

use crate::hands::Hands;
use crate::kept_rows::{ROWS, UPPERS};
use crate::shanten_column::NO_HAND;
use riichi_shape::{
    Accepts, DiscardList, FreshRows, KeptRow, KeptUpper, LentMemo, RowSource, ShapeAnswer,
    ShortDiscard, shape_with,
};
use riichi_tiles::KindSet;

/// For fewer hands the rows that are kept cost more than they save.
const FEW_HANDS: usize = 16;

/// What is told of a hand of fourteen tiles.
#[derive(Clone, Copy)]
pub(crate) struct DiscardsRow {
    pub(crate) shanten: i8,
    /// The kinds that may be discarded.
    pub(crate) kinds: KindSet,
    /// After the discard of each kind, a bit for each that is accepted.
    pub(crate) accepts: [u64; 34],
    /// How many copies of these are live in all.
    pub(crate) live: [u8; 34],
}

impl DiscardsRow {
    /// Without a discard.
    fn none(shanten: i8) -> DiscardsRow
        ensures { result ≡ discards_row shanten [] }
    {
        DiscardsRow {
            shanten,
            kinds: KindSet::new(),
            accepts: [0; 34],
            live: [0; 34],
        }
    }

    /// With one more discard.
    fn put(&mut self, discard: &ShortDiscard)
        ensures kind { discard.now.kind < 34 }
        ensures value { self.new ≡ record {
          shanten = self.old.shanten;
          kinds = with_kind self.old.kinds discard.now.kind;
          accepts = slice_set self.old.accepts discard.now.kind discard.now.accepts;
          live = slice_set self.old.live discard.now.kind discard.now.live;
        } }
    {
        let place = discard.kind.index();
        self.kinds.insert(discard.kind);
        self.accepts[place] = discard.accepts.bits();
        self.live[place] = discard.live;
    }
}

/// The discards of a list by their kinds. The first of a kind counts, so they are put from the last on.
pub(crate) fn discards_row(shanten: i8, discards: &DiscardList) -> DiscardsRow
    ensures { result ≡ discards_row shanten discards.now }
{
    let mut told = DiscardsRow::none(shanten);
    let mut place = discards.len();
    while place > 0 {
        place -= 1;
        let Some(discard) = discards.short_at(place) else {
            unreachable!()
        };
        told.put(&discard);
    }
    told
}

fn discards_told(answer: &ShapeAnswer) -> DiscardsRow
    ensures { result ≡ discards_told answer.now.shanten answer.now.accepts }
{
    match &answer.accepts {
        Accepts::Thirteen(_) => DiscardsRow::none(NO_HAND),
        Accepts::Fourteen(discards) => discards_row(answer.shanten, discards),
    }
}

fn row_of<R: RowSource>(source: &mut R, hands: &Hands<'_>, row: usize) -> DiscardsRow
    ensures discards { result ≡ discards_by (shape_of_row hands.now row) }
    ensures stays { source.new ≡ source.old }
{
    match hands.shape_at(row) {
        Some(hand) => discards_told(&shape_with(source, &hand)),
        None => DiscardsRow::none(NO_HAND),
    }
}

fn fill_discards<R: RowSource>(
    source: &mut R,
    hands: &Hands<'_>,
    shantens: &mut [i8],
    kinds: &mut [u64],
    accepts: &mut [[u64; 34]],
    live: &mut [[u8; 34]],
) -> usize
    ensures rows { result
        ≡ min (length hands.now.counts.now) (min (length shantens.old)
        (min (length kinds.old) (min (length accepts.old) (length live.old)))) }
    ensures shantens { IsFilled (λ row. (discards_by (shape_of_row hands.now row)).shanten) result
        shantens.old shantens.new }
    ensures kinds { IsFilled (λ row. (discards_by (shape_of_row hands.now row)).kinds) result
        kinds.old kinds.new }
    ensures accepts { IsFilled (λ row. (discards_by (shape_of_row hands.now row)).accepts) result
        accepts.old accepts.new }
    ensures live { IsFilled (λ row. (discards_by (shape_of_row hands.now row)).live) result
        live.old live.new }
{
    let places = kinds.len().min(accepts.len().min(live.len()));
    let rows = hands.counts.len().min(shantens.len().min(places));
    for row in 0..rows {
        let told = row_of(source, hands, row);
        let accepted = told.accepts;
        let copies = told.live;
        shantens[row] = told.shanten;
        kinds[row] = told.kinds.bits();
        accepts[row] = accepted;
        live[row] = copies;
    }
    rows
}

#[inline(never)]
fn fill_many(
    hands: &Hands<'_>,
    shantens: &mut [i8],
    kinds: &mut [u64],
    accepts: &mut [[u64; 34]],
    live: &mut [[u8; 34]],
) -> usize
    ensures rows { result
        ≡ min (length hands.now.counts.now) (min (length shantens.old)
        (min (length kinds.old) (min (length accepts.old) (length live.old)))) }
    ensures shantens { IsFilled (λ row. (discards_by (shape_of_row hands.now row)).shanten) result
        shantens.old shantens.new }
    ensures kinds { IsFilled (λ row. (discards_by (shape_of_row hands.now row)).kinds) result
        kinds.old kinds.new }
    ensures accepts { IsFilled (λ row. (discards_by (shape_of_row hands.now row)).accepts) result
        accepts.old accepts.new }
    ensures live { IsFilled (λ row. (discards_by (shape_of_row hands.now row)).live) result
        live.old live.new }
{
    let mut rows_kept = [KeptRow::of_nothing(); ROWS];
    let mut uppers_kept = [KeptUpper::of_nothing(); UPPERS];
    let mut kept = LentMemo::new(&mut rows_kept, &mut uppers_kept, &mut []);
    fill_discards(&mut kept, hands, shantens, kinds, accepts, live)
}

/// Of each hand of fourteen tiles its shanten and the kinds whose discard leaves the least, a bit for each; and for each of
/// these kinds what the rest then accepts, a bit for each kind, and how many copies of those are live in all. A row that is no
/// such hand has the shanten [`NO_HAND`] and no discards. As many are answered as there are hands and places in the columns,
/// which it returns.
pub fn discards(
    hands: &Hands<'_>,
    shantens: &mut [i8],
    kinds: &mut [u64],
    accepts: &mut [[u64; 34]],
    live: &mut [[u8; 34]],
) -> usize
    ensures rows { result
        ≡ min (length hands.now.counts.now) (min (length shantens.old)
        (min (length kinds.old) (min (length accepts.old) (length live.old)))) }
    ensures shantens { IsFilled (λ row. (discards_by (shape_of_row hands.now row)).shanten) result
        shantens.old shantens.new }
    ensures kinds { IsFilled (λ row. (discards_by (shape_of_row hands.now row)).kinds) result
        kinds.old kinds.new }
    ensures accepts { IsFilled (λ row. (discards_by (shape_of_row hands.now row)).accepts) result
        accepts.old accepts.new }
    ensures live { IsFilled (λ row. (discards_by (shape_of_row hands.now row)).live) result
        live.old live.new }
{
    if hands.counts.len() < FEW_HANDS {
        fill_discards(&mut FreshRows, hands, shantens, kinds, accepts, live)
    } else {
        fill_many(hands, shantens, kinds, accepts, live)
    }
}
