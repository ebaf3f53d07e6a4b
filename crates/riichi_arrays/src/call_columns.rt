//! The calls of thrown tiles that bring many hands of thirteen tiles nearer.
ghost use Rattle.std.specs.Prelude.{ℕ, ◌≡◌, ◌<◌, length, map, min, slice_index_or};
ghost use Rattle.riichi_arrays.specs.Columns.{IsFilled};
ghost use Rattle.riichi_arrays.specs.Further.{call_row, calls_by, calls_of_row, kinds_told, live_told, meld_byte, melds_told, thirteen_of_row, thrower_in, thrown_in};

use crate::discard_columns::discards_row;
use crate::hands::Hands;
use crate::kept_rows::{ROWS, UPPERS};
use riichi_deeper::{Call, Thrower, Thrown, is_left};
use riichi_shape::{FreshRows, KeptRow, KeptUpper, LentMemo, RowSource};
use riichi_tiles::{Kind, Meld};

/// For fewer hands the rows that are kept cost more than they save.
const FEW_HANDS: usize = 4;

/// What is told of a call: its meld as a byte, a bit for each of the best discards after it, and the copies that are then live.
#[derive(Clone, Copy)]
pub(crate) struct CallRow {
    pub(crate) meld: u8,
    pub(crate) kinds: u64,
    pub(crate) live: [u8; 34],
}

const NO_CALL: CallRow = CallRow {
    meld: 0,
    kinds: 0,
    live: [0; 34],
};

/// A meld as the rows of melds have it.
fn meld_byte(meld: &Meld) -> u8
    ensures { result ≡ meld_byte meld.now }
{
    match meld {
        Meld::Chi(low) => low.index() as u8 + 1,
        Meld::Pon(held) => 64 + (held.index() as u8 + 1),
        Meld::Kan(held) => 128 + (held.index() as u8 + 1),
        Meld::Ankan(held) => 192 + (held.index() as u8 + 1),
    }
}

fn call_row(call: &Option<Call>) -> CallRow
    ensures { result ≡ call_row call.now }
{
    match call {
        Some(call) => {
            let discards = discards_row(0, &call.discards);
            let live = discards.live;
            CallRow {
                meld: meld_byte(&call.meld),
                kinds: discards.kinds.bits(),
                live,
            }
        }
        None => NO_CALL,
    }
}

fn thrower_in(byte: u8) -> Option<Thrower>
    ensures { result ≡ thrower_in byte }
{
    match byte {
        0 => Some(Thrower::Left),
        1 => Some(Thrower::Across),
        2 => Some(Thrower::Right),
        _ => None,
    }
}

/// The tile of a row: its kind, and who threw it.
fn thrown_in(row: &[u8; 2]) -> Option<Thrown>
    ensures { result ≡ thrown_in row.now }
{
    let by = thrower_in(row[1])?;
    if row[0] < 34 {
        Some(Thrown {
            tile: Kind::at(row[0]),
            by,
        })
    } else {
        None
    }
}

const NO_CALLS: [Option<Call>; 4] = [None; 4];

/// The calls of a row.
fn calls_at<R: RowSource>(
    source: &mut R,
    hands: &Hands<'_>,
    thrown: &[u8; 2],
    row: usize,
) -> [Option<Call>; 4]
    ensures calls { result ≡ calls_by (thirteen_of_row hands.now row) (thrown_in thrown.now) }
    ensures stays { source.new ≡ source.old }
{
    let Some(asked) = hands.thirteen_at(row) else {
        return NO_CALLS;
    };
    let Some(thrown) = thrown_in(thrown) else {
        return NO_CALLS;
    };
    if is_left(&asked, thrown.tile) {
        riichi_deeper::calls(source, &asked, &thrown)
    } else {
        NO_CALLS
    }
}

/// What is told of the calls of a row, one for each claim.
#[derive(Clone, Copy)]
struct CallsRow {
    melds: [u8; 4],
    kinds: [u64; 4],
    live: [[u8; 34]; 4],
}

fn calls_told(calls: &[Option<Call>; 4]) -> CallsRow
    ensures melds { result.melds ≡ melds_told calls.now }
    ensures kinds { result.kinds ≡ kinds_told calls.now }
    ensures live { result.live ≡ live_told calls.now }
{
    let [highest, middle, lowest, triplet] = calls;
    let (highest, middle) = (call_row(highest), call_row(middle));
    let (lowest, triplet) = (call_row(lowest), call_row(triplet));
    let (first, second, third, fourth) = (highest.live, middle.live, lowest.live, triplet.live);
    CallsRow {
        melds: [highest.meld, middle.meld, lowest.meld, triplet.meld],
        kinds: [highest.kinds, middle.kinds, lowest.kinds, triplet.kinds],
        live: [first, second, third, fourth],
    }
}

#[tactic(auto, using(crate::proofs::ColumnLemmas::fill_next))]
fn fill_calls<R: RowSource>(
    source: &mut R,
    hands: &Hands<'_>,
    thrown: &[[u8; 2]],
    melds: &mut [[u8; 4]],
    kinds: &mut [[u64; 4]],
    live: &mut [[[u8; 34]; 4]],
) -> usize
    ensures rows { result ≡ min (length hands.now.counts.now) (min (length thrown.now)
        (min (length melds.old) (min (length kinds.old) (length live.old)))) }
    ensures melds { IsFilled (λ row. melds_told (calls_of_row hands.now thrown.now row)) result
        melds.old melds.new }
    ensures kinds { IsFilled (λ row. kinds_told (calls_of_row hands.now thrown.now row)) result
        kinds.old kinds.new }
    ensures live { IsFilled (λ row. live_told (calls_of_row hands.now thrown.now row)) result
        live.old live.new }
{
    let places = melds.len().min(kinds.len().min(live.len()));
    let rows = hands.counts.len().min(thrown.len().min(places));
    for row in 0..rows {
        let calls = calls_at(source, hands, &thrown[row], row);
        let told = calls_told(&calls);
        let (called, discards, copies) = (told.melds, told.kinds, told.live);
        melds[row] = called;
        kinds[row] = discards;
        live[row] = copies;
    }
    rows
}

#[inline(never)]
fn fill_many(
    hands: &Hands<'_>,
    thrown: &[[u8; 2]],
    melds: &mut [[u8; 4]],
    kinds: &mut [[u64; 4]],
    live: &mut [[[u8; 34]; 4]],
) -> usize
    ensures rows { result ≡ min (length hands.now.counts.now) (min (length thrown.now)
        (min (length melds.old) (min (length kinds.old) (length live.old)))) }
    ensures melds { IsFilled (λ row. melds_told (calls_of_row hands.now thrown.now row)) result
        melds.old melds.new }
    ensures kinds { IsFilled (λ row. kinds_told (calls_of_row hands.now thrown.now row)) result
        kinds.old kinds.new }
    ensures live { IsFilled (λ row. live_told (calls_of_row hands.now thrown.now row)) result
        live.old live.new }
{
    let mut rows_kept = [KeptRow::of_nothing(); ROWS];
    let mut uppers_kept = [KeptUpper::of_nothing(); UPPERS];
    let mut kept = LentMemo::new(&mut rows_kept, &mut uppers_kept, &mut []);
    fill_calls(&mut kept, hands, thrown, melds, kinds, live)
}

/// Of each hand of thirteen tiles and the tile that another player throws, a kind and 0 for the player before, 1 across, 2 behind:
/// the calls after which some discard leaves the hand nearer (`riichi_deeper::calls`), for a run of which the tile is the highest,
/// the middle or the lowest, and for a triplet. Of each its meld, as [`Hands`] has melds, 0 where there is no such call; a bit for
/// each of the best discards after it; and for each of these how many copies are live. Where the row is no such hand, or no copy
/// of the tile is left to be thrown, there is no call. As many are answered as there are hands, tiles and places in the columns,
/// which it returns.
pub fn calls(
    hands: &Hands<'_>,
    thrown: &[[u8; 2]],
    melds: &mut [[u8; 4]],
    kinds: &mut [[u64; 4]],
    live: &mut [[[u8; 34]; 4]],
) -> usize
    ensures rows { result ≡ min (length hands.now.counts.now) (min (length thrown.now)
        (min (length melds.old) (min (length kinds.old) (length live.old)))) }
    ensures melds { IsFilled (λ row. melds_told (calls_of_row hands.now thrown.now row)) result
        melds.old melds.new }
    ensures kinds { IsFilled (λ row. kinds_told (calls_of_row hands.now thrown.now row)) result
        kinds.old kinds.new }
    ensures live { IsFilled (λ row. live_told (calls_of_row hands.now thrown.now row)) result
        live.old live.new }
{
    if hands.counts.len() < FEW_HANDS {
        fill_calls(&mut FreshRows, hands, thrown, melds, kinds, live)
    } else {
        fill_many(hands, thrown, melds, kinds, live)
    }
}
