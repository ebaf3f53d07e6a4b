//! The waits of many hands.
ghost use Rattle.std.specs.Prelude.{ℕ, ◌≡◌, ◌<◌, length, min};
ghost use Rattle.riichi_arrays.specs.Columns.{IsFilled, hand_of_row, waits_by};

use crate::hands::Hands;
use crate::shanten_column::FEW_HANDS;
use riichi_cuts::{CutSource, KeptCut, LentCuts, waits_with};

/// The waits that a row has which is no hand.
pub const NO_WAITS: u64 = u64::MAX;

/// So many cuts of suits are kept, of 16 bytes each, in the frame of the call.
const CUTS: usize = 4096;

fn waits_in(hands: &Hands<'_>, row: usize) -> u64
    ensures { result ≡ waits_by (hand_of_row hands.now row) }
{
    match hands.hand_at(row) {
        Some(hand) => riichi_split::waits(&hand).bits(),
        None => NO_WAITS,
    }
}

/// The same by the cuts of a source.
fn waits_by_cuts<C: CutSource>(source: &mut C, hands: &Hands<'_>, row: usize) -> u64
    ensures waits { result ≡ waits_by (hand_of_row hands.now row) }
    ensures stays { source.new ≡ source.old }
{
    let Some(hand) = hands.hand_at(row) else {
        return NO_WAITS;
    };
    waits_with(source, &hand).bits()
}

#[tactic(auto, using(crate::proofs::ColumnLemmas::fill_next))]
fn fill_few(hands: &Hands<'_>, waits: &mut [u64]) -> usize
    ensures rows { result ≡ min (length hands.now.counts.now) (length waits.old) }
    ensures waits { IsFilled (λ row. waits_by (hand_of_row hands.now row)) result
        waits.old waits.new }
{
    let rows = hands.counts.len().min(waits.len());
    for row in 0..rows {
        waits[row] = waits_in(hands, row);
    }
    rows
}

#[inline(never)]
#[tactic(auto, using(crate::proofs::ColumnLemmas::fill_next))]
fn fill_many(hands: &Hands<'_>, waits: &mut [u64]) -> usize
    ensures rows { result ≡ min (length hands.now.counts.now) (length waits.old) }
    ensures waits { IsFilled (λ row. waits_by (hand_of_row hands.now row)) result
        waits.old waits.new }
{
    let mut cuts = [KeptCut::of_nothing(); CUTS];
    let mut kept = LentCuts::new(&mut cuts);
    let rows = hands.counts.len().min(waits.len());
    for row in 0..rows {
        waits[row] = waits_by_cuts(&mut kept, hands, row);
    }
    rows
}

/// The kinds that each hand of thirteen tiles waits for, a bit for each, [`NO_WAITS`] of a row that is none: of as many as there
/// are hands and places for waits, which it returns. What is seen is not looked at.
pub fn waits(hands: &Hands<'_>, waits: &mut [u64]) -> usize
    ensures rows { result ≡ min (length hands.now.counts.now) (length waits.old) }
    ensures waits { IsFilled (λ row. waits_by (hand_of_row hands.now row)) result
        waits.old waits.new }
{
    if hands.counts.len() < FEW_HANDS {
        fill_few(hands, waits)
    } else {
        fill_many(hands, waits)
    }
}
