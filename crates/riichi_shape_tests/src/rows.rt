//! Rows worked by hand.

use crate::facts::{holds, same};
use riichi_rows::{JoinedRows, RankSet, SuitRow, join_two, suit_row};

const NO_TILES: [u8; 9] = [0; 9];

/// A row with four of each tile to be had.
fn row(counts: [u8; 9], runs: bool) -> SuitRow {
    suit_row(counts, [4; 9], runs)
}

/// Nothing is held: each entry is all of its tiles.
#[test]
fn rows_of_no_tiles(rt: HostRuntime) {
    let suit = row(NO_TILES, true);
    same(&rt, suit.get(0, false), Some(0));
    same(&rt, suit.get(2, true), Some(8));
    same(&rt, suit.get(4, true), Some(14));
    // Without runs, and with two of each tile to be had, there is no set.
    let pairs = suit_row(NO_TILES, [2; 9], false);
    same(&rt, pairs.get(0, true), Some(2));
    same(&rt, pairs.get(1, false), None);
}

/// Of the ranks of a suit just these are in the set.
fn are_just(set: RankSet, ranks: &[u8]) -> bool {
    (0..9u8).all(|rank| set.contains(rank) == ranks.contains(&rank))
}

/// The circles beside bamboos and honours that hold nothing.
fn beside(circles: [u8; 9]) -> JoinedRows {
    join_two(&row(circles, true), &row(NO_TILES, true)).and(&row(NO_TILES, false))
}

/// What 12m lacks: characters of rank 0 and 1.
#[test]
fn ranks_lacked_by_a_run_of_two(rt: HostRuntime) {
    let held = [1, 1, 0, 0, 0, 0, 0, 0, 0];
    let characters = row(held, true);
    // With nothing else held, a pair lacks one tile, a second 1m or a second 2m.
    let nothing = beside(NO_TILES);
    same(&rt, nothing.with(&characters, 0), Some(1));
    holds(&rt, are_just(nothing.lacked_by(&characters, 0, 1), &[0, 1]));
    same(&rt, nothing.lacked_by(&characters, 0, 1).bits(), 3);
    // Beside 11p a set and a pair lack one tile: 3m, which makes 123m.
    let pair = beside([2, 0, 0, 0, 0, 0, 0, 0, 0]);
    same(&rt, pair.with(&characters, 1), Some(1));
    holds(&rt, are_just(pair.lacked_by(&characters, 1, 1), &[2]));
    // There the pair alone is whole: no character takes part in it, and none is lacked.
    same(&rt, pair.with(&characters, 0), Some(0));
    holds(&rt, are_just(pair.lacked_by(&characters, 0, 0), &[]));
    // With no 3m to be had they lack two: 111m or 222m beside 11p, or 11m or 22m beside 111p.
    let no_run = suit_row(held, [4, 4, 0, 4, 4, 4, 4, 4, 4], true);
    same(&rt, pair.with(&no_run, 1), Some(2));
    holds(&rt, are_just(pair.lacked_by(&no_run, 1, 2), &[0, 1]));
}
