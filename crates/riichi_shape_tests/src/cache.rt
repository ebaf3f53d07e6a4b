//! A cache and the memos answer as fresh rows do, whatever they keep.
ghost use Rattle.std.specs.Prelude.{◌≤◌};

use crate::facts::{holds, same};
use riichi_cuts::{CutSource, KeptCut};
use riichi_rows::{
    FreshRows, KeptRow, KeptUpper, LentMemo, Memory, RowCache, RowMemo, RowSource, SuitMemo,
    SuitRow,
};
use riichi_split::SuitTiles;
use std::alloc::Global;
use std::process::Abort;

/// A cache of one place, where one request for memory may be refused.
fn one_place(alloc: Global) -> Result<RowCache, Memory> {
    RowCache::new(alloc, 1).or_else(|_| RowCache::new(alloc, 1))
}

fn is_same(one: &SuitRow, other: &SuitRow) -> bool {
    (0..5u8).all(|sets| {
        one.get(sets, false) == other.get(sets, false)
            && one.get(sets, true) == other.get(sets, true)
    })
}

fn check<R: RowSource>(rt: &impl Abort, source: &mut R, counts: [u8; 9], cap: u8, runs: bool)
    requires { cap ≤ 4 }
{
    let caps = [cap; 9];
    let row = source.row(&counts, &caps, runs);
    holds(rt, is_same(&row, &FreshRows.row(&counts, &caps, runs)));
}

/// Cuts of suits that differ in runs alone, each of them twice.
fn check_cuts<R: RowSource>(rt: &impl Abort, source: &mut R) {
    let held = [1, 1, 1, 1, 0, 0, 0, 0, 0];
    for has_runs in [true, false, true, false] {
        let tiles = SuitTiles { held, has_runs };
        same(rt, source.cut(&tiles), FreshRows.cut(&tiles));
    }
}

/// Keys that differ in counts, caps or runs alone, each of them twice.
fn check_keys_that_are_alike<R: RowSource>(rt: &impl Abort, source: &mut R) {
    let counts = [1, 1, 1, 0, 0, 0, 2, 0, 0];
    for _ in 0..2 {
        check(rt, source, counts, 4, true);
        check(rt, source, counts, 4, true);
        check(rt, source, counts, 2, true);
        check(rt, source, counts, 2, false);
        check(rt, source, [0; 9], 2, false);
    }
    same(rt, source.row(&[0; 9], &[4; 9], true).get(2, true), Some(8));
    check_cuts(rt, source);
}

#[test]
fn rows_of_a_cache(rt: HostRuntime) {
    let mut cache = one_place(rt.alloc())
        .ok()
        .expect(&rt, "memory, refused once at the most");
    check_keys_that_are_alike(&rt, &mut cache);
}

#[test]
fn rows_of_a_memo(rt: HostRuntime) {
    let memo = RowMemo::new(rt.alloc(), 1).or_else(|_| RowMemo::new(rt.alloc(), 4));
    let mut memo = memo.ok().expect(&rt, "memory, refused once at the most");
    check_keys_that_are_alike(&rt, &mut memo);
}

/// It is there whether its memory can be had or not.
#[test]
fn rows_of_a_suit_memo(rt: HostRuntime) {
    check_keys_that_are_alike(&rt, &mut SuitMemo::new(rt.alloc()));
}

/// It needs no memory.
#[test]
fn rows_of_a_suit_memo_in_the_value(rt: HostRuntime) {
    check_keys_that_are_alike(&rt, &mut SuitMemo::in_value());
}

/// Of a single place for rows, and of numbers that are no powers of two.
#[test]
fn rows_of_a_memo_in_few_lent_places(rt: HostRuntime) {
    let mut one = [KeptRow::of_nothing(); 1];
    let mut six = [KeptRow::of_nothing(); 6];
    let mut uppers = [KeptUpper::of_nothing(); 3];
    let mut cuts = [KeptCut::of_nothing(); 1];
    check_keys_that_are_alike(&rt, &mut LentMemo::new(&mut one, &mut uppers, &mut []));
    check_keys_that_are_alike(&rt, &mut LentMemo::new(&mut six, &mut uppers, &mut cuts));
}

/// Rows over the same upper ranks, by few places for these and by one.
#[test]
fn rows_of_a_memo_in_lent_places(rt: HostRuntime) {
    let mut rows = [KeptRow::of_nothing(); 8];
    let mut uppers = [KeptUpper::of_nothing(); 3];
    let mut memo = LentMemo::new(&mut rows, &mut uppers, &mut []);
    check_keys_that_are_alike(&rt, &mut memo);
    let mut one = [KeptUpper::of_nothing(); 1];
    let mut memo = LentMemo::new(&mut rows, &mut one, &mut []);
    check(&rt, &mut memo, [1, 1, 1, 0, 2, 0, 1, 1, 1], 4, true);
    check(&rt, &mut memo, [0, 3, 0, 1, 2, 0, 1, 1, 1], 4, true);
    check(&rt, &mut memo, [0, 3, 0, 1, 2, 0, 1, 1, 1], 3, true);
}
