//! Games that are drawn.
ghost use Rattle.std.specs.Prelude.{◌≤◌};

use crate::facts::{holds, same};
use riichi_seats::{Drawing, Plan, SeatCounts, Table, repeated_pairs, seat_counts};
use std::alloc::{AllocError, Global};
use std::process::Abort;
use std::test::Fail;

fn drawn(alloc: Global, plan: Plan) -> Result<Vec<Table>, AllocError> {
    let mut drawing = Drawing::begin(alloc, plan)?;
    for _ in 0..200u32 {
        if !drawing.improve() {
            break;
        }
    }
    drawing.finish(alloc)
}

/// Whether each seat is had as often as another one, or once more.
fn are_even(counts: SeatCounts) -> bool {
    let most = counts
        .east
        .max(counts.south)
        .max(counts.west)
        .max(counts.north);
    let least = counts
        .east
        .min(counts.south)
        .min(counts.west)
        .min(counts.north);
    most - least <= 1
}

/// In so many sessions of so many tables no two meet twice, and all have even seats.
fn no_two_meet(rt: &impl Abort, alloc: Global, tables: u16, sessions: u16) -> Result<(), Fail>
    requires tables { tables ≤ 100 }
    requires sessions { sessions ≤ 32 }
{
    let plan = Plan {
        tables,
        sessions,
        seed: 1,
    };
    let games = drawn(alloc, plan)?;
    same(rt, games.len(), usize::from(tables) * usize::from(sessions));
    let pairs = repeated_pairs(alloc, games.as_slice(), 4 * tables)?;
    holds(rt, pairs.is_empty());
    for player in 0..4 * tables {
        holds(rt, are_even(seat_counts(games.as_slice(), player)));
    }
    Ok(())
}

#[test]
fn no_two_meet_twice(rt: HostRuntime) -> Result<(), Fail> {
    let alloc = rt.alloc();
    no_two_meet(&rt, alloc, 4, 5)?;
    no_two_meet(&rt, alloc, 5, 5)?;
    no_two_meet(&rt, alloc, 8, 8)?;
    no_two_meet(&rt, alloc, 16, 7)?;
    no_two_meet(&rt, alloc, 25, 8)?;
    // (by a field of nine numbers, by the groups among themselves, and by the search)
    no_two_meet(&rt, alloc, 9, 9)?;
    no_two_meet(&rt, alloc, 16, 21)?;
    no_two_meet(&rt, alloc, 6, 2)
}

#[test]
fn a_seed_draws_the_same_games(rt: HostRuntime) -> Result<(), Fail> {
    let plan = Plan {
        tables: 5,
        sessions: 2,
        seed: 5,
    };
    let games = drawn(rt.alloc(), plan)?;
    same(&rt, games.as_slice(), drawn(rt.alloc(), plan)?.as_slice());
    let other = Plan {
        tables: 5,
        sessions: 2,
        seed: 6,
    };
    holds(
        &rt,
        games.as_slice() != drawn(rt.alloc(), other)?.as_slice(),
    );
    Ok(())
}

/// Of twelve players four sit at each of three tables, so that two of them meet again at each in the next session.
#[test]
fn a_search_tells_how_far_it_is(rt: HostRuntime) -> Result<(), Fail> {
    let plan = Plan {
        tables: 3,
        sessions: 2,
        seed: 7,
    };
    let mut drawing = Drawing::begin(rt.alloc(), plan)?;
    same(&rt, drawing.hundredths(), 0);
    for _ in 0..10u32 {
        holds(&rt, drawing.improve());
    }
    same(&rt, drawing.hundredths(), 1);
    let games = drawing.finish(rt.alloc())?;
    same(&rt, games.len(), 6);
    Ok(())
}
