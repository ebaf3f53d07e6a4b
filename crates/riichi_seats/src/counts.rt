//! How often players meet, and where they sit first.
ghost use Rattle.std.specs.Prelude.{◌≡◌, ◌<◌, ◌≤◌, ◌==◌, length, IfOk, OnOk, ◌++◌};
ghost use Rattle.std.specs.List.{count_by};
ghost use Rattle.riichi_seats.specs.Tables.{meet};
ghost use Rattle.riichi_seats.specs.Counts as spec;

use crate::table::{Seat, Table};
use std::alloc::{AllocError, Global};

/// Two players who meet more than once, the one with the lesser number first.
#[derive(Clone, Copy, Debug, PartialEq, Eq)]
pub struct Repeated {
    pub one: u16,
    pub other: u16,
    pub times: usize,
}

/// How often a player sits at each of the first seats.
#[derive(Clone, Copy, Debug, PartialEq, Eq)]
pub struct SeatCounts {
    pub east: usize,
    pub south: usize,
    pub west: usize,
    pub north: usize,
}

/// The pairs of so many players that meet more than once at these tables, in the order of their numbers. It fails for want of
/// memory.
pub fn repeated_pairs(
    alloc: Global,
    tables: &[Table],
    players: u16,
) -> Result<Vec<Repeated>, AllocError>
    ensures { IfOk result (λ pairs. pairs.items ≡ spec.repeated_pairs tables.now players) }
{
    let mut pairs = Vec::new(alloc);
    for one in 0..players {
        push_repeated(alloc, &mut pairs, tables, players, one)?;
    }
    Ok(pairs)
}

/// With the pairs of a player and a later one.
fn push_repeated(
    alloc: Global,
    pairs: &mut Vec<Repeated>,
    tables: &[Table],
    players: u16,
    one: u16,
) -> Result<(), AllocError>
    requires { one < players }
    ensures { OnOk result (pairs.new.items
        ≡ pairs.old.items ++ spec.repeated_with tables.now players one) }
{
    let own = tables_with(alloc, tables, one)?;
    for other in one + 1..players {
        let times = count_with(own.as_slice(), other);
        push_if_repeated(pairs, Repeated { one, other, times })?;
    }
    Ok(())
}

/// With a pair, if it meets more than once.
fn push_if_repeated(pairs: &mut Vec<Repeated>, pair: Repeated) -> Result<(), AllocError>
    ensures { OnOk result (pairs.new.items ≡ pairs.old.items ++ spec.if_repeated pair) }
{
    if pair.times >= 2 {
        pairs.push(pair)?;
    }
    Ok(())
}

/// The tables at which a player sits.
fn tables_with(alloc: Global, tables: &[Table], player: u16) -> Result<Vec<Table>, AllocError>
    ensures { IfOk result (λ own. own.items ≡ spec.tables_with tables.now player) }
{
    tables
        .iter()
        .copied()
        .filter(|table| table.seats(player))
        .collect(alloc)
}

/// At how many of the tables a player sits.
fn count_with(tables: &[Table], player: u16) -> usize
    ensures { result ≡ spec.count_with tables.now player }
{
    tables.iter().filter(|table| table.seats(player)).count()
}

/// How often a player sits at each of the first seats of these tables.
pub fn seat_counts(tables: &[Table], player: u16) -> SeatCounts
    ensures { result ≡ spec.seat_counts tables.now player }
{
    SeatCounts {
        east: times_at(tables, Seat::East, player),
        south: times_at(tables, Seat::South, player),
        west: times_at(tables, Seat::West, player),
        north: times_at(tables, Seat::North, player),
    }
}

/// How often a player sits at a seat of these tables.
fn times_at(tables: &[Table], seat: Seat, player: u16) -> usize
    ensures { result ≡ spec.times_at tables.now seat player }
{
    tables
        .iter()
        .filter(|table| table.at(seat) == player)
        .count()
}
