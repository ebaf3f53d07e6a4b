//! A session whose players sit by a list.
ghost use Rattle.std.specs.Prelude.{◌≡◌, ◌≤◌, ◌*◌, ◌++◌, IfOk, OnOk, IsPermutation};
ghost use Rattle.std.specs.List.{range_with_len};
ghost use Rattle.riichi_seats.specs.Seatings as spec;

use crate::table::Table;
use std::alloc::{AllocError, Global};

/// The players of so many tables, each once, in the order of a list as far as it names each once.
pub(crate) fn arranged(alloc: Global, tables: u16, list: &[u16]) -> Result<Vec<u16>, AllocError>
    requires { tables ≤ 100 }
    ensures { IfOk result (λ order. IsPermutation (range_with_len 0 (4 * tables)) order.items) }
{
    let mut order = numbers(alloc, 4 * tables)?;
    for (place, player) in list.iter().enumerate() {
        bring(order.as_mut_slice(), place, *player);
    }
    Ok(order)
}

/// The players by their numbers.
pub(crate) fn numbers(alloc: Global, players: u16) -> Result<Vec<u16>, AllocError>
    ensures { IfOk result (λ order. order.items ≡ range_with_len 0 players) }
{
    (0..players).collect(alloc)
}

/// Brings a player to a place, unless the own place is before it; who was there takes the own place.
fn bring(order: &mut [u16], place: usize, player: u16)
    ensures { IsPermutation order.old order.new }
{
    if let Some(found) = order.iter().position(|other| *other == player) {
        if place <= found {
            order.swap(place, found);
        }
    }
}

/// With the tables of an order: the first four sit at the first table, and so on.
pub(crate) fn push_tables(games: &mut Vec<Table>, order: &[u16]) -> Result<(), AllocError>
    ensures { OnOk result (games.new.items ≡ games.old.items ++ spec.tables_of order.now) }
{
    let mut rest = order;
    while let [east, south, west, north, others @ ..] = rest {
        games.push(Table {
            east: *east,
            south: *south,
            west: *west,
            north: *north,
        })?;
        rest = others;
    }
    Ok(())
}
