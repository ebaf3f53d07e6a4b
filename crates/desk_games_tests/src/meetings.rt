//! Meetings and seats, counted by hand.
use crate::facts::{holds, same};
use riichi_seats::{
    Repeated, Seat, SeatCounts, Table, repeated_pairs, seat_counts, seats_by_order,
};
use std::test::Fail;

fn table(east: u16, south: u16, west: u16, north: u16) -> Table {
    Table {
        east,
        south,
        west,
        north,
    }
}

/// Two sessions of eight: 0 and 1 meet again, and so do 6 and 7; the third session is the first once more, but for 3 and 4.
fn games() -> [Table; 6] {
    [
        table(0, 1, 2, 3),
        table(4, 5, 6, 7),
        table(1, 0, 4, 5),
        table(2, 3, 7, 6),
        table(0, 1, 2, 4),
        table(3, 5, 6, 7),
    ]
}

fn repeated(one: u16, other: u16, times: usize) -> Repeated {
    Repeated { one, other, times }
}

#[test]
fn pairs_that_meet_again(rt: HostRuntime) -> Result<(), Fail> {
    let pairs = repeated_pairs(rt.alloc(), games().as_slice(), 8)?;
    let wanted = [
        repeated(0, 1, 3),
        repeated(0, 2, 2),
        repeated(0, 4, 2),
        repeated(1, 2, 2),
        repeated(1, 4, 2),
        repeated(2, 3, 2),
        repeated(3, 6, 2),
        repeated(3, 7, 2),
        repeated(4, 5, 2),
        repeated(5, 6, 2),
        repeated(5, 7, 2),
        repeated(6, 7, 3),
    ];
    same(&rt, pairs.as_slice(), wanted.as_slice());
    let none = repeated_pairs(rt.alloc(), &games()[..2], 8)?;
    holds(&rt, none.is_empty());
    Ok(())
}

#[test]
fn seats_of_a_player(rt: HostRuntime) {
    let wanted = SeatCounts {
        east: 2,
        south: 1,
        west: 0,
        north: 0,
    };
    same(&rt, seat_counts(games().as_slice(), 0), wanted);
    let wanted = SeatCounts {
        east: 0,
        south: 0,
        west: 1,
        north: 2,
    };
    same(&rt, seat_counts(games().as_slice(), 7), wanted);
}

#[test]
fn players_of_a_table(rt: HostRuntime) {
    let table = table(3, 5, 6, 7);
    same(&rt, table.at(Seat::East), 3);
    same(&rt, table.at(Seat::South), 5);
    same(&rt, table.at(Seat::West), 6);
    same(&rt, table.at(Seat::North), 7);
    holds(&rt, table.seats(6));
    holds(&rt, !table.seats(4));
}

#[test]
fn by_order(rt: HostRuntime) -> Result<(), Fail> {
    let games = seats_by_order(rt.alloc(), 2)?;
    same(
        &rt,
        games.as_slice(),
        [table(0, 1, 2, 3), table(4, 5, 6, 7)].as_slice(),
    );
    Ok(())
}
