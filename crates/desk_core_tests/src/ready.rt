use crate::facts::{holds, holds_in};
use desk_core::{is_ready, laws};
use riichi_hand::HandRecord;
use riichi_tiles::{Kind, Meld, Melds, read_counts};
use std::process::Abort;

fn is_ready_with(rt: &impl Abort, tiles: &str, melds: Melds) -> bool {
    let tiles = read_counts(tiles.as_bytes()).ok().expect(rt, "tiles");
    let hand = HandRecord::new(tiles, melds).ok();
    is_ready(&hand.expect(rt, "a hand"))
}

/// Each row is a hand, and whether it is ready.
static ROWS: [(&str, bool); 7] = [
    ("1112345678999m", true),
    ("19m19p19s1234567z", true),
    ("1133m5577p2288s4z", true),
    ("123456789m1122z", true),
    // All four tiles that would be the pair are held.
    ("123456789m1111z", false),
    ("123456789m1234z", false),
    ("147m258p369s1234z", false),
];

#[test]
fn rows(rt: HostRuntime) {
    for &(tiles, ready) in &ROWS {
        holds_in(
            &rt,
            &tiles,
            is_ready_with(&rt, tiles, Melds::new()) == ready,
        );
    }
}

#[test]
fn the_last_tile_of_its_kind_is_melded(rt: HostRuntime) {
    let mut melds = Melds::new();
    melds.push(Meld::Pon(Kind::at(27)));
    holds(&rt, !is_ready_with(&rt, "123456789m1z", melds));
    holds(&rt, is_ready_with(&rt, "123456789m2z", melds));
}

#[test]
fn states_the_law(_rt: HostRuntime) {
    laws::ready_exactly_where_it_waits();
}
