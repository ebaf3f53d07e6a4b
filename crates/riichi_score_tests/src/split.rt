use crate::facts::{holds, same};
use arrayvec::ArrayString;
use riichi_hand::HandRecord;
use riichi_split::*;
use riichi_tiles::{Block, Counts, Kind, Meld, Melds, read_counts};
use std::process::Abort;

pub(crate) fn tiles(rt: &impl Abort, text: &[u8]) -> Counts {
    read_counts(text).ok().expect(rt, "a text of tiles")
}

/// That the tiles are read in so many ways.
fn has_readings(rt: &impl Abort, text: &[u8], melds: &Melds, winning: u8, wanted: usize) {
    let winning = Kind::new(winning).expect(rt, "a kind");
    let mut count = 0usize;
    for _reading in Readings::new(&tiles(rt, text), melds, winning) {
        count = count.saturating_add(1);
    }
    same(rt, count, wanted);
}

/// The numbers for tiles that read in many ways are an outside program's.
#[test]
fn gives_each_reading(rt: HostRuntime) {
    static ROWS: [(&[u8], u8, usize); 8] = [
        (b"999978m444p567s22s", 8, 2),
        (b"112233m556677p99s", 26, 2),
        (b"1111m2233p4455s66z", 32, 0),
        (b"66677778888999m", 7, 8),
        (b"19m19p19s12345677z", 33, 1),
        (b"1122m3344p5566s77z", 33, 1),
        (b"111222333m456p77z", 0, 2),
        (b"123456789m1122z", 27, 0),
    ];
    for &(text, winning, count) in &ROWS {
        has_readings(&rt, text, &Melds::new(), winning, count);
    }
    let mut melds = Melds::new();
    melds.push(Meld::Pon(Kind::at(27)));
    has_readings(&rt, b"22234567778m", &melds, 7, 1);
    has_readings(&rt, b"1122334455667m", &melds, 6, 0);
}

/// Two equal runs twice and a pair are seven pairs too.
#[test]
fn reads_runs_and_seven_pairs(rt: HostRuntime) {
    let counts = tiles(&rt, b"112233m556677p99s");
    let mut readings = Readings::new(&counts, &Melds::new(), Kind::at(26));
    same(&rt, readings.next(), Some(Reading::SevenPairs));
    let Some(reading) = readings.next() else {
        return holds(&rt, false);
    };
    let Reading::Standard { sets, pair, done } = reading else {
        return holds(&rt, false);
    };
    same(&rt, sets.len(), 4);
    same(&rt, sets.get(0), Some(Block::Run(Kind::at(0))));
    same(&rt, sets.get(1), Some(Block::Run(Kind::at(0))));
    same(&rt, sets.get(2), Some(Block::Run(Kind::at(13))));
    same(&rt, sets.get(3), Some(Block::Run(Kind::at(13))));
    same(&rt, pair, Kind::at(26));
    same(&rt, done, Block::Pair(Kind::at(26)));
    same(&rt, readings.next(), None);
}

#[test]
fn completes_the_triplet_or_the_run(rt: HostRuntime) {
    let counts = tiles(&rt, b"999978m444p567s22s");
    let mut dones: [Option<Block>; 2] = [None, None];
    let mut place = 0;
    for reading in Readings::new(&counts, &Melds::new(), Kind::at(8)) {
        let Reading::Standard { sets, pair, done } = reading else {
            return holds(&rt, false);
        };
        same(&rt, pair, Kind::at(19));
        same(&rt, sets.len(), 4);
        holds(&rt, !sets.is_empty());
        same(&rt, sets.get(0), Some(Block::Run(Kind::at(6))));
        same(&rt, sets.get(1), Some(Block::Triplet(Kind::at(8))));
        same(&rt, sets.as_slice()[2], Block::Triplet(Kind::at(12)));
        same(&rt, sets.get(3), Some(Block::Run(Kind::at(22))));
        same(&rt, sets.get(4), None);
        if place < 2 {
            dones[place] = Some(done);
            place += 1;
        }
    }
    same(
        &rt,
        dones,
        [
            Some(Block::Run(Kind::at(6))),
            Some(Block::Triplet(Kind::at(8))),
        ],
    );
}

#[test]
fn tells_a_win(rt: HostRuntime) {
    static ROWS: [(&[u8], u8, bool); 8] = [
        (b"999978m444p567s22s", 0, true),
        (b"1111m2233p4455s66z", 0, false),
        (b"1122m3344p5566s77z", 0, true),
        (b"19m19p19s12345677z", 0, true),
        (b"22234567778m", 1, true),
        (b"22234567778m", 5, false),
        (b"11z", 4, true),
        (b"1122m3344p5566s77z", 1, false),
    ];
    for &(text, melds, won) in &ROWS {
        same(&rt, is_win(&tiles(&rt, text), melds), won);
    }
}

/// That a hand has these waits.
fn has_waits(rt: &impl Abort, text: &[u8], melds: Melds, written: &str) {
    let hand = HandRecord::new(tiles(rt, text), melds).ok();
    let mut text: ArrayString<MOST_WAITS> = ArrayString::new();
    push_waits(&mut text, waits(&hand.expect(rt, "a hand")));
    same(rt, text.as_str(), written);
}

#[test]
fn tells_the_waits(rt: HostRuntime) {
    static ROWS: [(&[u8], &str); 8] = [
        (b"1112345678999m", "waits 123456789m"),
        (b"123456789m1111z", "waits -"),
        (b"19m19p19s1234567z", "waits 19m19p19s1234567z"),
        (b"1133m5577p2288s4z", "waits 4z"),
        (b"123456789m1122z", "waits 12z"),
        (b"67789m23344440s", "waits 58m"),
        (b"23214312144z11p", "waits 1p3z"),
        (b"11222p55666777z", "waits 1p5z"),
    ];
    for &(text, written) in &ROWS {
        has_waits(&rt, text, Melds::new(), written);
    }
    let mut melds = Melds::new();
    melds.push(Meld::Pon(Kind::at(27)));
    has_waits(&rt, b"2223456777m", melds, "waits 12345678m");
    // The meld holds all four 1m, one of the two kinds that would complete the hand.
    let mut held = Melds::new();
    held.push(Meld::Kan(Kind::at(0)));
    has_waits(&rt, b"23m456p456s22z", held, "waits 4m");
}

#[test]
fn states_the_law(_rt: HostRuntime) {
    laws::each_collection_has_one_order();
}
