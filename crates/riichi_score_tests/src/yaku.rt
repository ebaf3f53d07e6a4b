use crate::facts::{holds, same};
use crate::split::tiles;
use arrayvec::ArrayString;
use riichi_blocks::{all_tiles, blocks_of};
use riichi_hand::{By, Flags, Rules, WinParts, WinRecord, Wind};
use riichi_split::Readings;
use riichi_tiles::{Counts, Kind, Meld, Melds, Reds};
use riichi_yaku::*;
use std::process::Abort;

/// A win of the dealer with these tiles, the winning one among them.
fn won(rt: &impl Abort, text: &[u8], winning: Kind, melds: Melds, by: By) -> WinRecord {
    let mut concealed = tiles(rt, text);
    if concealed.get(winning) > 0 {
        concealed.remove(winning);
    }
    let win = WinRecord::new(WinParts {
        rules: Rules::One,
        concealed,
        melds,
        winning,
        by,
        seat: Wind::East,
        round: Wind::East,
        riichi: 0,
        flags: Flags::none(),
        dora: Counts::new(),
        ura: Counts::new(),
        counters: 0,
        sticks: 0,
        reds: Reds::none(),
    });
    win.ok().expect(rt, "a record")
}

/// The set of a reading of a concealed hand won by self-draw.
fn drawn(rt: &impl Abort, text: &[u8], winning: u8) -> YakuSet {
    let winning = Kind::new(winning).expect(rt, "a kind");
    let win = won(rt, text, winning, Melds::new(), By::Tsumo);
    let mut set = None;
    for reading in Readings::new(&tiles(rt, text), &Melds::new(), winning) {
        set = Some(yaku_of(&reading, &win));
    }
    set.expect(rt, "a reading")
}

fn words_of(set: YakuSet) -> ArrayString<3072> {
    let mut text = ArrayString::new();
    push_words(&mut text, set);
    text
}

/// Whichever of its readings is taken, each hand has these yaku.
#[test]
fn tells_the_yaku(rt: HostRuntime) {
    static ROWS: [(&[u8], u8, &str, u8); 8] = [
        (b"234m567m345p567s99s", 22, " fully-concealed pinfu", 2),
        (
            b"223344m567p345s11z",
            22,
            " fully-concealed pure-double-chow",
            2,
        ),
        (
            b"123456789m234p11z",
            12,
            " fully-concealed pure-straight",
            3,
        ),
        (b"1122334455667z7z", 33, " all-honours", 0),
        (b"19m19p19s11234567z", 27, " thirteen-orphans", 0),
        (b"11112345678999m", 0, " nine-gates", 0),
        (
            b"234m234p234s678s11z",
            21,
            " fully-concealed mixed-triple-chow",
            3,
        ),
        (
            b"1133557799m22z11z",
            27,
            " fully-concealed seven-pairs half-flush",
            6,
        ),
    ];
    for &(text, winning, words, han) in &ROWS {
        let set = drawn(&rt, text, winning);
        same(&rt, words_of(set).as_str(), words);
        same(&rt, set.han(true), han);
        same(&rt, set.is_yakuman(), han == 0);
        holds(&rt, !set.is_empty());
    }
}

#[test]
fn tells_an_open_hand(rt: HostRuntime) {
    let text = b"111m789p22233s";
    let mut melds = Melds::new();
    melds.push(Meld::Pon(Kind::at(27)));
    let win = won(&rt, text, Kind::at(20), melds, By::Ron);
    for reading in Readings::new(&tiles(&rt, text), &melds, Kind::at(20)) {
        let set = yaku_of(&reading, &win);
        same(&rt, set.bits(), 0b1100_0000_0000);
        holds(
            &rt,
            set.contains(Yaku::SeatWind) && set.contains(Yaku::PrevalentWind),
        );
        holds(
            &rt,
            !set.contains(Yaku::RedDragon) && !set.contains(Yaku::BlessingOfEarth),
        );
        same(&rt, Yaku::SeatWind.word(), "seat-wind");
        same(&rt, set.han(false), 2);
        let blocks = blocks_of(&reading, &win);
        holds(&rt, !is_pinfu(&blocks, &reading, &win));
        let all = all_tiles(&win);
        holds(&rt, yaku_among(&blocks, &reading, &all, &win) == set);
    }
}
