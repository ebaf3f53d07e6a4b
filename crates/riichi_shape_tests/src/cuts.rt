//! Cuts of suits, and waits by them, worked by hand.
use crate::facts::same;
use arrayvec::ArrayString;
use riichi_cuts::{
    CutMemo, CutSource, FreshCuts, KeptCut, LentCuts, Ranks, WaitMemo, cut_of, waits_with,
};
use riichi_hand::HandRecord;
use riichi_split::{MOST_WAITS, SuitTiles, push_waits, waits};
use riichi_tiles::{Kind, KindSet, Meld, Melds, read_counts};
use std::process::Abort;

/// Of each suit: the pairs, and as bits the ranks for sets and those for sets and a pair.
#[test]
fn cuts_a_suit(rt: HostRuntime) {
    static ROWS: [([u8; 9], bool, (u8, u64, u64)); 8] = [
        ([0; 9], true, (0, 0, 0)),
        ([1, 1, 1, 0, 0, 0, 0, 0, 0], true, (0, 0, 0)),
        ([1, 1, 1, 0, 0, 0, 0, 0, 0], false, (2, 0, 0)),
        // 12 waits for 3, and a pair of 1 for a third.
        ([1, 1, 0, 0, 0, 0, 0, 0, 0], true, (2, 0b100, 0)),
        ([2, 0, 0, 0, 0, 0, 0, 0, 0], true, (1, 0b1, 0)),
        ([2, 3, 0, 0, 0, 0, 0, 0, 0], false, (1, 0b1, 0)),
        // 1234567 has its pair of 1, 4 or 7.
        ([1, 1, 1, 1, 1, 1, 1, 0, 0], true, (2, 0, 0b100_1001)),
        // 1111234 has it of 4 alone, since there is no fifth 1.
        ([4, 1, 1, 1, 0, 0, 0, 0, 0], true, (2, 0, 0b1000)),
    ];
    for &(held, has_runs, (pairs, sets, pair)) in &ROWS {
        let cut = cut_of(&SuitTiles { held, has_runs });
        same(&rt, cut.pairs, pairs);
        same(&rt, cut.sets.bits(), sets);
        same(&rt, cut.pair.bits(), pair);
    }
}

#[test]
fn sets_of_ranks(rt: HostRuntime) {
    let mut ranks = Ranks::new();
    ranks.insert(0);
    ranks.insert(8);
    ranks.insert(8);
    same(&rt, ranks.bits(), 0b1_0000_0001);
}

fn hand_of(rt: &impl Abort, text: &[u8], melds: Melds) -> HandRecord {
    let tiles = read_counts(text).ok().expect(rt, "tiles");
    HandRecord::new(tiles, melds).ok().expect(rt, "a hand")
}

fn written(kinds: KindSet) -> ArrayString<MOST_WAITS> {
    let mut text = ArrayString::new();
    push_waits(&mut text, kinds);
    text
}

/// The waits by the source are those that are written here, and those of riichi_split; asked once more they are the same.
fn waits_are<C: CutSource>(rt: &impl Abort, source: &mut C, hand: &HandRecord, text: &str) {
    for _ in 0..2 {
        let kinds = waits_with(source, hand);
        same(rt, written(kinds).as_str(), text);
        same(rt, kinds, waits(hand));
    }
}

fn tells_waits<C: CutSource>(rt: &impl Abort, source: &mut C) {
    static ROWS: [(&[u8], &str); 10] = [
        (b"1112345678999m", "waits 123456789m"),
        (b"123456789m1111z", "waits -"),
        (b"19m19p19s1234567z", "waits 19m19p19s1234567z"),
        (b"1133m5577p2288s4z", "waits 4z"),
        (b"123456789m1122z", "waits 12z"),
        (b"67789m23344440s", "waits 58m"),
        (b"23214312144z11p", "waits 1p3z"),
        (b"11222p55666777z", "waits 1p5z"),
        // Each suit leaves tiles over by three, so that none completes sets and a pair.
        (b"1234m1234p11122s", "waits -"),
        (b"1111234m555p777s", "waits 4m"),
    ];
    for &(tiles, text) in &ROWS {
        waits_are(rt, source, &hand_of(rt, tiles, Melds::new()), text);
    }
    let mut wind = Melds::new();
    wind.push(Meld::Pon(Kind::at(27)));
    let hand = hand_of(rt, b"2223456777m", wind);
    waits_are(rt, source, &hand, "waits 12345678m");
    // The meld holds all four 1m, one of the two kinds that would complete the hand.
    let mut kong = Melds::new();
    kong.push(Meld::Kan(Kind::at(0)));
    let hand = hand_of(rt, b"23m456p456s22z", kong);
    waits_are(rt, source, &hand, "waits 4m");
}

#[test]
fn tells_waits_by_each_source(rt: HostRuntime) {
    tells_waits(&rt, &mut FreshCuts);
    // It is there whether its memory can be had or not.
    tells_waits(&rt, &mut WaitMemo::new(rt.alloc()));
    tells_waits(&rt, &mut WaitMemo::in_value());
    let memo = CutMemo::new(rt.alloc(), 64).or_else(|_| CutMemo::new(rt.alloc(), 1));
    let mut memo = memo.ok().expect(&rt, "memory, refused once at the most");
    tells_waits(&rt, &mut memo);
    // No place, one for all suits, and three.
    tells_waits(&rt, &mut LentCuts::new(&mut []));
    tells_waits(&rt, &mut LentCuts::new(&mut [KeptCut::of_nothing(); 1]));
    tells_waits(&rt, &mut LentCuts::new(&mut [KeptCut::of_nothing(); 3]));
}
