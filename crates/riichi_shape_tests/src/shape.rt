//! Worked hands and their answers.
ghost use Rattle.std.specs.Prelude.{◌<◌, ◌≤◌};

use crate::facts::{holds, same};
use arrayvec::ArrayString;
use riichi_hand::{LineCode, LineFault, ShapeRecord};
use riichi_rows::join_two;
use riichi_shape::{
    Accepts, DiscardList, KeptRow, KeptUpper, LentMemo, Memory, RowCache, ShapeAnswer, accepted,
    join_rows, laws, push_shape, shanten, shanten_with, shape, shape_text, shape_with, suit_row,
};
use riichi_tiles::{BySuit, Counts, Kind, Meld, Melds, Suit, read_counts};
use std::alloc::Global;
use std::process::Abort;

struct Row {
    hand: &'static str,
    melds: &'static [&'static str],
    seen: &'static str,
    text: &'static str,
}

fn tiles(rt: &impl Abort, text: &str) -> Counts {
    if text.is_empty() {
        return Counts::new();
    }
    read_counts(text.as_bytes()).ok().expect(rt, "tiles")
}

fn melds(rt: &impl Abort, texts: &[&str]) -> Melds {
    let mut melds = Melds::new();
    for text in texts {
        let meld = Meld::read(text.as_bytes()).expect(rt, "a meld");
        if melds.count() < 4 && meld.is_proper() {
            melds.push(meld);
        }
    }
    melds
}

fn asked_in(rt: &impl Abort, row: &Row) -> ShapeRecord {
    let (hand, seen) = (tiles(rt, row.hand), tiles(rt, row.seen));
    let asked = ShapeRecord::new(hand, melds(rt, row.melds), seen);
    asked.ok().expect(rt, "a shape")
}

fn check(rt: &impl Abort, row: &Row) {
    same(
        rt,
        shape_text(&shape(&asked_in(rt, row))).as_str(),
        row.text,
    );
}

fn check_with(rt: &impl Abort, cache: &mut RowCache, row: &Row) {
    let asked = asked_in(rt, row);
    let answer = shape_with(cache, &asked);
    same(rt, shape_text(&answer).as_str(), row.text);
    holds(rt, answer == shape(&asked));
}

/// What stands before an answer is kept.
#[test]
fn writes_behind_a_text(rt: HostRuntime) {
    let asked = asked_in(&rt, &ROWS[0]);
    let mut text = ArrayString::new();
    text.push_str("> ");
    push_shape(&mut text, &shape(&asked));
    same(&rt, text.as_str(), "> shanten 0 accepts 2p:4 5p:4 live 8");
}

/// Two in the hand and three seen elsewhere are a fifth copy.
#[test]
fn refuses_a_fifth_copy(rt: HostRuntime) {
    let asked = ShapeRecord::new(
        tiles(&rt, "123456789m1134p"),
        Melds::new(),
        tiles(&rt, "111p"),
    );
    same(&rt, asked.err(), Some(LineFault::Line(LineCode::H9)));
}

/// A ready hand, live copies that are seen, a hand of fourteen; four copies of 1z of which no fifth
/// is wanted; melds that leave one copy of a kind; a complete hand, and discards in their order. The
/// last five: seven pairs that want kinds held once, and kinds not held; sets and a pair as near as
/// seven pairs; orphans that have their pair, and that want it.
static ROWS: [Row; 17] = [
    Row {
        hand: "123456789m1134p",
        melds: &[],
        seen: "",
        text: "shanten 0 accepts 2p:4 5p:4 live 8",
    },
    Row {
        hand: "123456789m1134p",
        melds: &[],
        seen: "2222p",
        text: "shanten 0 accepts 5p:4 live 4",
    },
    Row {
        hand: "123456789m11348p",
        melds: &[],
        seen: "",
        text: "shanten 0 discard 8p accepts 2p:4 5p:4 live 8",
    },
    Row {
        hand: "123456789m1111z",
        melds: &[],
        seen: "",
        text: "shanten 1 accepts 1m:3 2m:3 3m:3 4m:3 5m:3 6m:3 7m:3 8m:3 9m:3 1p:4 2p:4 3p:4 4p:4 5p:4 6p:4 7p:4 8p:4 9p:4 1s:4 2s:4 3s:4 4s:4 5s:4 6s:4 7s:4 8s:4 9s:4 2z:4 3z:4 4z:4 5z:4 6z:4 7z:4 live 123",
    },
    Row {
        hand: "1z",
        melds: &["pon:111z", "chi:123m", "chi:123m", "chi:123m"],
        seen: "",
        text: "shanten 1 accepts 4m:4 5m:4 6m:4 7m:4 8m:4 9m:4 1p:4 2p:4 3p:4 4p:4 5p:4 6p:4 7p:4 8p:4 9p:4 1s:4 2s:4 3s:4 4s:4 5s:4 6s:4 7s:4 8s:4 9s:4 2z:4 3z:4 4z:4 5z:4 6z:4 7z:4 live 120",
    },
    Row {
        hand: "11z",
        melds: &["pon:222z", "chi:123m", "chi:123m", "chi:123m"],
        seen: "",
        text: "shanten -1 discard 1z accepts 1z:2 live 2",
    },
    Row {
        hand: "12z",
        melds: &["pon:333z", "chi:123m", "chi:123m", "chi:123m"],
        seen: "222z",
        text: "shanten 0 discard 2z accepts 1z:3 live 3 discard 1z accepts - live 0",
    },
    Row {
        hand: "19m19p19s1234567z",
        melds: &[],
        seen: "",
        text: "shanten 0 accepts 1m:3 9m:3 1p:3 9p:3 1s:3 9s:3 1z:3 2z:3 3z:3 4z:3 5z:3 6z:3 7z:3 live 39",
    },
    Row {
        hand: "1133m5577p2299s4z",
        melds: &[],
        seen: "",
        text: "shanten 0 accepts 4z:3 live 3",
    },
    Row {
        hand: "1z",
        melds: &["kan:2222z", "ankan:3333z", "pon:444z", "pon:555z"],
        seen: "",
        text: "shanten 0 accepts 1z:3 live 3",
    },
    Row {
        hand: "1133m5577p2299s45z",
        melds: &[],
        seen: "",
        text: "shanten 0 discard 4z accepts 5z:3 live 3 discard 5z accepts 4z:3 live 3",
    },
    Row {
        hand: "19m19p19s1234566z8p",
        melds: &[],
        seen: "",
        text: "shanten 0 discard 8p accepts 7z:4 live 4",
    },
    Row {
        hand: "1133m5577p22s9s4z6z",
        melds: &[],
        seen: "",
        text: "shanten 1 accepts 9s:3 4z:3 6z:3 live 9",
    },
    Row {
        hand: "1155m99m1122333z",
        melds: &[],
        seen: "",
        text: "shanten 1 accepts 2m:4 3m:4 4m:4 6m:4 7m:4 8m:4 1p:4 2p:4 3p:4 4p:4 5p:4 6p:4 7p:4 8p:4 9p:4 1s:4 2s:4 3s:4 4s:4 5s:4 6s:4 7s:4 8s:4 9s:4 4z:4 5z:4 6z:4 7z:4 live 112",
    },
    Row {
        hand: "112233m4455p79s7z",
        melds: &[],
        seen: "",
        text: "shanten 1 accepts 4p:2 5p:2 7s:3 8s:4 9s:3 7z:3 live 17",
    },
    Row {
        hand: "19m19p19s1123456z",
        melds: &[],
        seen: "",
        text: "shanten 0 accepts 7z:4 live 4",
    },
    Row {
        hand: "19m19p19s123456z8p",
        melds: &[],
        seen: "",
        text: "shanten 1 accepts 1m:3 9m:3 1p:3 9p:3 1s:3 9s:3 1z:3 2z:3 3z:3 4z:3 5z:3 6z:3 7z:4 live 40",
    },
];

#[test]
fn worked_rows(rt: HostRuntime) {
    for row in &ROWS {
        check(&rt, row);
    }
}

fn discards_of(answer: &ShapeAnswer) -> Option<DiscardList> {
    match answer.accepts {
        Accepts::Thirteen(_) => None,
        Accepts::Fourteen(discards) => Some(discards),
    }
}

#[test]
fn parts_of_an_answer(rt: HostRuntime) {
    let answer = shape(&asked_in(&rt, &ROWS[6]));
    same(&rt, answer.shanten, 0);
    let discards = discards_of(&answer).expect(&rt, "thirteen tiles");
    same(&rt, discards.len(), 2);
    let first = discards.get(0).expect(&rt, "no discard");
    same(&rt, first.kind, Kind::at(28));
    same(&rt, first.accepted.live(), 3);
    same(&rt, first.accepted.get(Kind::at(27)), 3);
    let second = discards.get(1).expect(&rt, "no discard");
    same(&rt, second.kind, Kind::at(27));
    holds(&rt, second.accepted.is_empty());
    holds(&rt, discards.get(2).is_none());
    let short = discards.short_at(0).expect(&rt, "no discard");
    same(&rt, short.kind, Kind::at(28));
    same(&rt, short.live, 3);
    same(&rt, short.accepts.bits(), 1 << 27);
    holds(&rt, discards.short_at(2).is_none());
}

#[test]
fn thirteen_tiles(rt: HostRuntime) {
    let hand = tiles(&rt, "123456789m1134p");
    let melds = Melds::new();
    same(&rt, shanten(&hand, &melds), 0);
    let (mut rows, mut uppers) = ([KeptRow::of_nothing(); 8], [KeptUpper::of_nothing(); 1]);
    let mut memo = LentMemo::new(&mut rows, &mut uppers, &mut []);
    for _ in 0..2 {
        same(&rt, shanten_with(&mut memo, &hand, &melds), 0);
    }
    same(&rt, accepted(&hand, &melds, &Counts::new()).live(), 8);
    same(&rt, shanten(&Counts::new(), &melds), 13);
}

#[test]
fn counts_of_a_row(rt: HostRuntime) {
    let mut held = [0; 34];
    held[33] = 4;
    let counts = Counts::of(&held).expect(&rt, "five of a kind");
    same(&rt, counts.get(Kind::at(33)), 4);
    same(&rt, counts.total(), 4);
    held[33] = 5;
    holds(&rt, Counts::of(&held).is_none());
}

#[test]
fn rows_of_no_tiles(rt: HostRuntime) {
    let row = suit_row([0; 9], [4; 9], true);
    for sets in 0..5u8 {
        same(&rt, row.get(sets, false), Some(3 * sets));
        same(&rt, row.get(sets, true), Some(3 * sets + 2));
    }
    let closed = suit_row([0; 9], [0; 9], true);
    same(&rt, closed.get(0, false), Some(0));
    same(&rt, closed.get(0, true), None);
    for sets in 1..5u8 {
        same(&rt, closed.get(sets, false), None);
        same(&rt, closed.get(sets, true), None);
    }
    let open = BySuit {
        characters: row,
        circles: row,
        bamboos: row,
        honours: row,
    };
    let shut = BySuit {
        characters: closed,
        circles: closed,
        bamboos: closed,
        honours: closed,
    };
    same(&rt, join_rows(&open, 4), Some(14));
    same(&rt, join_rows(&shut.with(Suit::Honours, row), 1), Some(5));
    same(&rt, join_rows(&shut, 0), None);
}

#[test]
fn rows_kept_joined(rt: HostRuntime) {
    let row = suit_row([0; 9], [4; 9], true);
    let closed = suit_row([0; 9], [0; 9], true);
    let one_open = join_two(&row, &closed).and(&closed);
    same(&rt, one_open.with(&closed, 4), Some(14));
    same(&rt, one_open.with(&row, 4), Some(14));
    let none_open = join_two(&closed, &closed).and(&closed);
    same(&rt, none_open.with(&row, 1), Some(5));
    same(&rt, none_open.with(&closed, 0), None);
}

#[test]
fn rows_of_some_tiles(rt: HostRuntime) {
    let runs = suit_row([2, 2, 2, 0, 0, 0, 0, 0, 0], [4; 9], true);
    same(&rt, runs.get(2, false), Some(0));
    same(&rt, runs.get(2, true), Some(2));
    same(&rt, runs.get(1, true), Some(1));
    let honours = suit_row(
        [1, 1, 1, 0, 0, 0, 0, 0, 0],
        [4, 4, 4, 4, 4, 4, 4, 0, 0],
        false,
    );
    same(&rt, honours.get(1, false), Some(2));
    same(&rt, honours.get(1, true), Some(3));
}

/// A cache, where one request for memory may be refused.
fn a_cache(alloc: Global, capacity: usize) -> Result<RowCache, Memory>
    requires some { 0 < capacity }
    requires most { capacity ≤ 65536 }
{
    RowCache::new(alloc, capacity).or_else(|_| RowCache::new(alloc, capacity))
}

#[test]
fn a_cache_of_one_row(rt: HostRuntime) {
    let mut cache = a_cache(rt.alloc(), 1)
        .ok()
        .expect(&rt, "memory, refused once at the most");
    for place in [0, 3, 0, 4] {
        check_with(&rt, &mut cache, &ROWS[place]);
    }
}

fn check_rows_with(rt: &impl Abort, made: Result<RowCache, Memory>) {
    let mut cache = made.ok().expect(rt, "memory, refused once at the most");
    for row in &ROWS {
        check_with(rt, &mut cache, row);
    }
}

#[test]
fn states_the_laws(_rt: HostRuntime) {
    laws::acceptance();
    laws::forms();
    laws::joins();
    laws::pairs();
    laws::orphans();
    laws::ready();
    laws::order();
    laws::discards();
    riichi_rows::laws::entries();
}

#[test]
fn caches_of_every_size(rt: HostRuntime) {
    check_rows_with(&rt, a_cache(rt.alloc(), 1));
    check_rows_with(&rt, a_cache(rt.alloc(), 2));
    check_rows_with(&rt, a_cache(rt.alloc(), 65_536));
}
