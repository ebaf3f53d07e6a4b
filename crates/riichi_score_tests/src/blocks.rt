use crate::facts::{holds, same};
use crate::split::tiles;
use riichi_blocks::*;
use riichi_hand::{By, Job, Rules, WinRecord, Wind, is_ron, read_line};
use riichi_split::{Reading, Readings};
use riichi_tiles::{Block, Kind, Suit};
use std::process::Abort;

/// The win of a line, if it tells one.
fn win_of(line: &str) -> Option<WinRecord> {
    let job = read_line(Rules::One, line.as_bytes()).ok()??;
    match job {
        Job::Win(win) => Some(win),
        Job::Waits(_) | Job::Shape(_) => None,
    }
}

fn won(rt: &impl Abort, line: &str) -> WinRecord {
    win_of(line).expect(rt, "a win")
}

fn all(rt: &impl Abort, text: &[u8]) -> AllTiles {
    AllTiles::new(tiles(rt, text).to_array())
}

/// 111m 567p 33s, a concealed kong of 9m and an open triplet of the Green dragon: won by ron, the triplet 111m is open.
fn open_hand(rt: &impl Abort, reading: &Reading, win: &WinRecord) {
    let blocks = blocks_of(reading, win);
    let run = HandBlock::Run(Kind::at(13));
    let pair = HandBlock::Pair(Kind::at(20));
    let claimed = HandBlock::Triplet {
        kind: Kind::at(0),
        concealed: false,
    };
    let kong = HandBlock::Kong {
        kind: Kind::at(8),
        concealed: true,
    };
    let called = HandBlock::Triplet {
        kind: Kind::at(32),
        concealed: false,
    };
    holds(
        rt,
        blocks.as_slice() == [claimed, run, pair, kong, called].as_slice(),
    );
    holds(
        rt,
        blocks.has_run(13) && !blocks.has_run(14) && blocks.has_runs(),
    );
    holds(
        rt,
        blocks.has_triplet(0) && blocks.has_triplet(GREEN) && !blocks.has_triplet(20),
    );
    same(rt, blocks.runs_equal_to(&run), 1);
    same(rt, blocks.runs_equal_to(&kong), 0);
    same(rt, blocks.runs(), 1);
    same(rt, blocks.triplets(), 3);
    same(rt, blocks.concealed_triplets(), 1);
    same(rt, blocks.kongs(), 1);
    same(rt, blocks.sets_fu().into(), 4 + 32 + 4);
    same(rt, pairs_fu(blocks.as_slice(), win).into(), 0);
    holds(
        rt,
        is_standard(reading) && !is_seven_pairs(reading) && !is_thirteen_orphans(reading),
    );
    holds(rt, has_plain_pair(blocks.as_slice(), win));
}

fn pairs_and_tiles(rt: &impl Abort, win: &WinRecord) {
    same(rt, pair_fu(win, Kind::at(20)), 0);
    same(rt, pair_fu(win, Kind::at(31)), 2);
    same(rt, pair_fu(win, Kind::at(27)), 4);
    let all = all_tiles(win);
    let all = all.counts();
    same(
        rt,
        (all[0], all[8], all[14], all[20], all[32]),
        (3, 4, 1, 2, 3),
    );
}

#[test]
fn looks_at_an_open_hand(rt: HostRuntime) {
    let hand = tiles(&rt, b"111m567p33s");
    let line = "win 11m567p33s open=ankan:9999m,pon:666z on=1m by=ron seat=E round=E";
    let win = won(&rt, line);
    let mut is_read = false;
    for reading in Readings::new(&hand, &win.melds(), win.winning()) {
        open_hand(&rt, &reading, &win);
        is_read = true;
    }
    holds(&rt, is_read);
    pairs_and_tiles(&rt, &win);
}

/// Whether all blocks have an orphan, all a terminal, some an honour, and whether the wait is two-sided.
fn kinds_in_blocks(reading: &Reading, win: &WinRecord) -> [bool; 4] {
    let blocks = blocks_of(reading, win);
    [
        blocks.all_have_orphans(),
        blocks.all_have_terminals(),
        blocks.some_has_honour(),
        has_two_sided_wait(reading, win.winning()),
    ]
}

/// That the readings of a win have such blocks.
fn has_blocks(rt: &impl Abort, hand: &[u8], line: &str, wanted: [bool; 4]) {
    let win = won(rt, line);
    let mut is_read = false;
    for reading in Readings::new(&tiles(rt, hand), &win.melds(), win.winning()) {
        is_read = true;
        holds(rt, kinds_in_blocks(&reading, &win) == wanted);
    }
    holds(rt, is_read);
}

#[test]
fn looks_at_the_kinds_in_blocks(rt: HostRuntime) {
    has_blocks(
        &rt,
        b"123m789m12399p789s",
        "win 123m789m12399p78s on=9s by=ron seat=E round=E",
        [true, true, false, true],
    );
    has_blocks(
        &rt,
        b"123m789m12399p789s",
        "win 123m789m12399p89s on=7s by=ron seat=E round=E",
        [true, true, false, false],
    );
    has_blocks(
        &rt,
        b"123m789m123p11z789s",
        "win 123m789m123p11z78s on=9s by=ron seat=E round=E",
        [true, false, true, true],
    );
    has_blocks(
        &rt,
        b"123m789m12344p678s",
        "win 123m789m12344p78s on=6s by=ron seat=E round=E",
        [false, false, false, true],
    );
}

/// Seven pairs and thirteen orphans have no blocks.
fn special(rt: &impl Abort, reading: &Reading, win: &WinRecord, seven_pairs: bool) {
    holds(
        rt,
        blocks_of(reading, win).as_slice().is_empty() && !is_standard(reading),
    );
    same(rt, is_seven_pairs(reading), seven_pairs);
    same(rt, is_thirteen_orphans(reading), !seven_pairs);
    holds(
        rt,
        !has_plain_pair(&[], win) && !has_two_sided_wait(reading, win.winning()),
    );
}

/// That a win is read as seven pairs, or as thirteen orphans.
fn is_special(rt: &impl Abort, hand: &[u8], line: &str, seven_pairs: bool) {
    let win = won(rt, line);
    let mut is_read = false;
    for reading in Readings::new(&tiles(rt, hand), &win.melds(), win.winning()) {
        special(rt, &reading, &win, seven_pairs);
        is_read = true;
    }
    holds(rt, is_read);
}

#[test]
fn looks_at_special_readings(rt: HostRuntime) {
    is_special(
        &rt,
        b"1133557799m2211z",
        "win 1133557799m22z1z on=1z by=ron seat=E round=E",
        true,
    );
    is_special(
        &rt,
        b"19m19p19s11234567z",
        "win 19m19p19s1234567z on=1z by=ron seat=E round=E",
        false,
    );
}

#[test]
fn looks_at_all_tiles(rt: HostRuntime) {
    holds(
        &rt,
        all(&rt, b"28m5p28s").are_simples() && !all(&rt, b"289m").are_simples(),
    );
    holds(
        &rt,
        all(&rt, b"19m17z").are_orphans() && !all(&rt, b"19m8p").are_orphans(),
    );
    holds(
        &rt,
        all(&rt, b"19m19p19s").are_terminals() && !all(&rt, b"19m1z").are_terminals(),
    );
    holds(
        &rt,
        all(&rt, b"1234567z").are_honours() && !all(&rt, b"9s1z").are_honours(),
    );
    holds(
        &rt,
        all(&rt, b"23468s6z").are_green() && !all(&rt, b"5s").are_green(),
    );
    holds(
        &rt,
        all(&rt, b"19p").are_of_suit(Suit::Circles)
            && !all(&rt, b"19p1z").are_of_suit(Suit::Circles),
    );
    holds(
        &rt,
        all(&rt, b"19p1z").are_of_suit_or_honours(Suit::Circles),
    );
    holds(
        &rt,
        !all(&rt, b"1m19p1z").are_of_suit_or_honours(Suit::Circles),
    );
    holds(
        &rt,
        all(&rt, b"9m1s").has_suit(Suit::Bamboos) && !all(&rt, b"9m1s").has_suit(Suit::Circles),
    );
    holds(
        &rt,
        all(&rt, b"9s1z").has_honours() && !all(&rt, b"9s").has_honours(),
    );
}

#[test]
fn knows_kinds_waits_and_winners(rt: HostRuntime) {
    holds(
        &rt,
        is_wind(EAST) && is_wind(30) && !is_wind(26) && !is_wind(WHITE),
    );
    holds(&rt, is_dragon(WHITE) && is_dragon(RED) && !is_dragon(30));
    same(&rt, KINDS, 34);
    let run = Block::Run(Kind::at(6));
    same(&rt, wait_fu(Kind::at(6), &run), 2);
    same(&rt, wait_fu(Kind::at(7), &run), 2);
    same(&rt, wait_fu(Kind::at(8), &run), 0);
    same(&rt, wait_fu(Kind::at(6), &Block::Pair(Kind::at(6))), 2);
    same(&rt, wait_fu(Kind::at(6), &Block::Triplet(Kind::at(6))), 0);
    holds(&rt, is_ron(By::Ron) && !is_ron(By::Tsumo));
    holds(&rt, Wind::East.is_dealer() && !Wind::North.is_dealer());
}

#[test]
fn counts_blocks_as_they_come(rt: HostRuntime) {
    let mut blocks = Blocks::new();
    let run = HandBlock::Run(Kind::at(9));
    blocks.push(run);
    blocks.push(run);
    same(&rt, blocks.runs_equal_to(&run), 2);
    same(&rt, blocks.runs(), 2);
    holds(&rt, blocks.has_equal_runs() && !blocks.has_triplet(9));
}
