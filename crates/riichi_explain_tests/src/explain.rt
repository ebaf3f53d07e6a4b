use crate::facts::{holds, same_in};
use arrayvec::ArrayString;
use riichi_explain::*;
use riichi_hand::{Job, Rules, WinRecord, read_line};
use riichi_score::WinAnswer;
use riichi_shape::{FormDistances, FreshRows};
use std::process::Abort;

fn text_of(job: &Job) -> ArrayString<4608> {
    match job {
        Job::Win(win) => win_text(win),
        Job::Shape(shape) => forms_text(&explain_shape(&mut FreshRows, shape)),
        Job::Waits(hand) => waits_text(&explain_waits(hand).rows),
    }
}

fn win_text(win: &WinRecord) -> ArrayString<4608> {
    let mut text = ArrayString::new();
    push_win_lines(&mut text, explain_win(&mut FreshRows, win), win);
    text
}

/// The lines of the readings beside the one that scores.
fn others_text(job: &Job) -> ArrayString<8192> {
    match job {
        Job::Win(win) => others_of_win(win),
        _ => ArrayString::new(),
    }
}

fn others_of_win(win: &WinRecord) -> ArrayString<8192> {
    let mut text = ArrayString::new();
    let mut lines = ArrayString::new();
    if let Some(best) = explain_win(&mut FreshRows, win).reading() {
        for one in ranked_readings(win).as_slice() {
            lines.clear();
            push_other_reading(&mut lines, &best, one, win);
            let _ = text.try_push_str(lines.as_str());
        }
    }
    text
}

fn forms_text(forms: &FormDistances) -> ArrayString<4608> {
    let mut text = ArrayString::new();
    push_shanten_line(&mut text, forms);
    text
}

fn waits_text(kinds: &KindWaits) -> ArrayString<4608> {
    let mut text = ArrayString::new();
    push_waits_line(&mut text, kinds.as_slice());
    text
}

pub(crate) fn explains(rt: &impl Abort, rules: Rules, rows: &[(&str, &str)]) {
    for (line, text) in rows {
        match read_line(rules, line.as_bytes()) {
            Ok(Some(job)) => same_in(rt, &line, text_of(&job).as_str(), *text),
            _ => holds(rt, false),
        }
    }
}

const RUNS: [(&str, &str); 4] = [
    (
        "win 234m567m345p67s99s on=5s by=tsumo seat=S round=E",
        "  reading 234m 567m 345p 567s 99s, 5s completes 567s
  han     fully-concealed (menzen tsumo) 1, pinfu 1: 2
  fu      20 base
  base    20 x 2^4 = 320
  pays    dealer 700, two others 400 each
  gain    1500
",
    ),
    (
        "win 234m567m345p67s99s on=5s by=tsumo seat=E round=E counters=2 sticks=1",
        "  reading 234m 567m 345p 567s 99s, 5s completes 567s
  han     fully-concealed (menzen tsumo) 1, pinfu 1: 2
  fu      20 base
  base    20 x 2^4 = 320
  pays    three others 700 + 200 for counters = 900 each
  gain    2700 + 1000 for sticks = 3700
",
    ),
    (
        "win 234m567m345p67s99s on=5s by=ron seat=S round=E counters=3 sticks=2",
        "  reading 234m 567m 345p 567s 99s, 5s completes 567s
  han     pinfu 1
  fu      20 base, 10 concealed ron (menzen kafu): 30
  base    30 x 2^3 = 240
  pays    discarder 1000 + 900 for counters = 1900
  gain    1900 + 2000 for sticks = 3900
",
    ),
    (
        "win 567m345p67s88s open=chi:234m on=5s by=ron seat=S round=E",
        "  reading 567m 345p 567s 88s chi:234m, 5s completes 567s
  han     all-simples (tanyao) 1
  fu      20 base, 10 open ron of 20: 30
  base    30 x 2^3 = 240
  pays    discarder 1000
  gain    1000
",
    ),
];

#[test]
fn runs(rt: HostRuntime) {
    explains(&rt, Rules::One, &RUNS);
}

#[test]
fn pairs(rt: HostRuntime) {
    explains(
        &rt,
        Rules::One,
        &[
            (
                "win 234m567m345p67s11z on=8s by=ron seat=E round=E riichi=1",
                "  note    riichi, and no indicator is said: dora= is missing
  reading 234m 567m 345p 678s 11z, 8s completes 678s
  han     riichi 1
  fu      20 base, 10 concealed ron (menzen kafu), 2 pair of the seat wind 11z, 2 pair of the prevalent wind 11z: 34, rounded to 40
  base    40 x 2^3 = 320
  pays    discarder 2000
  gain    2000
",
            ),
            (
                "win 234m567m345p67s77z on=8s by=ron seat=S round=E riichi=1",
                "  note    riichi, and no indicator is said: dora= is missing
  reading 234m 567m 345p 678s 77z, 8s completes 678s
  han     riichi 1
  fu      20 base, 10 concealed ron (menzen kafu), 2 pair of dragons 77z: 32, rounded to 40
  base    40 x 2^3 = 320
  pays    discarder 1300
  gain    1300
",
            ),
            (
                "win 1133m5577p2288s4z on=4z by=tsumo seat=W round=E counters=1",
                "  reading seven pairs 1133m5577p2288s44z, 4z completes 44z
  han     fully-concealed (menzen tsumo) 1, seven-pairs (chiitoitsu) 2: 3
  fu      25 seven pairs
  base    25 x 2^5 = 800
  pays    dealer 1600 + 100 for counters = 1700, two others 800 + 100 for counters = 900 each
  gain    3500
",
            ),
        ],
    );
}

#[test]
fn waits_of_one_tile(rt: HostRuntime) {
    explains(
        &rt,
        Rules::One,
        &[
            (
                "win 24567m345p678s99s on=3m by=ron seat=S round=E riichi=1",
                "  note    riichi, and no indicator is said: dora= is missing
  reading 234m 567m 345p 678s 99s, 3m completes 234m
  han     riichi 1
  fu      20 base, 10 concealed ron (menzen kafu), 2 closed wait (kanchan): 32, rounded to 40
  base    40 x 2^3 = 320
  pays    discarder 1300
  gain    1300
",
            ),
            (
                "win 12567m345p678s99s on=3m by=ron seat=S round=E riichi=1",
                "  note    riichi, and no indicator is said: dora= is missing
  reading 123m 567m 345p 678s 99s, 3m completes 123m
  han     riichi 1
  fu      20 base, 10 concealed ron (menzen kafu), 2 edge wait (penchan): 32, rounded to 40
  base    40 x 2^3 = 320
  pays    discarder 1300
  gain    1300
",
            ),
            (
                "win 3567m345p234789s on=3m by=ron seat=S round=E riichi=1",
                "  note    riichi, and no indicator is said: dora= is missing
  reading 567m 345p 234s 789s 33m, 3m completes 33m
  han     riichi 1
  fu      20 base, 10 concealed ron (menzen kafu), 2 pair wait (tanki): 32, rounded to 40
  base    40 x 2^3 = 320
  pays    discarder 1300
  gain    1300
",
            ),
        ],
    );
}

const TRIPLETS_AND_KONGS: [(&str, &str); 4] = [
    (
        "win 99978m444p567s22s on=9m by=ron seat=S round=E riichi=1",
        "  note    riichi, and no indicator is said: dora= is missing
  reading 789m 999m 444p 567s 22s, 9m completes 789m
  han     riichi 1
  fu      20 base, 10 concealed ron (menzen kafu), 8 concealed triplet 999m (ankou), 4 concealed triplet 444p (ankou): 42, rounded to 50
  base    50 x 2^3 = 400
  pays    discarder 1600
  gain    1600
",
    ),
    (
        "win 234m567m34p99s open=ankan:1111z on=2p by=tsumo seat=S round=E flags=rinshan dora=1p",
        "  reading 234m 567m 234p 99s ankan:1111z, 2p completes 234p
  han     fully-concealed (menzen tsumo) 1, prevalent-wind (yakuhai bakaze) 1, after-a-kong (rinshan kaiho) 1, dora 1: 4
  dora    1: 1 indicated
  fu      20 base, 2 self-draw (tsumo), 32 concealed kong 1111z (ankan): 54, rounded to 60
  base    60 x 2^6 = 3840, mangan 2000
  pays    dealer 4000, two others 2000 each
  gain    8000
",
    ),
    (
        "win 234m567m34p99s open=kan:5555z on=2p by=ron seat=S round=E",
        "  reading 234m 567m 234p 99s kan:5555z, 2p completes 234p
  han     white-dragon (yakuhai haku) 1
  fu      20 base, 16 open kong 5555z (minkan): 36, rounded to 40
  base    40 x 2^3 = 320
  pays    discarder 1300
  gain    1300
",
    ),
    (
        "win 11223m789p99s open=pon:111z on=3m by=ron seat=S round=E",
        "  reading 123m 123m 789p 99s pon:111z, 3m completes 123m
  han     prevalent-wind (yakuhai bakaze) 1, outside-hand (chanta) 1: 2
  fu      20 base, 4 open triplet 111z (minkou), 2 edge wait (penchan): 26, rounded to 30
  base    30 x 2^4 = 480
  pays    discarder 2000
  gain    2000
",
    ),
];

#[test]
fn triplets_and_kongs(rt: HostRuntime) {
    explains(&rt, Rules::One, &TRIPLETS_AND_KONGS);
}

const LIMIT_HANDS: [(&str, &str); 7] = [
    (
        "win 222m444p666s33m88s on=8s by=ron seat=S round=E",
        "  reading 222m 444p 666s 888s 33m, 8s completes 888s
  han     all-simples (tanyao) 1, all-pungs (toitoi) 2, three-concealed-pungs (sanankou) 2: 5
  fu      20 base, 10 concealed ron (menzen kafu), 4 concealed triplet 222m (ankou), 4 concealed triplet 444p (ankou), 4 concealed triplet 666s (ankou), 2 open triplet 888s (minkou): 44, rounded to 50
  base    5 han, mangan 2000
  pays    discarder 8000
  gain    8000
",
    ),
    (
        "win 111222333p78m99s on=9m by=ron seat=S round=E riichi=1",
        "  note    riichi, and no indicator is said: dora= is missing
  reading 789m 123p 123p 123p 99s, 9m completes 789m
  han     riichi 1, pinfu 1, pure-double-chow (iipeiko) 1, terminals-in-all-sets (junchan) 3: 6
  fu      20 base, 10 concealed ron (menzen kafu): 30
  base    6 han, haneman 3000
  pays    discarder 12000
  gain    12000
",
    ),
    (
        "win 2233445678999m on=1m by=ron seat=S round=E",
        "  reading 123m 234m 456m 789m 99m, 1m completes 123m
  han     pinfu 1, pure-straight (ittsu) 2, full-flush (chinitsu) 6: 9
  fu      20 base, 10 concealed ron (menzen kafu): 30
  base    9 han, baiman 4000
  pays    discarder 16000
  gain    16000
",
    ),
    (
        "win 2233445678999m on=1m by=ron seat=E round=E riichi=2",
        "  note    riichi, and no indicator is said: dora= is missing
  reading 123m 234m 456m 789m 99m, 1m completes 123m
  han     double-riichi 2, pinfu 1, pure-straight (ittsu) 2, full-flush (chinitsu) 6: 11
  fu      20 base, 10 concealed ron (menzen kafu): 30
  base    11 han, sanbaiman 6000
  pays    discarder 36000
  gain    36000
",
    ),
    (
        "win 2233445678999m on=1m by=ron seat=S round=E riichi=2 flags=ippatsu,last",
        "  note    riichi, and no indicator is said: dora= is missing
  reading 123m 234m 456m 789m 99m, 1m completes 123m
  han     double-riichi 2, ippatsu 1, pinfu 1, last-tile (haitei or houtei) 1, pure-straight (ittsu) 2, full-flush (chinitsu) 6: 13
  fu      20 base, 10 concealed ron (menzen kafu): 30
  base    13 han, yakuman 8000
  pays    discarder 32000
  gain    32000
",
    ),
    (
        "win 222m444p666s33m88s on=8s by=tsumo seat=S round=E",
        "  reading 222m 444p 666s 888s 33m, 8s completes 888s
  yakuman four-concealed-pungs (suuankou)
  base    yakuman 8000
  pays    dealer 16000, two others 8000 each
  gain    32000
",
    ),
    (
        "win 19m19p19s1234567z on=1m by=ron seat=E round=E",
        "  reading thirteen orphans 119m19p19s1234567z, won by 1m
  yakuman thirteen-orphans (kokushi musou)
  base    yakuman 8000
  pays    discarder 48000
  gain    48000
",
    ),
];

#[test]
fn limit_hands(rt: HostRuntime) {
    explains(&rt, Rules::One, &LIMIT_HANDS);
}

#[test]
fn the_second_profile(rt: HostRuntime) {
    explains(
        &rt,
        Rules::Two,
        &[
            (
                "win 123406789m22s34p on=2p by=ron seat=S round=E",
                "  reading 123m 456m 789m 234p 22s, 2p completes 234p
  han     pinfu 1, pure-straight (ittsu) 2, dora 1: 4
  dora    1: 1 red five
  fu      20 base, 10 concealed ron (menzen kafu): 30
  base    30 x 2^6 = 1920, raised to mangan 2000 (kiriage)
  pays    discarder 8000
  gain    8000
",
            ),
            (
                "win 234m067m345p67s99s on=0s by=ron seat=S round=E dora=1m",
                "  reading 234m 567m 345p 567s 99s, 5s completes 567s
  han     pinfu 1, dora 3: 4
  dora    3: 1 indicated, 2 red fives
  fu      20 base, 10 concealed ron (menzen kafu): 30
  base    30 x 2^6 = 1920, raised to mangan 2000 (kiriage)
  pays    discarder 8000
  gain    8000
",
            ),
        ],
    );
}

#[test]
fn dora_of_every_sort(rt: HostRuntime) {
    explains(
        &rt,
        Rules::Two,
        &[(
            "win 234m067m345p67s99s on=8s by=ron seat=S round=E riichi=1 dora=1m ura=4p",
            "  reading 234m 567m 345p 678s 99s, 8s completes 678s
  han     riichi 1, pinfu 1, dora 3: 5
  dora    3: 1 indicated, 1 below (ura), 1 red five
  fu      20 base, 10 concealed ron (menzen kafu): 30
  base    5 han, mangan 2000
  pays    discarder 8000
  gain    8000
",
        )],
    );
}

#[test]
fn without_yaku(rt: HostRuntime) {
    explains(
        &rt,
        Rules::One,
        &[
            (
                "win 456m22s34p open=chi:123m,chi:678p on=2p by=ron seat=S round=E",
                "  reading 456m 234p 22s chi:123m chi:678p, 2p completes 234p: no yaku\n",
            ),
            (
                "win 123456789m22s34p on=9s by=ron seat=S round=E",
                "  shanten sets and a pair 0, seven pairs 5, thirteen orphans 10\n  waits   2p 4 left, two-sided (ryanmen); 5p 4 left, two-sided (ryanmen)\n",
            ),
            (
                "win 147m258p369s1234z on=5z by=ron seat=S round=E",
                "  shanten sets and a pair 8, seven pairs 6, thirteen orphans 6\n",
            ),
        ],
    );
}

#[test]
fn shapes(rt: HostRuntime) {
    explains(
        &rt,
        Rules::One,
        &[
            (
                "shape 123456789m1134p",
                "  shanten sets and a pair 0, seven pairs 5, thirteen orphans 9\n",
            ),
            (
                "shape 2223456777m open=pon:111z",
                "  shanten sets and a pair 0\n",
            ),
            (
                "shape 1133m5577p2288s44z",
                "  shanten sets and a pair 3, seven pairs -1, thirteen orphans 10\n",
            ),
        ],
    );
}

#[test]
fn kinds_that_are_waited_for(rt: HostRuntime) {
    explains(
        &rt,
        Rules::One,
        &[
            (
                "waits 123456789m1134p",
                "  2p 4 left, two-sided (ryanmen); 5p 4 left, two-sided (ryanmen)\n",
            ),
            (
                "waits 13m456m789p234s88s",
                "  2m 4 left, closed (kanchan)\n",
            ),
            ("waits 456m88m89p234567s", "  7p 4 left, edge (penchan)\n"),
            ("waits 1133m5577p2288s4z", "  4z 3 left, pair (tanki)\n"),
            (
                "waits 234m567m345p99s55z",
                "  9s 2 left, two pairs (shanpon); 5z 2 left, two pairs (shanpon)\n",
            ),
            (
                "waits 99978m444p567s22s",
                "  6m 4 left, two-sided (ryanmen); 9m 1 left, two-sided (ryanmen), two pairs (shanpon); 2s 2 left, two pairs (shanpon)\n",
            ),
            (
                "waits 23m567p99s open=pon:111m,kan:4444m",
                "  1m 1 left, two-sided (ryanmen)\n",
            ),
            (
                "waits 123456789m1111z",
                "  no tile that is left completes the hand\n",
            ),
        ],
    );
}

#[test]
fn the_answer_that_is_explained(rt: HostRuntime) {
    let line = b"win 456m22s34p open=chi:123m,chi:678p on=2p by=ron seat=S round=E";
    match read_line(Rules::One, line) {
        Ok(Some(job)) => holds(&rt, is_without_yaku(&job)),
        _ => holds(&rt, false),
    }
}

fn is_without_yaku(job: &Job) -> bool {
    match job {
        Job::Win(win) => explain_win(&mut FreshRows, win).answer() == WinAnswer::NoYaku,
        _ => false,
    }
}

const OTHERS: [(&str, &str); 6] = [
    // why not seven pairs, and why no pinfu of the other sets
    (
        "win 1122334m556677s on=4m by=ron seat=S round=E",
        "  other   123m 123m 567s 567s 44m, 4m completes 44m
  han     twice-pure-double-chow (ryanpeikou) 3
  fu      20 base, 10 concealed ron (menzen kafu), 2 pair wait (tanki): 32, rounded to 40
  gain    5200
  other   seven pairs 11223344m556677s, 4m completes 44m
  han     seven-pairs (chiitoitsu) 2
  fu      25 seven pairs
  gain    1600
",
    ),
    // why 50 fu and not 40
    (
        "win 99978m444p567s22s on=9m by=ron seat=S round=E riichi=1",
        "  other   789m 999m 444p 567s 22s, 9m completes 999m
  han     riichi 1
  fu      20 base, 10 concealed ron (menzen kafu), 4 open triplet 999m (minkou), 4 concealed triplet 444p (ankou): 38, rounded to 40
  gain    1300
",
    ),
    // why no pinfu: four han 20 fu are less than four han 40 fu
    (
        "win 11222333m567p99s on=1m by=tsumo seat=S round=E riichi=1 sticks=1",
        "  other   123m 123m 123m 567p 99s, 1m completes 123m
  han     riichi 1, fully-concealed (menzen tsumo) 1, pinfu 1, pure-double-chow (iipeiko) 1: 4
  fu      20 base
  gain    5200 + 1000 for sticks = 6200
",
    ),
    // a reading without yaku
    (
        "win 11222333m567p99s on=1m by=ron seat=S round=E",
        "  other   111m 222m 333m 567p 99s, 1m completes 111m: no yaku
",
    ),
    // a yakuman, and what the hand is worth without it
    (
        "win 111222333m99p44s on=9p by=tsumo seat=S round=E dora=1s",
        "  other   123m 123m 123m 999p 44s, 9p completes 999p
  han     fully-concealed (menzen tsumo) 1, pure-double-chow (iipeiko) 1: 2
  fu      20 base, 2 self-draw (tsumo), 8 concealed triplet 999p (ankou): 30
  gain    2000
",
    ),
    ("win 234m567m345p67s99s on=5s by=ron seat=S round=E", ""),
];

#[test]
fn notes_of_wins(rt: HostRuntime) {
    for &(line, wanted) in &[
        (
            "win 234m567m345p567s9s on=9s by=ron seat=S round=E flags=chankan",
            "  note    this cannot be",
        ),
        (
            "win 23m99p open=pon:555z,kan:6666z,pon:777z on=4m by=ron seat=N round=E",
            "  note    all three dragons",
        ),
        (
            "win 3m open=ankan:5555z,ankan:6666z,ankan:7777z,pon:222p on=3m by=ron seat=N round=E",
            "  reading",
        ),
        (
            "win 2m open=pon:111z,ankan:2222z,pon:333z,pon:444z on=2m by=ron seat=N round=E",
            "  note    all four winds",
        ),
        (
            "win 234m567m345p67s99s on=5s by=ron seat=S round=E flags=chankan",
            "  reading",
        ),
        (
            "win 23m99p555z open=pon:666z,pon:777z on=4m by=ron seat=N round=E",
            "  reading",
        ),
    ] {
        match read_line(Rules::One, line.as_bytes()) {
            Ok(Some(job)) => holds(&rt, text_of(&job).as_str().starts_with(wanted)),
            _ => holds(&rt, false),
        }
    }
}

#[test]
fn other_readings_the_best_first(rt: HostRuntime) {
    for &(line, text) in &OTHERS {
        match read_line(Rules::One, line.as_bytes()) {
            Ok(Some(job)) => same_in(&rt, &line, others_text(&job).as_str(), text),
            _ => holds(&rt, false),
        }
    }
}
