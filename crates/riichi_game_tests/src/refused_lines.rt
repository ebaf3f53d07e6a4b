//! Lines that are refused, as docs/GAME.md lists them, and a game that is played to its end.
use crate::plays::Play;
use std::process::Abort;

/// That each of these lines is refused so, at the beginning of a game.
fn are_refused(rt: &impl Abort, words: &str, code: &str, lines: &[&str]) {
    let mut play = Play::new(rt, words);
    for line in lines {
        play.answers(rt, line, code);
    }
}

#[test]
fn bytes(rt: HostRuntime) {
    are_refused(&rt, "", "refused G1", &["ron 1\t", "end # \x7f"])
}

#[test]
fn first_words(rt: HostRuntime) {
    are_refused(
        &rt,
        "",
        "refused G2",
        &["win 1 1.30", "Ron 1 from 2 1.30", "# a note"],
    );
}

#[test]
fn forms(rt: HostRuntime) {
    are_refused(
        &rt,
        "",
        "refused G4",
        &[
            "ron 1 1.30",
            "ron 1 from 2",
            "ron 1 from 2 from 1.30",
            "ron 1 from 2 mangan on=1z",
            "ron 1 from 2 1.30 and",
            "ron 1 from 2 1.30 and 3 1.30 and 4 1.30 and 1 1.30",
            "ron 1 from 2 1.30 riichi",
            "ron 1 from 2 yakuman:x",
            "tsumo 1 1.",
            "tsumo 1 yakuman liable 2:x",
            "draw riichi 1 ready 1",
            "draw ready 1 ready 2",
            "chombo",
            "chombo 1 2",
            "penalty 1 8050",
            "penalty 1 1000100",
            "stands east 5 counters 0 sticks 0 points 30000 30000 30000 30000",
            "stands east 1 counters 0 sticks 0 points 30050 29950 30000 30000",
            "stands east 1 counters 0 sticks 0 points 30000 30000 30000",
            "end now",
        ],
    );
}

#[test]
fn names(rt: HostRuntime) {
    are_refused(
        &rt,
        "",
        "refused G5",
        &[
            "ron 1 from 1 1.30",
            "ron 1 from 2 1.30 and 1 1.30",
            "ron 1 from 2 yakuman liable 1",
            "ron 1 from 2 yakuman liable 3 and 3 1.30",
            "tsumo 1 yakuman liable 1",
            "draw ready 1,1",
            "draw ready 1,",
            "tsumo 1 234m567m345p67s99s on=5s riichi=0 riichi 1",
            "chombo 5",
        ],
    );
}

#[test]
fn values(rt: HostRuntime) {
    are_refused(
        &rt,
        "",
        "refused G6",
        &[
            "tsumo 1 1.20",
            "tsumo 1 100.30",
            "tsumo 1 4.150",
            "tsumo 1 yakuman:2",
            "tsumo 1 yakuman:300",
            "tsumo 1 mangan liable 2",
            "tsumo 1 yakuman liable 2:2",
            "tsumo 1 19m19p19s1234567z on=1m liable 2",
            "ron 1 from 2 123456789m22s34p on=9s and 3 234m567m345p67s99s on=5s",
        ],
    );
}

#[test]
fn hands(rt: HostRuntime) {
    are_refused(
        &rt,
        "",
        "refused G7 no win",
        &["tsumo 1 123456789m22s34p on=9s"],
    );
    are_refused(
        &rt,
        "",
        "refused G7 no yaku",
        &["ron 1 from 2 234m567m345p678s9s on=9s"],
    );
    are_refused(
        &rt,
        "",
        "refused G7 refused H4",
        &["tsumo 1 234m567m345p67s99s on=5s seat=E"],
    );
    are_refused(
        &rt,
        "",
        "refused G7 refused H6",
        &["tsumo 1 234m567m345p67s99s"],
    );
    are_refused(&rt, "", "refused G7 refused H3", &["tsumo 1 on=5s"]);
}

#[test]
fn rules_and_table(rt: HostRuntime) {
    are_refused(&rt, "", "refused G8", &["draw nagashi 1"]);
    are_refused(
        &rt,
        "liable=off",
        "refused G8",
        &["tsumo 1 yakuman liable 2"],
    );
    are_refused(
        &rt,
        "start=900 bust=on",
        "refused G9",
        &["draw ready 1 riichi 1"],
    );
    are_refused(&rt, "", "refused G10", &["draw ready 1 riichi 2"]);
    let west = "stands west 1 counters 0 sticks 0 points 30000 30000 30000 30000";
    let many = "stands east 1 counters 0 sticks 300 points 30000 30000 30000 30000";
    are_refused(&rt, "", "refused G11", &[west, many]);
    let counters = "stands east 1 counters 100 sticks 0 points 30000 30000 30000 30000";
    let sticks = "stands east 1 counters 0 sticks 300 points -270000 30000 30000 30000";
    are_refused(&rt, "", "refused G12", &[counters, sticks]);
}

#[test]
fn behind_the_end(rt: HostRuntime) {
    let mut play = Play::new(&rt, "");
    play.answers(&rt, "end", "");
    play.answers(&rt, "draw", "refused G13");
    play.answers(&rt, "penalty 1 8000", "penalty 1 8000");
}

#[test]
fn the_first_example(rt: HostRuntime) {
    let mut play = Play::new(&rt, "Anna Bo Cyd Dee");
    play.answers(
        &rt,
        "ron Bo from Cyd 1.30",
        "east 1 counters 0 sticks 0 changes 0 +1000 -1000 0 points 30000 31000 29000 30000",
    );
    play.ends(
        &rt,
        "stands east 2 counters 0 sticks 0 points 30000 31000 29000 30000",
    );
    play.answers(&rt, "end", "");
    play.ends(
        &rt,
        "over\nfinal 1 Bo points 31000 bonus +15.0 penalty 0 total +16.0\nfinal 2 Anna points 30000 bonus 0.0 penalty 0 total 0.0\nfinal 2 Dee points 30000 bonus 0.0 penalty 0 total 0.0\nfinal 4 Cyd points 29000 bonus -15.0 penalty 0 total -16.0",
    );
}
