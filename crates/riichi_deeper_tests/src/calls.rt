//! Calls, and a kong.
use crate::facts::same;
use crate::hands::{hand, kind, size};
use arrayvec::ArrayString;
use riichi_deeper::{Call, Thrower, Thrown, calls, is_left, kong, laws};
use riichi_hand::ShapeRecord;
use riichi_rows::FreshRows;
use riichi_shape::{Accepts, ShapeAnswer, shape_text};
use riichi_text::push_meld;
use std::process::Abort;
use std::test::Fail;

/// A hand and a thrown tile, and for each claim the call with its discards, as the text of a ready hand's; no text where it is no
/// gain.
struct Row {
    hand: &'static str,
    open: &'static [&'static str],
    seen: &'static str,
    tile: &'static str,
    by: Thrower,
    calls: [(&'static str, &'static str); 4],
}

/// Worked by hand from the definition.
const WORKED: [Row; 16] = [
    Row {
        hand: "234m45678p34s558s",
        open: &[],
        seen: "",
        tile: "3p",
        by: Thrower::Left,
        calls: [
            ("", ""),
            ("", ""),
            (
                "chi:345p",
                "shanten 0 discard 8s accepts 2s:4 5s:2 live 6 discard 5s accepts 8s:3 live 3",
            ),
            ("", ""),
        ],
    },
    Row {
        hand: "234m45678p34s558s",
        open: &[],
        seen: "",
        tile: "6p",
        by: Thrower::Left,
        calls: [
            (
                "chi:456p",
                "shanten 0 discard 8s accepts 2s:4 5s:2 live 6 discard 5s accepts 8s:3 live 3",
            ),
            ("", ""),
            (
                "chi:678p",
                "shanten 0 discard 8s accepts 2s:4 5s:2 live 6 discard 5s accepts 8s:3 live 3",
            ),
            ("", ""),
        ],
    },
    Row {
        hand: "234m45678p34s558s",
        open: &[],
        seen: "",
        tile: "9p",
        by: Thrower::Left,
        calls: [
            (
                "chi:789p",
                "shanten 0 discard 8s accepts 2s:4 5s:2 live 6 discard 5s accepts 8s:3 live 3",
            ),
            ("", ""),
            ("", ""),
            ("", ""),
        ],
    },
    Row {
        hand: "234m45678p34s558s",
        open: &[],
        seen: "",
        tile: "2s",
        by: Thrower::Left,
        calls: [
            ("", ""),
            ("", ""),
            (
                "chi:234s",
                "shanten 0 discard 8s accepts 3p:4 6p:3 9p:4 live 11",
            ),
            ("", ""),
        ],
    },
    Row {
        hand: "234m45678p34s558s",
        open: &[],
        seen: "",
        tile: "5s",
        by: Thrower::Left,
        calls: [
            (
                "chi:345s",
                "shanten 0 discard 8s accepts 3p:4 6p:3 9p:4 live 11",
            ),
            ("", ""),
            ("", ""),
            ("", ""),
        ],
    },
    Row {
        hand: "234m45678p34s558s",
        open: &[],
        seen: "",
        tile: "5s",
        by: Thrower::Across,
        calls: [("", ""), ("", ""), ("", ""), ("", "")],
    },
    Row {
        hand: "234m45678p34s558s",
        open: &[],
        seen: "",
        tile: "8p",
        by: Thrower::Left,
        calls: [("", ""), ("", ""), ("", ""), ("", "")],
    },
    Row {
        hand: "123m4467p23557s1z",
        open: &[],
        seen: "",
        tile: "4p",
        by: Thrower::Right,
        calls: [
            ("", ""),
            ("", ""),
            ("", ""),
            (
                "pon:444p",
                "shanten 0 discard 7s accepts 5p:4 8p:4 1s:4 4s:4 live 16 discard 1z accepts 5p:4 8p:4 1s:4 4s:4 live 16",
            ),
        ],
    },
    Row {
        hand: "123m4467p23557s1z",
        open: &[],
        seen: "",
        tile: "5p",
        by: Thrower::Left,
        calls: [
            ("", ""),
            ("", ""),
            (
                "chi:567p",
                "shanten 0 discard 1z accepts 4p:2 1s:4 4s:4 5s:2 6s:4 live 16 discard 5s accepts 1s:4 4s:4 6s:4 live 12 discard 7s accepts 4p:2 1s:4 4s:4 5s:2 live 12 discard 2s accepts 4s:4 6s:4 live 8",
            ),
            ("", ""),
        ],
    },
    Row {
        hand: "123m4467p23557s1z",
        open: &[],
        seen: "",
        tile: "1s",
        by: Thrower::Left,
        calls: [
            ("", ""),
            ("", ""),
            (
                "chi:123s",
                "shanten 0 discard 1z accepts 4p:2 5p:4 8p:4 5s:2 6s:4 live 16 discard 5s accepts 5p:4 8p:4 6s:4 live 12 discard 7s accepts 4p:2 5p:4 8p:4 5s:2 live 12",
            ),
            ("", ""),
        ],
    },
    Row {
        hand: "123m4467p23557s1z",
        open: &[],
        seen: "",
        tile: "4s",
        by: Thrower::Left,
        calls: [
            (
                "chi:234s",
                "shanten 0 discard 1z accepts 4p:2 5p:4 8p:4 5s:2 6s:4 live 16 discard 5s accepts 5p:4 8p:4 6s:4 live 12 discard 7s accepts 4p:2 5p:4 8p:4 5s:2 live 12",
            ),
            (
                "chi:345s",
                "shanten 0 discard 2s accepts 5p:4 8p:4 6s:4 live 12 discard 1z accepts 5p:4 8p:4 6s:4 live 12",
            ),
            ("", ""),
            ("", ""),
        ],
    },
    Row {
        hand: "123m4467p23557s1z",
        open: &[],
        seen: "",
        tile: "5s",
        by: Thrower::Across,
        calls: [
            ("", ""),
            ("", ""),
            ("", ""),
            (
                "pon:555s",
                "shanten 0 discard 7s accepts 5p:4 8p:4 1s:4 4s:4 live 16 discard 1z accepts 5p:4 8p:4 1s:4 4s:4 live 16",
            ),
        ],
    },
    Row {
        hand: "123m4467p23557s1z",
        open: &[],
        seen: "",
        tile: "6s",
        by: Thrower::Left,
        calls: [
            ("", ""),
            (
                "chi:567s",
                "shanten 0 discard 5s accepts 5p:4 8p:4 1s:4 4s:4 live 16 discard 1z accepts 5p:4 8p:4 1s:4 4s:4 live 16 discard 2s accepts 5p:4 8p:4 4s:4 live 12",
            ),
            ("", ""),
            ("", ""),
        ],
    },
    Row {
        hand: "1357m246p468s557z",
        open: &[],
        seen: "",
        tile: "2m",
        by: Thrower::Left,
        calls: [
            ("", ""),
            (
                "chi:123m",
                "shanten 0 discard 7z accepts 6m:4 3p:4 5p:4 5s:4 7s:4 live 20 discard 2p accepts 6m:4 5p:4 5s:4 7s:4 live 16 discard 6p accepts 6m:4 3p:4 5s:4 7s:4 live 16 discard 4s accepts 6m:4 3p:4 5p:4 7s:4 live 16 discard 8s accepts 6m:4 3p:4 5p:4 5s:4 live 16",
            ),
            ("", ""),
            ("", ""),
        ],
    },
    Row {
        hand: "1357m246p468s557z",
        open: &[],
        seen: "",
        tile: "3p",
        by: Thrower::Left,
        calls: [
            ("", ""),
            (
                "chi:234p",
                "shanten 0 discard 6p accepts 2m:4 6m:4 5s:4 7s:4 live 16 discard 7z accepts 2m:4 6m:4 5s:4 7s:4 live 16 discard 4s accepts 2m:4 6m:4 7s:4 live 12 discard 8s accepts 2m:4 6m:4 5s:4 live 12",
            ),
            ("", ""),
            ("", ""),
        ],
    },
    Row {
        hand: "1357m246p468s557z",
        open: &[],
        seen: "",
        tile: "5z",
        by: Thrower::Left,
        calls: [("", ""), ("", ""), ("", ""), ("", "")],
    },
];

/// By brute force over the definition, with melds and seen tiles.
const FOUND: [Row; 8] = [
    Row {
        hand: "66m68p34s1z",
        open: &["pon:222m", "pon:222z"],
        seen: "",
        tile: "5s",
        by: Thrower::Left,
        calls: [
            ("chi:345s", "shanten 0 discard 1z accepts 7p:4 live 4"),
            ("", ""),
            ("", ""),
            ("", ""),
        ],
    },
    Row {
        hand: "112m11s44z",
        open: &["kan:2222z", "pon:111z"],
        seen: "7m146668p3s36z",
        tile: "1s",
        by: Thrower::Across,
        calls: [
            ("", ""),
            ("", ""),
            ("", ""),
            (
                "pon:111s",
                "shanten 0 discard 1m accepts 3m:4 live 4 discard 2m accepts 1m:2 4z:2 live 4",
            ),
        ],
    },
    Row {
        hand: "567m46678p4489s7z",
        open: &[],
        seen: "269m19p2678s7z",
        tile: "7s",
        by: Thrower::Left,
        calls: [
            ("", ""),
            ("", ""),
            ("chi:789s", "shanten 0 discard 7z accepts 5p:4 live 4"),
            ("", ""),
        ],
    },
    Row {
        hand: "89m458p1s6z",
        open: &["pon:888s", "ankan:7777p"],
        seen: "",
        tile: "6p",
        by: Thrower::Left,
        calls: [
            (
                "chi:456p",
                "shanten 0 discard 8p accepts 7m:4 1s:3 6z:3 live 10 discard 1s accepts 7m:4 8p:3 6z:3 live 10 discard 6z accepts 7m:4 8p:3 1s:3 live 10",
            ),
            ("", ""),
            ("", ""),
            ("", ""),
        ],
    },
    Row {
        hand: "2399p466z",
        open: &["chi:123m", "pon:222s"],
        seen: "",
        tile: "6z",
        by: Thrower::Right,
        calls: [
            ("", ""),
            ("", ""),
            ("", ""),
            ("pon:666z", "shanten 0 discard 4z accepts 1p:4 4p:4 live 8"),
        ],
    },
    Row {
        hand: "1344678m567p12s5z",
        open: &[],
        seen: "13566678m12234588p23444566677888s1133445567z",
        tile: "2m",
        by: Thrower::Left,
        calls: [
            ("", ""),
            ("chi:123m", "shanten 0 discard 5z accepts 3s:3 live 3"),
            ("", ""),
            ("", ""),
        ],
    },
    Row {
        hand: "13m278p3378s7z",
        open: &["chi:123s"],
        seen: "",
        tile: "9p",
        by: Thrower::Left,
        calls: [
            (
                "chi:789p",
                "shanten 0 discard 2p accepts 2m:4 6s:4 9s:4 live 12 discard 7z accepts 2m:4 6s:4 9s:4 live 12",
            ),
            ("", ""),
            ("", ""),
            ("", ""),
        ],
    },
    Row {
        hand: "5m67999p4677s",
        open: &["pon:888p"],
        seen: "",
        tile: "8p",
        by: Thrower::Left,
        calls: [
            ("chi:678p", "shanten 0 discard 5m accepts 5s:4 live 4"),
            ("", ""),
            ("", ""),
            ("", ""),
        ],
    },
];

/// The meld of a call, and its discards as text.
fn check_call(rt: &impl Abort, call: &Option<Call>, wanted: (&str, &str)) -> Result<(), Fail> {
    let Some(call) = call else {
        same(rt, "", wanted.0);
        return Ok(());
    };
    let mut meld = ArrayString::<64>::new();
    push_meld(&mut meld, &call.meld);
    same(rt, meld.as_str(), wanted.0);
    let answer = ShapeAnswer {
        shanten: 0,
        accepts: Accepts::Fourteen(call.discards),
    };
    same(rt, shape_text(&answer).as_str(), wanted.1);
    Ok(())
}

fn check(rt: &impl Abort, row: &Row) -> Result<(), Fail> {
    let asked = hand(row.hand, row.open, row.seen)?;
    let thrown = Thrown {
        tile: kind(row.tile)?,
        by: row.by,
    };
    if size(&asked) != 13 || !is_left(&asked, thrown.tile) {
        return Err(Fail::from("no such tile"));
    }
    let [highest, middle, lowest, triplet] = calls(&mut FreshRows, &asked, &thrown);
    check_call(rt, &highest, row.calls[0])?;
    check_call(rt, &middle, row.calls[1])?;
    check_call(rt, &lowest, row.calls[2])?;
    check_call(rt, &triplet, row.calls[3])
}

#[test]
fn answers_worked_hands(rt: HostRuntime) -> Result<(), Fail> {
    for row in &WORKED {
        check(&rt, row)?;
    }
    Ok(())
}

#[test]
fn answers_as_brute_force(rt: HostRuntime) -> Result<(), Fail> {
    for row in &FOUND {
        check(&rt, row)?;
    }
    Ok(())
}

/// What the hand is after a kong, and where it has no three.
fn kong_text(text: &str, tile: &str) -> Result<Option<ShapeAnswer>, Fail> {
    let asked = hand(text, &[], "")?;
    let tile = kind(tile)?;
    if size(&asked) == 13 && is_left(&asked, tile) {
        return Ok(kong(&mut FreshRows, &asked, tile));
    }
    Err(Fail::from("no such tile"))
}

/// What is accepted after a kong; none where the hand doesn't hold the other three.
#[test]
fn tells_a_kong(rt: HostRuntime) -> Result<(), Fail> {
    laws::kongs();
    laws::nearer_by_one();
    laws::accepted_calls();
    laws::swap_calls();
    let kept = kong_text("111z123456m2378p", "1z")?.ok_or("three are held")?;
    same(
        &rt,
        shape_text(&kept).as_str(),
        "shanten 1 accepts 1p:4 2p:3 3p:3 4p:4 6p:4 7p:3 8p:3 9p:4 live 28",
    );
    same(&rt, kong_text("11z1123456m2378p", "1z")?, None);
    Ok(())
}
