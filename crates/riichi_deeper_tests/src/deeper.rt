//! Second and good.
use crate::facts::same;
use crate::hands::{hand, kind, size};
use riichi_deeper::{Outlook, deeper, deeper_without};
use riichi_rows::FreshRows;
use std::process::Abort;
use std::test::Fail;

/// What is asked of a hand, after a discard where it has fourteen tiles, and the answer; none of a ready hand.
struct Row {
    hand: &'static str,
    discard: &'static str,
    open: &'static [&'static str],
    seen: &'static str,
    answer: Option<(u16, u8)>,
}

fn answer_to(row: &Row) -> Result<Option<Outlook>, Fail> {
    let asked = hand(row.hand, row.open, row.seen)?;
    if row.discard.is_empty() {
        if size(&asked) == 13 {
            return Ok(deeper(&mut FreshRows, &asked));
        }
        return Err(Fail::from("not thirteen tiles"));
    }
    let discard = kind(row.discard)?;
    if size(&asked) == 14 && asked.tiles().get(discard) > 0 {
        return Ok(deeper_without(&mut FreshRows, &asked, discard));
    }
    Err(Fail::from("no such discard"))
}

fn check(rt: &impl Abort, row: &Row) -> Result<(), Fail> {
    let told = answer_to(row)?.map(|outlook| (outlook.second, outlook.good));
    same(rt, told, row.answer);
    Ok(())
}

/// Worked by hand from the definition.
const WORKED: [Row; 12] = [
    Row {
        hand: "123456789m1134p",
        discard: "",
        open: &[],
        seen: "",
        answer: None,
    },
    Row {
        hand: "234m45678p34s558s",
        discard: "",
        open: &[],
        seen: "",
        answer: Some((165, 20)),
    },
    Row {
        hand: "123m4467p23557s1z",
        discard: "",
        open: &[],
        seen: "",
        answer: Some((384, 24)),
    },
    Row {
        hand: "1357m245p2346s77z",
        discard: "",
        open: &[],
        seen: "",
        answer: Some((160, 16)),
    },
    Row {
        hand: "23678m23p1236789s",
        discard: "6s",
        open: &[],
        seen: "",
        answer: Some((144, 12)),
    },
    Row {
        hand: "23678m23p1236789s",
        discard: "2m",
        open: &[],
        seen: "",
        answer: Some((120, 17)),
    },
    Row {
        hand: "45567m1236788p46s",
        discard: "8p",
        open: &[],
        seen: "",
        answer: Some((135, 10)),
    },
    Row {
        hand: "45567m1236788p46s",
        discard: "4s",
        open: &[],
        seen: "",
        answer: Some((105, 16)),
    },
    Row {
        hand: "44577m23p3356678s",
        discard: "5s",
        open: &[],
        seen: "",
        answer: Some((463, 37)),
    },
    Row {
        hand: "44577m23p3356678s",
        discard: "7m",
        open: &[],
        seen: "",
        answer: Some((476, 27)),
    },
    Row {
        hand: "45678m345p2467s88s",
        discard: "8s",
        open: &[],
        seen: "",
        answer: Some((171, 10)),
    },
    Row {
        hand: "45678m345p2467s88s",
        discard: "2s",
        open: &[],
        seen: "",
        answer: Some((165, 20)),
    },
];

/// By brute force over the definition, with melds and seen tiles.
const FOUND: [Row; 10] = [
    Row {
        hand: "13m46p55s1z",
        discard: "",
        open: &["ankan:7777p", "kan:8888s"],
        seen: "1122334556789m111223359p1447799s12344556667z",
        answer: Some((12, 0)),
    },
    Row {
        hand: "1248m489p255s137z",
        discard: "",
        open: &[],
        seen: "",
        answer: Some((6005, 87)),
    },
    Row {
        hand: "568m117p2457s225z",
        discard: "",
        open: &[],
        seen: "11377m112344456678889p111223366789s11245667z",
        answer: Some((76, 11)),
    },
    Row {
        hand: "12m13p3s22z",
        discard: "",
        open: &["pon:777s", "pon:666m"],
        seen: "",
        answer: Some((32, 0)),
    },
    Row {
        hand: "123459m4p79s45z",
        discard: "9m",
        open: &["kan:1111s"],
        seen: "",
        answer: Some((221, 20)),
    },
    Row {
        hand: "45m8p56799s126z",
        discard: "8p",
        open: &["chi:678p"],
        seen: "",
        answer: Some((200, 19)),
    },
    Row {
        hand: "45m8p56799s126z",
        discard: "2z",
        open: &["chi:678p"],
        seen: "",
        answer: Some((380, 28)),
    },
    Row {
        hand: "155m7p578s123377z",
        discard: "",
        open: &[],
        seen: "237m1249p3s13z",
        answer: Some((300, 20)),
    },
    Row {
        hand: "56m11p",
        discard: "",
        open: &["chi:345p", "chi:345s", "ankan:9999s"],
        seen: "",
        answer: None,
    },
    Row {
        hand: "2278m3p366s33677z",
        discard: "",
        open: &[],
        seen: "3m366p277s445z",
        answer: Some((126, 14)),
    },
];

#[test]
fn answers_worked_hands(rt: HostRuntime) -> Result<(), Fail> {
    for row in &WORKED {
        check(&rt, row)?;
    }
    Ok(())
}

#[test]
fn answers_as_brute_force(rt: HostRuntime) -> Result<(), Fail> {
    for row in &FOUND {
        check(&rt, row)?;
    }
    Ok(())
}
