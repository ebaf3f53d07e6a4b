//! Worked hands.
use crate::facts::same;
use crate::hands::{hand, kind, size};
use crate::room::room_for;
use arrayvec::ArrayVec;
use riichi_chances::{
    Chances, DiscardChances, Fraction, Goal, MOST_TURNS, TooManyHands, chances_of, discard_chances,
    laws,
};
use riichi_hand::ShapeRecord;
use riichi_rows::FreshRows;
use riichi_tiles::Kind;
use std::alloc::Global;
use std::process::Abort;
use std::test::Fail;

/// A hand, after a discard where it has fourteen tiles, and its chances by some turns, each as a fraction.
#[derive(Drop)]
struct Row {
    hand: &'static str,
    discard: &'static str,
    goal: Goal,
    chances: &'static [(u8, u128, u128)],
}

/// So many hands are enough for each of these.
const MOST_HANDS: usize = 2048;

fn after(each: &[DiscardChances], discard: Kind) -> Option<Chances> {
    for one in each {
        if one.kind == discard {
            return Some(one.chances);
        }
    }
    None
}

/// The chances of thirteen tiles, where so many hands have room.
fn one_of(alloc: Global, asked: &ShapeRecord, most_hands: usize) -> Result<Chances, Fail> {
    if size(asked) != 13 {
        return Err(Fail::from("not thirteen tiles"));
    }
    let mut room = room_for(alloc, most_hands)?;
    chances_of(
        room.places.as_mut_slice(),
        room.rows.as_mut_slice(),
        &mut FreshRows,
        asked,
        MOST_TURNS,
    )
    .map_err(refused)
}

/// The same after each best discard of fourteen tiles.
fn each_of(alloc: Global, asked: &ShapeRecord) -> Result<ArrayVec<DiscardChances, 14>, Fail> {
    if size(asked) != 14 {
        return Err(Fail::from("not fourteen tiles"));
    }
    let mut room = room_for(alloc, MOST_HANDS)?;
    discard_chances(
        room.places.as_mut_slice(),
        room.rows.as_mut_slice(),
        &mut FreshRows,
        asked,
        MOST_TURNS,
    )
    .map_err(refused)
}

pub(crate) fn refused(_fault: TooManyHands) -> Fail {
    Fail::from("too many hands")
}

fn answer_to(alloc: Global, row: &Row) -> Result<Chances, Fail> {
    let asked = hand(row.hand, &[], "")?;
    if row.discard.is_empty() {
        return one_of(alloc, &asked, MOST_HANDS);
    }
    let each = each_of(alloc, &asked)?;
    let chances = after(each.as_slice(), kind(row.discard)?).ok_or("no such discard")?;
    Ok(chances)
}

/// The draws that lead there, where so many of so many do.
fn part_of(all: u128, some: u128, among: u128) -> Option<u128> {
    if all.checked_rem(among)? == 0 {
        all.checked_div(among)?.checked_mul(some)
    } else {
        None
    }
}

/// By the definition literally, over every draw and discard, in plain Rust.
const FEW_TURNS: [Row; 9] = [
    Row {
        hand: "123456789m13p11s",
        discard: "",
        goal: Goal::Win,
        chances: &[(2, 964, 15006), (3, 172812, 1815726)],
    },
    Row {
        hand: "123456789m1134p",
        discard: "",
        goal: Goal::Ready,
        chances: &[(1, 1, 1), (2, 1, 1), (3, 1, 1)],
    },
    Row {
        hand: "123456789m1134p",
        discard: "",
        goal: Goal::Win,
        chances: &[(1, 8, 123), (2, 316, 2501), (3, 55716, 302621)],
    },
    Row {
        hand: "234m45678p34s558s",
        discard: "",
        goal: Goal::Ready,
        chances: &[(1, 20, 123), (2, 750, 2501), (3, 125770, 302621)],
    },
    Row {
        hand: "234m45678p34s558s",
        discard: "",
        goal: Goal::Win,
        chances: &[(2, 55, 5002), (3, 1685, 55022)],
    },
    Row {
        hand: "123m4467p23557s1z",
        discard: "",
        goal: Goal::Ready,
        chances: &[(1, 0, 1), (2, 64, 2501), (3, 20864, 302621)],
    },
    Row {
        hand: "123m4467p23557s1z",
        discard: "",
        goal: Goal::Win,
        chances: &[(2, 0, 1), (3, 1280, 907863)],
    },
    Row {
        hand: "1357m245p2346s77z",
        discard: "",
        goal: Goal::Ready,
        chances: &[(1, 0, 1), (2, 80, 7503), (3, 9056, 302621)],
    },
    Row {
        hand: "1357m245p2346s77z",
        discard: "",
        goal: Goal::Win,
        chances: &[(2, 0, 1), (3, 128, 302621)],
    },
];

/// By a second program in plain Rust, which asks for the shape of each hand.
const MANY_TURNS: [Row; 6] = [
    Row {
        hand: "123456789m1134p",
        discard: "",
        goal: Goal::Ready,
        chances: &[(18, 1, 1)],
    },
    Row {
        hand: "123456789m1134p",
        discard: "",
        goal: Goal::Win,
        chances: &[(6, 9322563, 27593533), (18, 34327646, 47071321)],
    },
    Row {
        hand: "234m45678p34s558s",
        discard: "",
        goal: Goal::Ready,
        chances: &[(18, 12190925419173643, 12584789509475073)],
    },
    Row {
        hand: "234m45678p34s558s",
        discard: "",
        goal: Goal::Win,
        chances: &[
            (6, 95099293, 772618924),
            (18, 3019940306028300997, 5341671110885374167),
        ],
    },
    Row {
        hand: "23678m23p1236789s",
        discard: "6s",
        goal: Goal::Win,
        chances: &[(6, 49583714, 481204295)],
    },
    Row {
        hand: "23678m23p1236789s",
        discard: "2m",
        goal: Goal::Win,
        chances: &[(6, 27689599, 288722577)],
    },
];

/// The same, of hands that lack three tiles.
const FAR: [Row; 4] = [
    Row {
        hand: "123m4467p23557s1z",
        discard: "",
        goal: Goal::Ready,
        chances: &[(18, 3332954253898894213, 4014547853522548287)],
    },
    Row {
        hand: "123m4467p23557s1z",
        discard: "",
        goal: Goal::Win,
        chances: &[
            (6, 525424, 24347235),
            (18, 19305913277764549633, 60218217802838224305),
        ],
    },
    Row {
        hand: "1357m245p2346s77z",
        discard: "",
        goal: Goal::Ready,
        chances: &[(18, 9609497373462506, 16281890430438831)],
    },
    Row {
        hand: "1357m245p2346s77z",
        discard: "",
        goal: Goal::Win,
        chances: &[
            (6, 15214200, 2124702041),
            (18, 225207024146689, 1480171857312621),
        ],
    },
];

fn check(rt: &impl Abort, alloc: Global, row: &Row) -> Result<(), Fail> {
    let told = answer_to(alloc, row)?;
    for (turns, some, among) in row.chances {
        let place = *turns as usize;
        match (told.reached(row.goal).get(place), told.all.get(place)) {
            (Some(reached), Some(all)) => same(rt, Some(*reached), part_of(*all, *some, *among)),
            _ => return Err(Fail::from("too many turns")),
        }
    }
    Ok(())
}

/// The chance in ten thousandths.
fn rounded(part: u128, whole: u128) -> Option<u16> {
    if whole > 0 && part <= whole {
        Some(Fraction { part, whole }.ten_thousandths())
    } else {
        None
    }
}

#[test]
fn few_turns(rt: HostRuntime) -> Result<(), Fail> {
    for row in &FEW_TURNS {
        check(&rt, rt.alloc(), row)?;
    }
    Ok(())
}

#[test]
fn many_turns(rt: HostRuntime) -> Result<(), Fail> {
    for row in &MANY_TURNS {
        check(&rt, rt.alloc(), row)?;
    }
    Ok(())
}

#[test]
fn far_hands(rt: HostRuntime) -> Result<(), Fail> {
    for row in &FAR {
        check(&rt, rt.alloc(), row)?;
    }
    Ok(())
}

/// A discard, so many turns, and the chance to win by them in ten thousandths.
type AfterDiscard = (&'static str, u8, u16);

const ONE_FROM_READY: [AfterDiscard; 6] = [
    ("6s", 6, 1030),
    ("6s", 17, 4219),
    ("6s", 18, 4462),
    ("2m", 6, 959),
    ("2m", 17, 4673),
    ("2m", 18, 4984),
];

const TWO_FROM_READY: [AfterDiscard; 2] = [("5s", 18, 2515), ("7m", 18, 3931)];

/// The upper ends, by plain Rust too.
const ONE_AT_MOST: [AfterDiscard; 2] = [("6s", 18, 4745), ("2m", 18, 4984)];

const TWO_AT_MOST: [AfterDiscard; 2] = [("5s", 18, 2748), ("7m", 18, 3931)];

fn check_discards(
    rt: &impl Abort,
    alloc: Global,
    tiles: &str,
    rows: &[AfterDiscard],
    at_most: &[AfterDiscard],
) -> Result<(), Fail> {
    let asked = hand(tiles, &[], "")?;
    let each = each_of(alloc, &asked)?;
    for row in rows {
        let chances = after(each.as_slice(), kind(row.0)?).ok_or("no such discard")?;
        check_number(rt, chances.reached(Goal::Win), &chances.all, row)?;
    }
    for row in at_most {
        let chances = after(each.as_slice(), kind(row.0)?).ok_or("no such discard")?;
        check_number(rt, chances.at_most(Goal::Win), &chances.all, row)?;
    }
    Ok(())
}

fn check_number(
    rt: &impl Abort,
    numbers: &[u128; 19],
    all: &[u128; 19],
    row: &AfterDiscard,
) -> Result<(), Fail> {
    let place = row.1 as usize;
    match (numbers.get(place), all.get(place)) {
        (Some(number), Some(all)) => same(rt, rounded(*number, *all), Some(row.2)),
        _ => return Err(Fail::from("too many turns")),
    }
    Ok(())
}

#[test]
fn one_from_ready(rt: HostRuntime) -> Result<(), Fail> {
    check_discards(
        &rt,
        rt.alloc(),
        "23678m23p1236789s",
        &ONE_FROM_READY,
        &ONE_AT_MOST,
    )
}

#[test]
fn two_from_ready(rt: HostRuntime) -> Result<(), Fail> {
    check_discards(
        &rt,
        rt.alloc(),
        "44577m23p3356678s",
        &TWO_FROM_READY,
        &TWO_AT_MOST,
    )
}

/// All but 35679m123p are seen. Over every play that keeps only what brings nearer and every order of three of these tiles, plain
/// Rust found 51 that win, where one of them throws what it accepts, and 48 where none does.
const EIGHT_UNSEEN: &str =
    "111122223344445566777m111222333444455556666777788889999p111122223333444455556666777788889999s1222233334444555566667777z";

#[test]
fn what_throwing_gains(rt: HostRuntime) -> Result<(), Fail> {
    let asked = hand("3568m", &["pon:888m", "pon:999m", "pon:111z"], EIGHT_UNSEEN)?;
    let told = one_of(rt.alloc(), &asked, 20)?;
    same(&rt, told.all[3], 336);
    same(&rt, told.win[3], 48);
    same(&rt, told.win_at_most[3] >= 51, true);
    same(&rt, told.win_at_most[3] <= 336, true);
    Ok(())
}

/// All but the four 2p and the four 5p are seen, for which the hand waits. So it wins by each draw, and no play has more than all.
const WAITS_UNSEEN: &str =
    "111222333444555666777888999m113334446666777788889999p111122223333444455556666777788889999s1111222233334444555566667777z";

#[test]
fn no_more_than_all_draws(rt: HostRuntime) -> Result<(), Fail> {
    let asked = hand("123456789m1134p", &[], WAITS_UNSEEN)?;
    let told = one_of(rt.alloc(), &asked, 1)?;
    same(&rt, told.all[3], 336);
    same(&rt, told.win[3], 336);
    same(&rt, told.win_at_most[3], 336);
    Ok(())
}

/// A hand that may come to more hands than there are places is refused by that name.
#[test]
fn few_hands(rt: HostRuntime) -> Result<(), Fail> {
    let asked = hand("123m4467p23557s1z", &[], "")?;
    let drawn = hand("44577m23p3356678s", &[], "")?;
    if size(&asked) != 13 || size(&drawn) != 14 {
        return Err(Fail::from("not so many tiles"));
    }
    for most in [0, 1, 20] {
        let mut room = room_for(rt.alloc(), most)?;
        let places = room.places.as_mut_slice();
        let told = chances_of(
            places,
            room.rows.as_mut_slice(),
            &mut FreshRows,
            &asked,
            MOST_TURNS,
        );
        same(&rt, told, Err(TooManyHands));
        let told = discard_chances(
            places,
            room.rows.as_mut_slice(),
            &mut FreshRows,
            &drawn,
            MOST_TURNS,
        );
        same(&rt, told.map(|_| 0), Err(TooManyHands));
    }
    Ok(())
}

#[test]
fn laws_hold() {
    laws::hand_and_turns();
    laws::no_more_than_all();
    laws::no_play_has_more();
    laws::no_more_than_at_most();
}
