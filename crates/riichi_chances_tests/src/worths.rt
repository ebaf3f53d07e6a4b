//! What hands are worth: worked hands, whose draws and points were counted one by one.
use crate::facts::same;
use crate::hands::{hand, kind, size, tiles};
use crate::room::room_for;
use crate::worked::refused;
use arrayvec::ArrayVec;
use riichi_chances::{Fraction, TooManyHands, unseen_tiles};
use riichi_hand::{Rules, ShapeRecord, Wind};
use riichi_rows::FreshRows;
use riichi_tiles::Kind;
use riichi_worth::{DiscardWorth, Stakes, Worth, WorthRow, discard_worths, hand_worth, laws};
use std::alloc::Global;
use std::process::Abort;
use std::test::Fail;

/// So many hands are enough.
const MOST_HANDS: usize = 512;

/// A hand, what its points hang on, and what it is worth by so many turns.
#[derive(Clone, Copy)]
struct Row {
    hand: &'static str,
    open: &'static [&'static str],
    seat: Wind,
    dora: &'static str,
    turns: u8,
    worth: (u32, u128, u128),
}

fn stakes(seat: Wind, dora: &str) -> Result<Stakes, Fail> {
    Ok(Stakes {
        rules: Rules::One,
        seat,
        round: Wind::East,
        dora: tiles(dora)?,
    })
}

/// Places for the points of so many hands. Where one request for memory is refused, the second has it.
fn rows_for(alloc: Global, most: usize) -> Result<Vec<WorthRow>, Fail> {
    if let Ok(rows) = vec![in alloc; WorthRow::free(); most] {
        return Ok(rows);
    }
    let rows = vec![in alloc; WorthRow::free(); most].map_err(|_| Fail::from("no memory twice"))?;
    Ok(rows)
}

fn worth_by(alloc: Global, asked: &ShapeRecord, stakes: &Stakes, turns: u8) -> Result<Worth, Fail> {
    if size(asked) != 13 || turns > 18 || turns > unseen_tiles(asked) {
        return Err(Fail::from("not thirteen tiles, or too many turns"));
    }
    let mut room = room_for(alloc, MOST_HANDS)?;
    let mut rows = rows_for(alloc, MOST_HANDS)?;
    hand_worth(
        room.places.as_mut_slice(),
        rows.as_mut_slice(),
        &mut FreshRows,
        asked,
        stakes,
        turns,
    )
    .map_err(refused)
}

fn told(points: u32, part: u128, whole: u128) -> Worth {
    Worth {
        points,
        rest: Fraction { part, whole },
    }
}

fn check(rt: &impl Abort, alloc: Global, row: &Row) -> Result<(), Fail> {
    let asked = hand(row.hand, row.open, row.dora)?;
    let (points, part, whole) = row.worth;
    let worth = worth_by(alloc, &asked, &stakes(row.seat, row.dora)?, row.turns)?;
    same(rt, worth, told(points, part, whole));
    Ok(())
}

/// Ready hands. Of 123 tiles eight win by 2p or 5p, each a mangan: riichi, self-draw, pinfu and a straight. With 5s as dora one
/// more han for it alone: 5200 by 5s and 2700 by 8s, four live copies each of 122. An open hand without a yaku brings nothing.
#[test]
fn ready_hands(rt: HostRuntime) -> Result<(), Fail> {
    let mangan = Row {
        hand: "123456789m1134p",
        open: &[],
        seat: Wind::South,
        dora: "",
        turns: 1,
        worth: (520, 40, 123),
    };
    check(&rt, rt.alloc(), &mangan)?;
    let dealer = Row {
        seat: Wind::East,
        worth: (780, 60, 123),
        ..mangan
    };
    check(&rt, rt.alloc(), &dealer)?;
    let dora = Row {
        hand: "234m567m345p67s99s",
        open: &[],
        seat: Wind::South,
        dora: "4s",
        turns: 1,
        worth: (259, 2, 122),
    };
    check(&rt, rt.alloc(), &dora)?;
    let nothing = Row {
        hand: "123m456p1134s",
        open: &["chi:789m"],
        seat: Wind::South,
        dora: "",
        turns: 3,
        worth: (0, 0, 1_815_726),
    };
    check(&rt, rt.alloc(), &nothing)
}

fn worths_by(
    alloc: Global,
    asked: &ShapeRecord,
    stakes: &Stakes,
    turns: u8,
) -> Result<ArrayVec<DiscardWorth, 14>, Fail> {
    if size(asked) != 14 || turns > 18 || turns > unseen_tiles(asked) {
        return Err(Fail::from("not fourteen tiles, or too many turns"));
    }
    let mut room = room_for(alloc, MOST_HANDS)?;
    let mut rows = rows_for(alloc, MOST_HANDS)?;
    discard_worths(
        room.places.as_mut_slice(),
        rows.as_mut_slice(),
        &mut FreshRows,
        asked,
        stakes,
        turns,
    )
    .map_err(refused)
}

fn worth_after(each: &[DiscardWorth], discard: Kind) -> Option<Worth> {
    for one in each {
        if one.kind == discard {
            return Some(one.worth);
        }
    }
    None
}

/// A won hand: without 1p it is the ready hand above, with that tile seen.
#[test]
fn after_a_discard(rt: HostRuntime) -> Result<(), Fail> {
    let asked = hand("123456789m11345p", &[], "")?;
    let each = worths_by(rt.alloc(), &asked, &stakes(Wind::South, "")?, 1)?;
    let worth = worth_after(each.as_slice(), kind("5p")?).ok_or("no such discard")?;
    same(&rt, worth, told(459, 2, 122));
    Ok(())
}

/// A hand that may come to more hands than there are places is refused by that name.
#[test]
fn few_places(rt: HostRuntime) -> Result<(), Fail> {
    let asked = hand("123m4467p23557s1z", &[], "")?;
    if size(&asked) != 13 || unseen_tiles(&asked) < 18 {
        return Err(Fail::from("not so many tiles"));
    }
    let mut room = room_for(rt.alloc(), MOST_HANDS)?;
    for most in [0, 1, 20] {
        let mut rows = rows_for(rt.alloc(), most)?;
        let stakes = stakes(Wind::South, "")?;
        let refusal = hand_worth(
            room.places.as_mut_slice(),
            rows.as_mut_slice(),
            &mut FreshRows,
            &asked,
            &stakes,
            18,
        );
        same(&rt, refusal, Err(TooManyHands));
    }
    Ok(())
}

#[test]
fn laws_hold() {
    laws::hand_and_turns();
    laws::no_more_than_the_dearest();
}
