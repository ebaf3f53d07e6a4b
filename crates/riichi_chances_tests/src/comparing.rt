//! Which discards are surely better than which.
use crate::facts::same;
use crate::hands::{hand, kind, size};
use crate::room::room_for;
use crate::worked::refused;
use arrayvec::ArrayVec;
use riichi_chances::{DiscardOdds, Odds, discard_chances, each_odds_at, unseen_tiles};
use riichi_hand::ShapeRecord;
use riichi_rows::FreshRows;
use riichi_tiles::Kind;
use std::alloc::Global;
use std::process::Abort;
use std::test::Fail;

/// So many hands are enough.
const MOST_HANDS: usize = 2048;

fn odds_after(each: &[DiscardOdds], discard: Kind) -> Option<Odds> {
    for one in each {
        if one.kind == discard {
            return Some(one.odds);
        }
    }
    None
}

fn each_of(
    alloc: Global,
    asked: &ShapeRecord,
    turns: u8,
) -> Result<ArrayVec<DiscardOdds, 14>, Fail> {
    if size(asked) != 14 || turns > 18 {
        return Err(Fail::from("not fourteen tiles, or too many turns"));
    }
    let mut room = room_for(alloc, MOST_HANDS)?;
    let each = discard_chances(
        room.places.as_mut_slice(),
        room.rows.as_mut_slice(),
        &mut FreshRows,
        asked,
        turns,
    )
    .map_err(refused)?;
    Ok(each_odds_at(each.as_slice(), turns))
}

/// By 18 turns 2m wins in 0.4984 of all draws and 6s in 0.4745 at most, so 2m is surely better; by 6 turns it is not.
fn check(rt: &impl Abort, alloc: Global, turns: u8, is_sure: bool) -> Result<(), Fail> {
    let asked = hand("23678m23p1236789s", &[], "")?;
    let each = each_of(alloc, &asked, turns)?;
    let narrow = odds_after(each.as_slice(), kind("2m")?).ok_or("no such discard")?;
    let wide = odds_after(each.as_slice(), kind("6s")?).ok_or("no such discard")?;
    same(rt, narrow.wins_surely_over(&wide), is_sure);
    same(rt, narrow.wins_surely_over(&narrow), false);
    Ok(())
}

#[test]
fn surely_better_by_many_turns(rt: HostRuntime) -> Result<(), Fail> {
    check(&rt, rt.alloc(), 18, true)
}

#[test]
fn not_surely_better_by_few_turns(rt: HostRuntime) -> Result<(), Fail> {
    check(&rt, rt.alloc(), 6, false)
}

/// 136 tiles without the hand, its melds and what is seen: a kong has four.
#[test]
fn tiles_unseen(rt: HostRuntime) -> Result<(), Fail> {
    same(&rt, unseen_tiles(&hand("123456789m1134p", &[], "")?), 123);
    let asked = hand("23678m23p1236789s", &[], "")?;
    same(&rt, unseen_tiles(&asked), 122);
    let melded = hand("123456789m1p", &["kan:7777z"], "1p2222s")?;
    same(&rt, unseen_tiles(&melded), 117);
    Ok(())
}
