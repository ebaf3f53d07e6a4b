//! Chances as text.
use crate::facts::same;
use crate::hands::{hand, size};
use crate::room::room_for;
use arrayvec::ArrayString;
use riichi_chances::{Fraction, Odds, chances_of};
use riichi_chances_text::{
    MOST_ODDS, MOST_ODDS_MEMBERS, MOST_ODDS_WORDS, push_decimal, push_fraction, push_odds,
    push_odds_members, push_odds_words,
};
use riichi_rows::FreshRows;
use std::test::Fail;

const READY: &str = " ready 1/1 1.0000 most 1/1 1.0000 win 316/2501 0.1263 most 316/2501 0.1263";

const MEMBERS: &str =
    "\"ready\":{\"part\":\"1\",\"whole\":\"1\",\"chance\":1.0000},\"ready_at_most\":{\"part\":\"1\",\"whole\":\"1\",\"chance\":1.0000},\"win\":{\"part\":\"316\",\"whole\":\"2501\",\"chance\":0.1263},\"win_at_most\":{\"part\":\"316\",\"whole\":\"2501\",\"chance\":0.1263}";

const WORDS: &str =
    "ready in 1.0000 of all draws, 1.0000 at most; won in 0.1263 of all draws, 0.1263 at most";

/// A ready hand by two draws.
const BY_TWO: Odds = Odds {
    ready: 15_006,
    ready_at_most: 15_006,
    win: 1_896,
    win_at_most: 1_896,
    all: 15_006,
};

#[test]
fn odds_of_a_ready_hand(rt: HostRuntime) -> Result<(), Fail> {
    let asked = hand("123456789m1134p", &[], "")?;
    if size(&asked) != 13 {
        return Err(Fail::from("not thirteen tiles"));
    }
    let mut room = room_for(rt.alloc(), 1)?;
    let chances = chances_of(
        room.places.as_mut_slice(),
        room.rows.as_mut_slice(),
        &mut FreshRows,
        &asked,
        2,
    );
    same(&rt, chances.map(|chances| chances.at(2)), Ok(BY_TWO));
    Ok(())
}

#[test]
fn odds_in_each_form(rt: HostRuntime) {
    let mut text = ArrayString::<MOST_ODDS>::new();
    push_odds(&mut text, &BY_TWO);
    same(&rt, text.as_str(), READY);
    let mut members = ArrayString::<MOST_ODDS_MEMBERS>::new();
    push_odds_members(&mut members, &BY_TWO);
    same(&rt, members.as_str(), MEMBERS);
    let mut words = ArrayString::<MOST_ODDS_WORDS>::new();
    push_odds_words(&mut words, &BY_TWO);
    same(&rt, words.as_str(), WORDS);
}

#[test]
fn nothing_and_a_half(rt: HostRuntime) {
    let mut text = ArrayString::<200>::new();
    push_fraction(
        &mut text,
        Fraction {
            part: 0,
            whole: 123,
        },
    );
    text.push_str(", ");
    push_decimal(
        &mut text,
        Fraction {
            part: 1,
            whole: 20_000,
        },
    );
    same(&rt, text.as_str(), "0/1 0.0000, 0.0001");
}
