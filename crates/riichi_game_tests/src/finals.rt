//! Final points that were worked by hand.
use crate::facts::{by, same};
use riichi_hand::Wind;
use riichi_places::final_points;
use riichi_table::*;
use std::process::Abort;

/// A game that ends with these points and sticks.
fn ended(points: [i32; 4], sticks: u8) -> GameState {
    let [first, second, third, fourth] = points;
    GameState {
        points: by(first, second, third, fourth),
        round: Wind::South,
        dealer: Player::Fourth,
        counters: 0,
        sticks,
    }
}

/// The places and the final points of the four, in the order of their first seats.
fn has(rt: &impl Abort, rules: &TableRules, state: &GameState, places: [u8; 4], totals: [i64; 4]) {
    has_with(rt, rules, state, [0; 4], places, totals);
}

fn has_with(
    rt: &impl Abort,
    rules: &TableRules,
    state: &GameState,
    penalties: [u32; 4],
    places: [u8; 4],
    totals: [i64; 4],
) {
    let [first, second, third, fourth] = penalties;
    let finals = final_points(rules, state, &by(first, second, third, fourth));
    let of = [finals.first, finals.second, finals.third, finals.fourth];
    let [one, two, three, four] = of;
    same(rt, [one.place, two.place, three.place, four.place], places);
    same(rt, [one.total, two.total, three.total, four.total], totals);
}

/// The second and the third share 5 and -5.
#[test]
fn two_in_the_middle_share(rt: HostRuntime) {
    let state = ended([41300, 32700, 32700, 13300], 0);
    let totals = [26300, 2700, 2700, -31700];
    has(&rt, &TableRules::club(), &state, [1, 2, 2, 4], totals);
}

/// The first has what each started with less than the return.
#[test]
fn nobody_shares(rt: HostRuntime) {
    let state = ended([38200, 27100, 20100, 14600], 0);
    let totals = [58200, 7100, -19900, -45400];
    has(&rt, &TableRules::league(), &state, [1, 2, 3, 4], totals);
}

/// Three share 50000, which leaves 200: a hundred each to the first two.
#[test]
fn three_share_with_a_rest(rt: HostRuntime) {
    let state = ended([28000, 28000, 28000, 16000], 0);
    let totals = [14700, 14700, 14600, -44000];
    has(&rt, &TableRules::league(), &state, [1, 1, 1, 4], totals);
}

/// Three share -20000: -6700 each, and the 100 that is left to the earliest of them.
#[test]
fn three_share_a_loss_with_a_rest(rt: HostRuntime) {
    let mut rules = TableRules::club();
    rules.uma = TableRules::online().uma;
    let state = ended([25000, 45000, 25000, 25000], 0);
    let totals = [-11600, 35000, -11700, -11700];
    has(&rt, &rules, &state, [2, 1, 2, 2], totals);
}

/// Three share 5, -5 and -15.
#[test]
fn three_behind_share(rt: HostRuntime) {
    let state = ended([45000, 25000, 25000, 25000], 0);
    let totals = [30000, -10000, -10000, -10000];
    has(&rt, &TableRules::club(), &state, [1, 2, 2, 2], totals);
}

/// The first two share 50 and 10, and the last two -10 and -30.
#[test]
fn two_in_front_and_two_behind_share(rt: HostRuntime) {
    let front = ended([18000, 35000, 35000, 12000], 0);
    let totals = [-22000, 35000, 35000, -48000];
    has(&rt, &TableRules::league(), &front, [3, 1, 1, 4], totals);
    let behind = ended([40000, 30000, 15000, 15000], 0);
    let totals = [60000, 10000, -35000, -35000];
    has(&rt, &TableRules::league(), &behind, [1, 2, 3, 3], totals);
}

/// All four share what the four return.
#[test]
fn four_share(rt: HostRuntime) {
    let state = ended([25000, 25000, 25000, 25000], 0);
    has(
        &rt,
        &TableRules::league(),
        &state,
        [1, 1, 1, 1],
        [0, 0, 0, 0],
    );
}

/// Equal points by seat: 20 and 20 beside it, 10, -10, -20.
#[test]
fn ties_by_seat(rt: HostRuntime) {
    let state = ended([20000, 30000, 30000, 20000], 0);
    let totals = [-20000, 40000, 10000, -30000];
    has(&rt, &TableRules::online(), &state, [3, 1, 2, 4], totals);
}

/// Two sticks that lie at the end go to the first, or to nobody.
#[test]
fn sticks_that_lie_at_the_end(rt: HostRuntime) {
    let state = ended([40000, 30000, 28000, 20000], 2);
    let mut rules = TableRules::club();
    let totals = [27000, 5000, -7000, -25000];
    has(&rt, &rules, &state, [1, 2, 3, 4], totals);
    rules.left = LeftSticks::Lost;
    let totals = [25000, 5000, -7000, -25000];
    has(&rt, &rules, &state, [1, 2, 3, 4], totals);
}

/// Of two who are first the earlier seat takes the sticks, and is ahead then; where they are lost, the two share.
#[test]
fn sticks_part_those_who_are_first(rt: HostRuntime) {
    let state = ended([22000, 38000, 38000, 20000], 2);
    let mut rules = TableRules::club();
    let totals = [-13000, 25000, 13000, -25000];
    has(&rt, &rules, &state, [3, 1, 2, 4], totals);
    rules.left = LeftSticks::Lost;
    let totals = [-13000, 18000, 18000, -25000];
    has(&rt, &rules, &state, [3, 1, 1, 4], totals);
}

/// A chombo takes 20000 off, and changes no place; points may be below 0.
#[test]
fn penalties_and_points_below_nothing(rt: HostRuntime) {
    let state = ended([70000, 35000, 20000, -5000], 0);
    let totals = [35000, 10000, -15000, -51000];
    let penalties = [20000, 0, 0, 1000];
    let rules = TableRules::club();
    has_with(&rt, &rules, &state, penalties, [1, 2, 3, 4], totals);
}
