//! Rows that a player needs, worked by hand.
use crate::facts::{by, holds, nobody, only, same};
use riichi_hand::{By, Rules, Wind};
use riichi_need::{Question, needs_of, pays_so};
use riichi_score::Payment;
use riichi_table::*;
use std::process::Abort;

/// What the third player needs for the first place, with one counter and one stick.
fn question(points: [i32; 4]) -> Question {
    let [first, second, third, fourth] = points;
    let state = GameState {
        points: by(first, second, third, fourth),
        round: Wind::South,
        dealer: Player::First,
        counters: 1,
        sticks: 1,
    };
    Question {
        rules: TableRules::club(),
        state,
        bets: nobody(),
        player: Player::Third,
        place: 1,
    }
}

/// The payments that are needed by ron, strictly and with a tie.
fn by_ron(rt: &impl Abort, question: &Question, from: Player, strictly: u32, with_tie: u32) {
    let need = needs_of(question).by_ron.get(from);
    let rows = need.map(|need| (need.strictly, need.with_tie));
    let Some((Some(one), Some(other))) = rows else {
        holds(rt, false);
        return;
    };
    same(rt, one.payment, Payment::Ron { points: strictly });
    same(rt, other.payment, Payment::Ron { points: with_tie });
}

/// Off the second 3200 ties and 3600 wins, off another 6400 is not enough and 7100 wins, each with 300 for the counter; by
/// self-draw 1300/2600 is 100 short and 1500/2900 wins, each with 100.
#[test]
fn for_the_first_place(rt: HostRuntime) {
    let question = question([28000, 38000, 30000, 23000]);
    by_ron(&rt, &question, Player::Second, 3900, 3500);
    by_ron(&rt, &question, Player::First, 7400, 7400);
    by_ron(&rt, &question, Player::Fourth, 7400, 7400);
    let needs = needs_of(&question);
    holds(&rt, needs.by_ron.third.is_none());
    let payment = Payment::Tsumo {
        other: 1600,
        dealer: 3000,
    };
    same(
        &rt,
        needs.by_tsumo.strictly.map(|row| row.payment),
        Some(payment),
    );
    same(
        &rt,
        needs.by_tsumo.with_tie.map(|row| row.payment),
        Some(payment),
    );
}

/// By seat the second is ahead at equal points. A bet of the second costs 1000 and gives 1000, the own changes nothing.
#[test]
fn ties_by_seat_and_bets(rt: HostRuntime) {
    let mut asked = question([28000, 38000, 30000, 23000]);
    asked.rules.ties = Ties::Seat;
    by_ron(&rt, &asked, Player::Second, 3900, 3900);
    asked.bets = only(Player::Third);
    by_ron(&rt, &asked, Player::Second, 3900, 3900);
    asked.bets = only(Player::Second);
    by_ron(&rt, &asked, Player::Second, 2600, 2600);
}

/// Behind by 8600 before the counter and the stick: 7700 wins, or 8000 where four han 30 fu are raised.
#[test]
fn raised_rows(rt: HostRuntime) {
    let mut asked = question([28000, 38600, 30000, 22400]);
    by_ron(&rt, &asked, Player::First, 8000, 8000);
    asked.rules.hand = Rules::Two;
    by_ron(&rt, &asked, Player::First, 8300, 8300);
}

/// Who is far ahead needs the least row of all, and who is far behind none.
#[test]
fn least_row_and_none(rt: HostRuntime) {
    let ahead = question([20000, 20000, 70000, 9000]);
    by_ron(&rt, &ahead, Player::Second, 1300, 1300);
    let behind = question([20000, 80000, 9000, 10000]);
    let needs = needs_of(&behind);
    holds(&rt, needs.by_tsumo.with_tie.is_none());
    let off_second = needs.by_ron.second.map(|need| need.with_tie.is_some());
    same(&rt, off_second, Some(false));
}

/// 3200 by ron is 1.100, 2.50 and seven pairs with three han.
#[test]
fn hands_of_a_row(rt: HostRuntime) {
    let rules = Rules::One;
    holds(&rt, pays_so(rules, By::Ron, 800, 1, 100));
    holds(&rt, pays_so(rules, By::Ron, 800, 2, 50));
    holds(&rt, pays_so(rules, By::Ron, 800, 3, 25));
    holds(&rt, !pays_so(rules, By::Ron, 800, 4, 50));
    holds(&rt, !pays_so(rules, By::Tsumo, 400, 2, 25));
}

/// What the fourth needs for the second place, with two counters and a stick: 27000 + 1600 and what is paid, `p`.
#[test]
fn for_the_second_place(rt: HostRuntime) {
    let state = GameState {
        points: by(35000, 25000, 32000, 27000),
        round: Wind::South,
        dealer: Player::Third,
        counters: 2,
        sticks: 1,
    };
    let asked = Question {
        rules: TableRules::club(),
        state,
        bets: nobody(),
        player: Player::Fourth,
        place: 2,
    };
    // The counters are paid beside each row, 600 by ron and 200 each by self-draw. Off the first, who keeps 34400 - p: passed where
    // 2p > 5800, while the third with 32000 may stay ahead; 2900 ties, 3200 passes. Off the second the third has 32000, so p > 3400:
    // 3200 is too little and 3600 the next. Off the third, who keeps 31400 - p: p > 1400, 1600. By self-draw n by the first two and
    // d by the third, who deals: 28600 + 2n + d > 31800 - d, so n + d > 1600: 500/1000 is too little, 600/1200 the next.
    by_ron(&rt, &asked, Player::First, 3800, 3500);
    by_ron(&rt, &asked, Player::Second, 4200, 4200);
    by_ron(&rt, &asked, Player::Third, 2200, 2200);
    let payment = Payment::Tsumo {
        other: 800,
        dealer: 1400,
    };
    let needs = needs_of(&asked);
    same(
        &rt,
        needs.by_tsumo.strictly.map(|row| row.payment),
        Some(payment),
    );
}
