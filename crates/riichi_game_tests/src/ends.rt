//! When a game is over.
use crate::facts::*;
use riichi_game::Progress;
use riichi_hand::Wind;
use riichi_table::*;
use std::process::Abort;

/// The fourth player deals in South under the rules of play online, and draws 3900.
fn leads(rt: &impl Abort, points: ByPlayer<i32>, fourth: i32, is_over: bool) {
    let before = last_dealer(Wind::South, points);
    let outcome = tsumo(Player::Fourth, plain(640));
    let rules = TableRules::online();
    let after = next(rt, &before, &rules, &outcome);
    same(rt, after.state.points.fourth, fourth);
    same(rt, after.state.round, Wind::South);
    same(rt, after.state.dealer, Player::Fourth);
    same(rt, after.state.counters, 1);
    same(rt, after.is_over, is_over);
}

#[test]
fn last_dealer_stops(rt: HostRuntime) {
    leads(&rt, by(25300, 25300, 24300, 25100), 29000, false);
    leads(&rt, by(25300, 25300, 23300, 26100), 30000, true);
}

/// The second player wins 1000 in the last deal of South.
fn last_deal(rt: &impl Abort, points: ByPlayer<i32>, second: i32, is_over: bool) {
    let before = last_dealer(Wind::South, points);
    let outcome = ron(Player::Third, Player::Second, plain(240));
    let rules = TableRules::online();
    let after = next(rt, &before, &rules, &outcome);
    same(rt, after.state.points.second, second);
    same(rt, after.state.round, Wind::West);
    same(rt, after.state.dealer, Player::First);
    same(rt, after.is_over, is_over);
}

#[test]
fn one_round_more(rt: HostRuntime) {
    last_deal(&rt, by(25000, 28900, 21100, 25000), 29900, false);
    last_deal(&rt, by(25000, 29000, 21000, 25000), 30000, true);
}

/// In the last deal of West the dealer is ready at a draw, and ahead with 29000.
#[test]
fn last_dealer_of_west(rt: HostRuntime) {
    let before = last_dealer(Wind::West, by(25000, 24000, 25000, 26000));
    let rules = TableRules::online();
    let outcome = draw(only(Player::Fourth));
    let after = next(&rt, &before, &rules, &outcome);
    same(&rt, after.state.points, by(24000, 23000, 24000, 29000));
    same(&rt, after.is_over, true);
}

/// The dealer pays a mangan backwards, and is left so many points.
fn chombo_leaves(rt: &impl Abort, points: ByPlayer<i32>, left: i32, is_over: bool) {
    let mut rules = TableRules::online();
    rules.chombo = ChomboCost::Mangan;
    let mut before = Progress::first(&rules);
    before.state.points = points;
    let outcome = Outcome::Chombo {
        player: Player::First,
    };
    let after = next(rt, &before, &rules, &outcome);
    same(rt, after.state.points.first, left);
    same(rt, after.is_over, is_over);
}

#[test]
fn bust(rt: HostRuntime) {
    chombo_leaves(&rt, by(12000, 30000, 30000, 28000), 0, false);
    chombo_leaves(&rt, by(11900, 30000, 30000, 28100), -100, true);
}

/// Behind the end only a penalty is accepted.
#[test]
fn after_the_end(rt: HostRuntime) {
    let rules = TableRules::club();
    let over = next(&rt, &with(0, 0), &rules, &Outcome::End);
    same(&rt, over.is_over, true);
    let outcome = draw(nobody());
    same(
        &rt,
        over.after(&rules, &outcome),
        Err(OutcomeFault::GameOver),
    );
    let penalty = Outcome::Penalty {
        player: Player::First,
        points: 1000,
    };
    holds(&rt, over.after(&rules, &penalty).is_ok());
}
