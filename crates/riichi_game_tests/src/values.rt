//! What hands are worth.
use crate::facts::*;
use riichi_game::*;
use riichi_hand::{By, Job, Rules, Switch, WinRecord, Wind, read_line};
use riichi_table::*;
use std::process::Abort;

fn has(rt: &impl Abort, by: By, han: u8, fu: u8, base: Option<u16>) {
    let rules = Rules::One;
    let worth = base.map(|base| Worth::Counted { base });
    same(rt, counted_worth(rules, by, han, fu), worth);
}

#[test]
fn han_and_fu(rt: HostRuntime) {
    has(&rt, By::Ron, 1, 30, Some(240));
    has(&rt, By::Ron, 1, 110, Some(880));
    has(&rt, By::Tsumo, 2, 20, Some(320));
    has(&rt, By::Ron, 2, 25, Some(400));
    has(&rt, By::Tsumo, 4, 140, Some(2000));
    has(&rt, By::Ron, 13, 30, Some(8000));
    has(&rt, By::Ron, 2, 20, None);
    has(&rt, By::Tsumo, 1, 20, None);
    has(&rt, By::Tsumo, 1, 110, None);
    has(&rt, By::Ron, 1, 25, None);
    has(&rt, By::Tsumo, 2, 25, None);
    has(&rt, By::Ron, 3, 120, None);
    has(&rt, By::Ron, 2, 35, None);
    has(&rt, By::Ron, 0, 30, None);
}

#[test]
fn limits(rt: HostRuntime) {
    let one = Rules::One;
    let both = Rules::One
        .with(Switch::AddYakuman, true)
        .with(Switch::DoubleYakuman, true);
    let two = LimitHand::Yakuman { limits: 2 };
    same(
        &rt,
        limit_worth(one, LimitHand::Haneman),
        Some(Worth::Counted { base: 3000 }),
    );
    same(&rt, limit_worth(one, two), None);
    same(
        &rt,
        limit_worth(both, two),
        Some(Worth::Yakuman { limits: 2 }),
    );
    same(&rt, most_limits(both), 6);
}

/// The record of a hand that the first player wins by ron, with two counters and a stick.
fn won_by_first(job: &Job) -> Option<WinRecord> {
    match job {
        Job::Win(win) => {
            let state = with(2, 1).state;
            let rules = TableRules::club();
            win_record(&state, &rules, Player::First, By::Ron, win.parts()).ok()
        }
        _ => None,
    }
}

/// A hand of 1 han 30 fu, which is written as South's, is read as that of the seat and the counters of the table.
#[test]
fn hands(rt: HostRuntime) {
    let line = b"win 234m567m345p67s99s on=5s by=ron seat=S round=E";
    let Ok(Some(job)) = read_line(Rules::One, line) else {
        return holds(&rt, false);
    };
    let win = won_by_first(&job).expect(&rt, "a win");
    same(&rt, win.seat(), Wind::East);
    same(&rt, win.counters(), 2);
    same(&rt, worth_of_win(&win), Ok(Worth::Counted { base: 240 }));
}
