//! Deals, and what they change.
use crate::facts::*;
use riichi_game::{Progress, after_all};
use riichi_hand::Wind;
use riichi_settle::{Move, Reason, Taking, changes_by, moves_of, settle};
use riichi_table::*;
use std::process::Abort;

/// That a deal changes the points so, and leaves so many sticks.
fn changes(
    rt: &impl Abort,
    progress: &Progress,
    rules: &TableRules,
    outcome: &Outcome,
    points: ByPlayer<i64>,
    sticks: u16,
) {
    let changes = settle(&progress.state, rules, outcome);
    same(rt, changes.points, points);
    same(rt, changes.sticks, sticks);
}

/// The second player wins 1 han 30 fu off the third; the first and the second are ready, and the first has declared; the fourth
/// draws 2 han 30 fu.
#[test]
fn three_deals(rt: HostRuntime) {
    let rules = TableRules::club();
    let first = ron(Player::Third, Player::Second, plain(240));
    let second = Outcome::Draw {
        ready: by(true, true, false, false),
        nagashi: nobody(),
        riichi: only(Player::First),
    };
    let third = tsumo(Player::Fourth, plain(480));
    let start = Progress::first(&rules);
    let one = after_all(&start, &rules, &[first]);
    same(&rt, one.state.points, by(30000, 31000, 29000, 30000));
    same(&rt, one.state.dealer, Player::Second);
    same(&rt, one.state.counters, 0);
    let two = after_all(&start, &rules, &[first, second]);
    same(&rt, two.state.points, by(30500, 32500, 27500, 28500));
    same(&rt, two.state.dealer, Player::Second);
    same(&rt, two.state.counters, 1);
    same(&rt, two.state.sticks, 1);
    let three = after_all(&start, &rules, &[first, second, third]);
    same(&rt, three.state.points, by(29900, 31400, 26900, 31800));
    same(&rt, three.state.dealer, Player::Third);
    same(&rt, three.state.round, Wind::East);
    same(&rt, three.state.counters, 0);
    same(&rt, three.state.sticks, 0);
    same(&rt, three.is_over, false);
}

/// The second player, who has bet, wins 1 han 30 fu off the third, with two counters and a stick: the bet, the hand, the counters, and
/// both sticks.
#[test]
fn moves_of_a_win(rt: HostRuntime) {
    let before = with(2, 1);
    let rules = TableRules::club();
    let outcome = Outcome::Ron {
        from: Player::Third,
        wins: ByPlayer::all(None).with(Player::Second, Some(plain(240))),
        riichi: only(Player::Second),
    };
    let moves = moves_of(&before.state, &rules, &outcome);
    let wanted = [
        Move::Bet {
            player: Player::Second,
        },
        Move::Points {
            from: Player::Third,
            to: Player::Second,
            points: 1000,
            why: Reason::Ron,
        },
        Move::Points {
            from: Player::Third,
            to: Player::Second,
            points: 600,
            why: Reason::Counters,
        },
        Move::Sticks {
            to: Player::Second,
            count: 2,
            why: Taking::Winner,
        },
    ];
    same(&rt, moves.as_slice(), wanted.as_slice());
    same(&rt, changes_by(1, &moves).sticks, 0);
}

/// The dealer, who has bet, with 1 han 40 fu and the second player with 1 han 30 fu win off the third, with two counters and a
/// stick.
#[test]
fn two_winners(rt: HostRuntime) {
    let before = with(2, 1);
    let outcome = Outcome::Ron {
        from: Player::Third,
        wins: by(Some(plain(320)), Some(plain(240)), None, None),
        riichi: only(Player::First),
    };
    let club = TableRules::club();
    changes(&rt, &before, &club, &outcome, by(3600, 1000, -3600, 0), 0);
    let mut each = club;
    each.counters = CountersTo::Each;
    changes(&rt, &before, &each, &outcome, by(3600, 1600, -4200, 0), 0);
    let mut nearest = club;
    nearest.ron = SeveralWinners::Nearest;
    changes(&rt, &before, &nearest, &outcome, by(3600, 0, -2600, 0), 0);
    let mut own = club;
    own.sticks = SticksTo::Own;
    let both = Outcome::Ron {
        from: Player::Third,
        wins: by(Some(plain(320)), Some(plain(240)), None, None),
        riichi: by(false, true, false, false),
    };
    changes(&rt, &before, &own, &both, by(3600, 1000, -3600, 0), 0);
    changes(&rt, &before, &club, &both, by(4600, 0, -3600, 0), 0);
}

/// The fourth player is liable for one limit of the second's yakuman.
#[test]
fn liability(rt: HostRuntime) {
    let before = with(1, 0);
    let club = TableRules::club();
    let drawn = tsumo(Player::Second, liable(1));
    changes(&rt, &before, &club, &drawn, by(0, 32300, 0, -32300), 0);
    let won = ron(Player::Third, Player::Second, liable(1));
    changes(&rt, &before, &club, &won, by(0, 32300, -16000, -16300), 0);
    let own = ron(Player::Fourth, Player::Second, liable(1));
    changes(&rt, &before, &club, &own, by(0, 32300, 0, -32300), 0);
    let two = tsumo(Player::Second, liable(2));
    changes(
        &rt,
        &with(0, 0),
        &club,
        &two,
        by(-16000, 64000, -8000, -40000),
        0,
    );
}

#[test]
fn draws(rt: HostRuntime) {
    let start = with(0, 0);
    let club = TableRules::club();
    let riichi = Outcome::Draw {
        ready: by(true, false, true, false),
        nagashi: nobody(),
        riichi: only(Player::Third),
    };
    changes(&rt, &start, &club, &riichi, by(1500, -1500, 500, -1500), 1);
    let one = draw(only(Player::Fourth));
    changes(&rt, &start, &club, &one, by(-1000, -1000, -1000, 3000), 0);
    let three = draw(by(true, true, true, false));
    changes(&rt, &start, &club, &three, by(1000, 1000, 1000, -3000), 0);
    let all = draw(ByPlayer::all(true));
    changes(&rt, &start, &club, &all, ByPlayer::all(0), 0);
}

/// A nagashi mangan of the dealer, who is ready or not, with two counters.
#[test]
fn nagashi(rt: HostRuntime) {
    let before = with(2, 0);
    let mut rules = TableRules::club();
    rules.nagashi = true;
    let unready = Outcome::Draw {
        ready: nobody(),
        nagashi: only(Player::First),
        riichi: nobody(),
    };
    changes(
        &rt,
        &before,
        &rules,
        &unready,
        by(12000, -4000, -4000, -4000),
        0,
    );
    let after = next(&rt, &before, &rules, &unready);
    same(&rt, after.state.counters, 3);
    same(&rt, after.state.dealer, Player::Second);
    let ready = Outcome::Draw {
        ready: only(Player::First),
        nagashi: only(Player::First),
        riichi: nobody(),
    };
    let after = next(&rt, &before, &rules, &ready);
    same(&rt, after.state.points, by(42000, 26000, 26000, 26000));
    same(&rt, after.state.dealer, Player::First);
}

#[test]
fn abortive_draws(rt: HostRuntime) {
    let start = with(0, 0);
    let club = TableRules::club();
    let four_bets = Outcome::Abort {
        riichi: ByPlayer::all(true),
    };
    let after = next(&rt, &start, &club, &four_bets);
    same(&rt, after.state.points, ByPlayer::all(29000));
    same(&rt, after.state.sticks, 4);
    same(&rt, after.state.counters, 1);
    same(&rt, after.state.dealer, Player::First);
    let mut two = club;
    two.ron = SeveralWinners::Two;
    let win = Some(plain(240));
    let three = Outcome::Ron {
        from: Player::Fourth,
        wins: by(win, win, win, None),
        riichi: nobody(),
    };
    let after = next(&rt, &start, &two, &three);
    same(&rt, after.state.points, ByPlayer::all(30000));
    same(&rt, after.state.counters, 1);
    same(&rt, after.state.dealer, Player::First);
}

#[test]
fn chombo_and_penalty(rt: HostRuntime) {
    let before = with(2, 1);
    let club = TableRules::club();
    let third = Outcome::Chombo {
        player: Player::Third,
    };
    let after = next(&rt, &before, &club, &third);
    same(&rt, after.state, before.state);
    same(&rt, after.penalties, by(0, 0, 20000, 0));
    let penalty = Outcome::Penalty {
        player: Player::Third,
        points: 8000,
    };
    let after = next(&rt, &after, &club, &penalty);
    same(&rt, after.penalties, by(0, 0, 28000, 0));
    let mut mangan = club;
    mangan.chombo = ChomboCost::Mangan;
    let after = next(&rt, &before, &mangan, &third);
    same(&rt, after.state.points, by(34000, 32000, 22000, 32000));
    same(&rt, after.state.counters, 2);
    same(&rt, after.state.sticks, 1);
    same(&rt, after.penalties, ByPlayer::all(0));
}
