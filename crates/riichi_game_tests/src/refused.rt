//! Outcomes that are refused.
use crate::facts::*;
use riichi_game::Progress;
use riichi_hand::Wind;
use riichi_table::*;
use std::process::Abort;

fn refuses(
    rt: &impl Abort,
    progress: &Progress,
    rules: &TableRules,
    outcome: Outcome,
    fault: OutcomeFault,
) {
    same(rt, progress.after(rules, &outcome), Err(fault));
}

#[test]
fn wins(rt: HostRuntime) {
    let start = with(0, 0);
    let club = TableRules::club();
    let nobody_wins = Outcome::Ron {
        from: Player::First,
        wins: ByPlayer::all(None),
        riichi: nobody(),
    };
    refuses(&rt, &start, &club, nobody_wins, OutcomeFault::NobodyWins);
    let own = ron(Player::First, Player::First, plain(240));
    refuses(&rt, &start, &club, own, OutcomeFault::DiscarderWins);
    let own = tsumo(Player::Fourth, liable(1));
    refuses(&rt, &start, &club, own, OutcomeFault::WinnerLiable);
    let two = tsumo(Player::First, liable(2));
    refuses(&rt, &start, &club, two, OutcomeFault::NoSuchWorth);
    let mut counted = liable(1);
    counted.worth = Worth::Counted { base: 8000 };
    let counted = tsumo(Player::First, counted);
    refuses(&rt, &start, &club, counted, OutcomeFault::LiableLimits);
    let mut off = club;
    off.liable = false;
    let one = tsumo(Player::First, liable(1));
    refuses(&rt, &start, &off, one, OutcomeFault::LiableOff);
}

#[test]
fn draws_and_bets(rt: HostRuntime) {
    let start = with(0, 0);
    let club = TableRules::club();
    let nagashi = Outcome::Draw {
        ready: nobody(),
        nagashi: only(Player::First),
        riichi: nobody(),
    };
    refuses(&rt, &start, &club, nagashi, OutcomeFault::NagashiOff);
    let unready = Outcome::Draw {
        ready: nobody(),
        nagashi: nobody(),
        riichi: only(Player::First),
    };
    refuses(&rt, &start, &club, unready, OutcomeFault::RiichiNotReady);
    let mut poor = start;
    poor.state.points.first = 900;
    let bet = Outcome::Abort {
        riichi: only(Player::First),
    };
    let online = TableRules::online();
    refuses(&rt, &poor, &online, bet, OutcomeFault::BetOfTooFew);
    holds(&rt, poor.after(&club, &bet).is_ok());
    refuses(
        &rt,
        &with(99, 0),
        &club,
        draw(nobody()),
        OutcomeFault::OverCounters,
    );
    refuses(&rt, &with(0, 99), &club, bet, OutcomeFault::OverSticks);
}

#[test]
fn written_states(rt: HostRuntime) {
    let start = with(0, 0);
    let club = TableRules::club();
    let mut state = start.state;
    state.sticks = 1;
    let wrong = Outcome::Stands { state };
    refuses(&rt, &start, &club, wrong, OutcomeFault::StandsSum);
    state.points.first = 29000;
    let right = Outcome::Stands { state };
    holds(&rt, start.after(&club, &right).is_ok());
    state.round = Wind::West;
    let west = Outcome::Stands { state };
    refuses(&rt, &start, &club, west, OutcomeFault::StandsRound);
}
