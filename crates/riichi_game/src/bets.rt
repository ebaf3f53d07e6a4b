//! Why an outcome is refused by what the table shows.
ghost use Rattle.std.specs.Prelude.{◌≡◌};
ghost use Rattle.riichi_game.specs.Faults as spec;

use crate::ends::has_round;
use crate::won::riichi_in;
use riichi_table::{ByPlayer, GameState, Outcome, OutcomeFault, TableRules};

/// The first fault of an outcome by what the table shows, or of a written state.
#[tactic(auto, unfolding(crate::specs::Faults::table_fault))]
pub(crate) fn table_fault(
    state: &GameState,
    rules: &TableRules,
    outcome: &Outcome,
) -> Option<OutcomeFault>
    ensures { result ≡ spec.table_fault state.now rules.now outcome.now }
{
    if rules.bust && bet_of_too_few(state, outcome) {
        return Some(OutcomeFault::BetOfTooFew);
    }
    if riichi_not_ready(outcome) {
        return Some(OutcomeFault::RiichiNotReady);
    }
    if has_wrong_total(rules, outcome) {
        return Some(OutcomeFault::StandsSum);
    }
    if has_wrong_round(rules, outcome) {
        return Some(OutcomeFault::StandsRound);
    }
    None
}

#[tactic(auto, unfolding(crate::specs::Faults::bet_of_too_few))]
fn bet_of_too_few(state: &GameState, outcome: &Outcome) -> bool
    ensures { result ≡ spec.bet_of_too_few state.now outcome.now }
{
    poor_bets(&state.points, &riichi_in(outcome)).any()
}

/// Who has bet with fewer than 1000 points.
fn poor_bets(points: &ByPlayer<i32>, riichi: &ByPlayer<bool>) -> ByPlayer<bool>
    ensures { result ≡ spec.poor_bets points.now riichi.now }
{
    ByPlayer {
        first: is_poor_bet(points.first, riichi.first),
        second: is_poor_bet(points.second, riichi.second),
        third: is_poor_bet(points.third, riichi.third),
        fourth: is_poor_bet(points.fourth, riichi.fourth),
    }
}

#[tactic(auto, unfolding(crate::specs::Faults::is_poor_bet))]
fn is_poor_bet(points: i32, bets: bool) -> bool
    ensures { result ≡ spec.is_poor_bet points bets }
{
    bets && points < 1000
}

fn riichi_not_ready(outcome: &Outcome) -> bool
    ensures { result ≡ spec.riichi_not_ready outcome.now }
{
    match outcome {
        Outcome::Draw { ready, riichi, .. } => unready(ready, riichi).any(),
        _ => false,
    }
}

/// Who has declared riichi and isn't ready.
fn unready(ready: &ByPlayer<bool>, riichi: &ByPlayer<bool>) -> ByPlayer<bool>
    ensures { result ≡ spec.unready ready.now riichi.now }
{
    ByPlayer {
        first: riichi.first && !ready.first,
        second: riichi.second && !ready.second,
        third: riichi.third && !ready.third,
        fourth: riichi.fourth && !ready.fourth,
    }
}

fn has_wrong_total(rules: &TableRules, outcome: &Outcome) -> bool
    ensures { result ≡ spec.has_wrong_total rules.now outcome.now }
{
    match outcome {
        Outcome::Stands { state } => state.all_points() != 4 * i64::from(rules.start),
        _ => false,
    }
}

fn has_wrong_round(rules: &TableRules, outcome: &Outcome) -> bool
    ensures { result ≡ spec.has_wrong_round rules.now outcome.now }
{
    match outcome {
        Outcome::Stands { state } => !has_round(rules, state.round),
        _ => false,
    }
}
