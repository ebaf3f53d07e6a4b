//! Why an outcome is refused whatever the table shows, but for its rules.
ghost use Rattle.std.specs.Prelude.{◌≡◌, ◌&&◌};
ghost use Rattle.riichi_settle.specs.Winners.{wins_of};
ghost use Rattle.riichi_game.specs.Line as spec;

use crate::values::is_limits;
use crate::won::wins_in;
use riichi_hand::Rules;
use riichi_settle::winners;
use riichi_table::{ByPlayer, Liable, Outcome, OutcomeFault, Player, TableRules, Win, Worth};

/// The first fault of an outcome in itself and under the rules.
#[tactic(auto, unfolding(crate::specs::Line::line_fault))]
pub(crate) fn line_fault(rules: &TableRules, outcome: &Outcome) -> Option<OutcomeFault>
    ensures { result ≡ spec.line_fault rules.now outcome.now }
{
    let wins = wins_in(outcome);
    if nobody_wins(outcome) {
        return Some(OutcomeFault::NobodyWins);
    }
    if discarder_wins(outcome) {
        return Some(OutcomeFault::DiscarderWins);
    }
    if winner_liable(&wins) {
        return Some(OutcomeFault::WinnerLiable);
    }
    if no_such_worth(rules.hand, &wins) {
        return Some(OutcomeFault::NoSuchWorth);
    }
    if wrong_limits(&wins) {
        return Some(OutcomeFault::LiableLimits);
    }
    if !rules.liable && somebody_liable(&wins) {
        return Some(OutcomeFault::LiableOff);
    }
    if !rules.nagashi && has_nagashi(outcome) {
        return Some(OutcomeFault::NagashiOff);
    }
    None
}

fn nobody_wins(outcome: &Outcome) -> bool
    ensures { result ≡ spec.nobody_wins outcome.now }
{
    match outcome {
        Outcome::Ron { wins, .. } => !winners(wins).any(),
        _ => false,
    }
}

fn discarder_wins(outcome: &Outcome) -> bool
    ensures { result ≡ spec.discarder_wins outcome.now }
{
    match outcome {
        Outcome::Ron { from, wins, .. } => wins.get(*from).is_some(),
        _ => false,
    }
}

fn is_liable(liable: Option<Liable>, player: Player) -> bool
    ensures { result ≡ spec.is_liable liable player }
{
    match liable {
        None => false,
        Some(liable) => liable.player.is(player),
    }
}

fn is_liable_for(win: Option<Win>, player: Player) -> bool
    ensures { result ≡ spec.is_liable_for win player }
{
    match win {
        None => false,
        Some(win) => is_liable(win.liable, player),
    }
}

#[tactic(auto, unfolding(crate::specs::Line::is_liable_in))]
fn is_liable_in(wins: &ByPlayer<Option<Win>>, player: Player) -> bool
    ensures { result ≡ spec.is_liable_in wins.now player }
{
    is_liable_for(wins.first, player)
        || is_liable_for(wins.second, player)
        || is_liable_for(wins.third, player)
        || is_liable_for(wins.fourth, player)
}

#[tactic(auto, unfolding(crate::specs::Line::somebody_liable))]
fn somebody_liable(wins: &ByPlayer<Option<Win>>) -> bool
    ensures { result ≡ spec.somebody_liable wins.now }
{
    is_liable_in(wins, Player::First)
        || is_liable_in(wins, Player::Second)
        || is_liable_in(wins, Player::Third)
        || is_liable_in(wins, Player::Fourth)
}

/// Whether a player wins and is liable for the hand of some winner.
fn is_liable_winner(wins: &ByPlayer<Option<Win>>, player: Player) -> bool
    ensures { result ≡ (wins_of wins.now player && spec.is_liable_in wins.now player) }
{
    wins.get(player).is_some() && is_liable_in(wins, player)
}

#[tactic(auto, unfolding(crate::specs::Line::winner_liable))]
fn winner_liable(wins: &ByPlayer<Option<Win>>) -> bool
    ensures { result ≡ spec.winner_liable wins.now }
{
    is_liable_winner(wins, Player::First)
        || is_liable_winner(wins, Player::Second)
        || is_liable_winner(wins, Player::Third)
        || is_liable_winner(wins, Player::Fourth)
}

fn is_worth(rules: Rules, worth: Worth) -> bool
    ensures { result ≡ spec.is_worth rules worth }
{
    match worth {
        Worth::Counted { base } => base <= 8000,
        Worth::Yakuman { limits } => is_limits(rules, limits),
    }
}

fn has_no_worth(rules: Rules, win: Option<Win>) -> bool
    ensures { result ≡ spec.has_no_worth rules win }
{
    match win {
        None => false,
        Some(win) => !is_worth(rules, win.worth),
    }
}

#[tactic(auto, unfolding(crate::specs::Line::no_such_worth))]
fn no_such_worth(rules: Rules, wins: &ByPlayer<Option<Win>>) -> bool
    ensures { result ≡ spec.no_such_worth rules wins.now }
{
    has_no_worth(rules, wins.first)
        || has_no_worth(rules, wins.second)
        || has_no_worth(rules, wins.third)
        || has_no_worth(rules, wins.fourth)
}

fn has_wrong_limits(worth: Worth, liable: Option<Liable>) -> bool
    ensures { result ≡ spec.has_wrong_limits worth liable }
{
    match liable {
        None => false,
        Some(liable) => liable.limits < 1 || worth.limits() < liable.limits,
    }
}

fn is_wrongly_liable(win: Option<Win>) -> bool
    ensures { result ≡ spec.is_wrongly_liable win }
{
    match win {
        None => false,
        Some(win) => has_wrong_limits(win.worth, win.liable),
    }
}

#[tactic(auto, unfolding(crate::specs::Line::wrong_limits))]
fn wrong_limits(wins: &ByPlayer<Option<Win>>) -> bool
    ensures { result ≡ spec.wrong_limits wins.now }
{
    is_wrongly_liable(wins.first)
        || is_wrongly_liable(wins.second)
        || is_wrongly_liable(wins.third)
        || is_wrongly_liable(wins.fourth)
}

fn has_nagashi(outcome: &Outcome) -> bool
    ensures { result ≡ spec.has_nagashi outcome.now }
{
    match outcome {
        Outcome::Draw { nagashi, .. } => nagashi.any(),
        _ => false,
    }
}
