//! When a game is over.
ghost use Rattle.std.specs.Prelude.{◌≡◌, ◌≤◌};
ghost use Rattle.riichi_game.specs.Ends as spec;

use riichi_hand::Wind;
use riichi_table::{ByPlayer, GameState, LastRound, Outcome, Player, TableRules};

/// Whether an outcome, as it is played, is a win or a draw.
pub(crate) fn is_win_or_draw(played: &Outcome) -> bool
    ensures { result ≡ spec.is_win_or_draw played.now }
{
    match played {
        Outcome::Ron { .. } => true,
        Outcome::Tsumo { .. } => true,
        Outcome::Draw { .. } => true,
        _ => false,
    }
}

/// Whether a deal ends the game, by what comes of it.
#[tactic(auto, unfolding(crate::specs::Ends::is_over_with))]
pub(crate) fn is_over_with(
    rules: &TableRules,
    state: &GameState,
    win_or_draw: bool,
    stays: bool,
    points: &ByPlayer<i64>,
) -> bool
    ensures { result ≡ spec.is_over_with rules.now state.now win_or_draw stays points.now }
{
    (rules.bust && is_bust(points))
        || is_over_by_length(rules, state, stays, points)
        || is_over_by_stop(rules, state, win_or_draw, stays, points)
}

fn is_over_by_length(
    rules: &TableRules,
    state: &GameState,
    stays: bool,
    points: &ByPlayer<i64>,
) -> bool
    ensures { result ≡ spec.is_over_by_length rules.now state.now stays points.now }
{
    let behind = is_behind_last(rules, state.round);
    let enough = is_enough(rules.extra, points);
    !is_before_last(rules, state.round)
        && ((ends_round(state, stays) && (behind || enough)) || (behind && enough))
}

fn is_over_by_stop(
    rules: &TableRules,
    state: &GameState,
    win_or_draw: bool,
    stays: bool,
    points: &ByPlayer<i64>,
) -> bool
    ensures { result ≡ spec.is_over_by_stop rules.now state.now win_or_draw stays points.now }
{
    rules.stop
        && win_or_draw
        && state.dealer.is(Player::Fourth)
        && stays
        && !is_before_last(rules, state.round)
        && fourth_leads(points)
        && (is_behind_last(rules, state.round) || is_enough(rules.extra, points))
}

/// Whether the round ends, whose fourth dealer doesn't stay.
fn ends_round(state: &GameState, stays: bool) -> bool
    ensures { result ≡ spec.ends_round state.now stays }
{
    state.dealer.is(Player::Fourth) && !stays
}

fn round_number(round: Wind) -> u8
    ensures value { result ≡ spec.round_number round }
    ensures most { result ≤ 3 }
{
    match round {
        Wind::East => 0,
        Wind::South => 1,
        Wind::West => 2,
        Wind::North => 3,
    }
}

fn last_number(length: LastRound) -> u8
    ensures value { result ≡ spec.last_number length }
    ensures most { result ≤ 1 }
{
    match length {
        LastRound::East => 0,
        LastRound::South => 1,
    }
}

fn is_before_last(rules: &TableRules, round: Wind) -> bool
    ensures { result ≡ spec.is_before_last rules.now round }
{
    round_number(round) < last_number(rules.length)
}

/// Whether a round stands behind the last of the rules: then it is the one round more.
pub fn is_behind_last(rules: &TableRules, round: Wind) -> bool
    ensures { result ≡ spec.is_behind_last rules.now round }
{
    last_number(rules.length) < round_number(round)
}

/// Whether a round stands behind the last, and is not the next one.
fn is_beyond(rules: &TableRules, round: Wind) -> bool
    ensures { result ≡ spec.is_beyond rules.now round }
{
    last_number(rules.length) + 1 < round_number(round)
}

/// Whether the rules have a round: those up to the last, and one more only where there may be one.
pub fn has_round(rules: &TableRules, round: Wind) -> bool
    ensures { result ≡ spec.has_round rules.now round }
{
    !is_beyond(rules, round) && (!is_behind_last(rules, round) || rules.extra.is_some())
}

/// Whether somebody has less than 0.
#[tactic(auto, unfolding(crate::specs::Ends::is_bust))]
pub fn is_bust(points: &ByPlayer<i64>) -> bool
    ensures { result ≡ spec.is_bust points.now }
{
    points.first < 0 || points.second < 0 || points.third < 0 || points.fourth < 0
}

#[tactic(auto, unfolding(crate::specs::Ends::has_so_many))]
fn has_so_many(points: &ByPlayer<i64>, most: u32) -> bool
    ensures { result ≡ spec.has_so_many points.now most }
{
    let most = i64::from(most);
    most <= points.first || most <= points.second || most <= points.third || most <= points.fourth
}

/// Whether somebody has the points for which no round more is played.
pub fn is_enough(extra: Option<u32>, points: &ByPlayer<i64>) -> bool
    ensures { result ≡ spec.is_enough extra points.now }
{
    match extra {
        None => true,
        Some(most) => has_so_many(points, most),
    }
}

/// Whether the fourth player has more points than each other.
#[tactic(auto, unfolding(crate::specs::Ends::fourth_leads))]
fn fourth_leads(points: &ByPlayer<i64>) -> bool
    ensures { result ≡ spec.fourth_leads points.now }
{
    points.first < points.fourth && points.second < points.fourth && points.third < points.fourth
}
