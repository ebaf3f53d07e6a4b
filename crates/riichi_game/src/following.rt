//! What the table shows after an outcome.
ghost use Rattle.std.specs.Prelude.{◌≡◌};
ghost use Rattle.riichi_game.specs.Following as spec;

use riichi_hand::Wind;
use riichi_table::{GameState, Outcome, Player, Renchan};

/// Whether the dealer stays, of an outcome as it is played.
#[tactic(auto, unfolding(crate::specs::Following::stays))]
pub(crate) fn stays(renchan: Renchan, dealer: Player, played: &Outcome) -> bool
    ensures { result ≡ spec.stays renchan dealer played.now }
{
    match played {
        Outcome::Ron { wins, .. } => wins.get(dealer).is_some(),
        Outcome::Tsumo { winner, .. } => winner.is(dealer),
        Outcome::Draw { ready, .. } => stays_ready(renchan, ready.get(dealer)),
        _ => true,
    }
}

fn stays_ready(renchan: Renchan, ready: bool) -> bool
    ensures { result ≡ spec.stays_ready renchan ready }
{
    match renchan {
        Renchan::Ready => ready,
        Renchan::Win => false,
    }
}

fn one_more_if(dealer_wins: bool, counters: u8) -> u16
    ensures { result ≡ spec.one_more_if dealer_wins counters }
{
    if dealer_wins {
        u16::from(counters) + 1
    } else {
        0
    }
}

/// The counters after an outcome as it is played.
#[tactic(auto, unfolding(crate::specs::Following::counters_with))]
pub(crate) fn counters_with(counters: u8, dealer: Player, played: &Outcome) -> u16
    ensures { result ≡ spec.counters_with counters dealer played.now }
{
    match played {
        Outcome::Ron { wins, .. } => one_more_if(wins.get(dealer).is_some(), counters),
        Outcome::Tsumo { winner, .. } => one_more_if(winner.is(dealer), counters),
        Outcome::Draw { .. } => u16::from(counters) + 1,
        Outcome::Abort { .. } => u16::from(counters) + 1,
        Outcome::Stands { state } => u16::from(state.counters),
        _ => u16::from(counters),
    }
}

fn wind_after(wind: Wind) -> Wind
    ensures { result ≡ spec.wind_after wind }
{
    match wind {
        Wind::East => Wind::South,
        Wind::South => Wind::West,
        Wind::West => Wind::North,
        Wind::North => Wind::East,
    }
}

fn round_behind(round: Wind, dealer: Player) -> Wind
    ensures { result ≡ spec.round_behind round dealer }
{
    match dealer {
        Player::Fourth => wind_after(round),
        _ => round,
    }
}

/// The round after an outcome, where the dealer stays or doesn't.
#[tactic(auto, unfolding(crate::specs::Following::round_by))]
pub(crate) fn round_by(state: &GameState, stays: bool, outcome: &Outcome) -> Wind
    ensures { result ≡ spec.round_by state.now stays outcome.now }
{
    match outcome {
        Outcome::Stands { state: written } => written.round,
        _ => {
            if stays {
                state.round
            } else {
                round_behind(state.round, state.dealer)
            }
        }
    }
}

/// The dealer after an outcome, where the one before stays or doesn't.
#[tactic(auto, unfolding(crate::specs::Following::dealer_by))]
pub(crate) fn dealer_by(state: &GameState, stays: bool, outcome: &Outcome) -> Player
    ensures { result ≡ spec.dealer_by state.now stays outcome.now }
{
    match outcome {
        Outcome::Stands { state: written } => written.dealer,
        _ => {
            if stays {
                state.dealer
            } else {
                state.dealer.next()
            }
        }
    }
}
