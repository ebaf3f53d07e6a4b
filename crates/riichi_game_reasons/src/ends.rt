//! Why a game is over.
ghost use Rattle.std.specs.Prelude.{◌≡◌};
ghost use Rattle.riichi_game_reasons.specs.EndReasons as spec;

use riichi_game::{is_behind_last, is_bust, is_enough};
use riichi_table::{GameState, Outcome, TableRules};

/// Why a game is over.
#[derive(Clone, Copy, Debug, PartialEq, Eq)]
pub enum EndReason {
    /// `end` was said.
    Said,
    /// Somebody has less than 0.
    Bust,
    /// In the round more somebody has the points for which none is played.
    Enough,
    /// The last dealer stays, and is ahead of all.
    Stopped,
    /// The last round is played: that of the rules, or the one more.
    Played,
}

/// Why a game is over that an outcome ends, by the states before and after it. Of any other outcome it says nothing.
pub fn end_reason(
    rules: &TableRules,
    before: &GameState,
    after: &GameState,
    outcome: &Outcome,
) -> EndReason
    ensures { result ≡ spec.end_reason rules.now before.now after.now outcome.now }
{
    match outcome {
        Outcome::End => EndReason::Said,
        _ => deal_reason(rules, before, after),
    }
}

fn deal_reason(rules: &TableRules, before: &GameState, after: &GameState) -> EndReason
    ensures { result ≡ spec.deal_reason rules.now before.now after.now }
{
    let points = after.points.widened();
    if rules.bust && is_bust(&points) {
        EndReason::Bust
    } else if is_behind_last(rules, before.round) && is_enough(rules.extra, &points) {
        EndReason::Enough
    } else if after.dealer.is(before.dealer) {
        EndReason::Stopped
    } else {
        EndReason::Played
    }
}
