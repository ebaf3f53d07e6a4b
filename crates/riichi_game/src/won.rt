//! What an outcome says that players win.
ghost use Rattle.std.specs.Prelude.{◌≡◌};
ghost use Rattle.riichi_game.specs.Outcomes as spec;

use riichi_table::{ByPlayer, Outcome, Win};

/// What each player wins, all who said ron among them.
pub(crate) fn wins_in(outcome: &Outcome) -> ByPlayer<Option<Win>>
    ensures { result ≡ spec.wins_in outcome.now }
{
    match outcome {
        Outcome::Ron { wins, .. } => *wins,
        Outcome::Tsumo { winner, win, .. } => ByPlayer::all(None).with(*winner, Some(*win)),
        _ => ByPlayer::all(None),
    }
}

/// Who has bet in the deal.
pub(crate) fn riichi_in(outcome: &Outcome) -> ByPlayer<bool>
    ensures { result ≡ spec.riichi_in outcome.now }
{
    match outcome {
        Outcome::Ron { riichi, .. } => *riichi,
        Outcome::Tsumo { riichi, .. } => *riichi,
        Outcome::Draw { riichi, .. } => *riichi,
        Outcome::Abort { riichi } => *riichi,
        _ => ByPlayer::all(false),
    }
}
