//! How far a game has come.
ghost use Rattle.std.specs.Prelude.{◌≡◌};
ghost use Rattle.riichi_game.specs.Faults as spec;
ghost use Rattle.riichi_game.specs.Games as games;

use crate::bets::table_fault;
use crate::consequences::Consequences;
use crate::line::line_fault;
use riichi_table::{ByPlayer, GameState, Outcome, OutcomeFault, TableRules};

/// How far a game has come.
#[derive(Clone, Copy, Debug, PartialEq, Eq)]
pub struct Progress {
    /// What the table shows.
    pub state: GameState,
    /// Whether the game is over.
    pub is_over: bool,
    /// The points off the final points of each player, those for chombo with them.
    pub penalties: ByPlayer<u32>,
}

impl Progress {
    /// That before the first deal.
    pub fn first(rules: &TableRules) -> Progress
        ensures { result ≡ games.first_progress rules.now }
    {
        Progress {
            state: GameState::first(rules),
            is_over: false,
            penalties: ByPlayer::all(0),
        }
    }

    /// How far the game has come after an outcome, or why the outcome is refused: the first of its faults in their order.
    #[tactic(auto, unfolding(crate::specs::Faults::fault_of))]
    pub fn after(&self, rules: &TableRules, outcome: &Outcome) -> Result<Progress, OutcomeFault>
        ensures { result ≡ spec.next_of self.now rules.now outcome.now }
    {
        if let Some(fault) = line_fault(rules, outcome) {
            return Err(fault);
        }
        if let Some(fault) = table_fault(&self.state, rules, outcome) {
            return Err(fault);
        }
        let follows = Consequences::of(self, rules, outcome);
        match follows.room_fault(self, rules, outcome) {
            Some(fault) => Err(fault),
            None => Ok(follows.progress(self, rules, outcome)),
        }
    }
}

/// How far the game has come after a list of outcomes, of which those that are refused change nothing.
pub fn after_all(progress: &Progress, rules: &TableRules, outcomes: &[Outcome]) -> Progress
    ensures { result ≡ games.after_all progress.now rules.now outcomes.now }
{
    let mut reached = *progress;
    for outcome in outcomes {
        reached = after_one(&reached, rules, outcome);
    }
    reached
}

fn after_one(progress: &Progress, rules: &TableRules, outcome: &Outcome) -> Progress
    ensures { result ≡ games.after_one progress.now rules.now outcome.now }
{
    match progress.after(rules, outcome) {
        Ok(after) => after,
        Err(_) => *progress,
    }
}
