//! What follows from an outcome.
ghost use Rattle.std.specs.Prelude.{◌≡◌, ◌≤◌, None, true};
ghost use Rattle.riichi_settle.specs.Winners.{as_played};
ghost use Rattle.riichi_game.specs.Consequences as spec;
ghost use Rattle.riichi_game.specs.Ends.{over_after};
ghost use Rattle.riichi_game.specs.Faults as faults;
ghost use Rattle.riichi_game.specs.Following as following;
ghost use Rattle.riichi_game.specs.Outcomes as outcomes;

use crate::ends::{is_over_with, is_win_or_draw};
use crate::following::{counters_with, dealer_by, round_by, stays};
use crate::game::Progress;
use crate::numbers::{added, are_few, are_kept, few, narrowed, widened};
use riichi_settle::{Moved, as_played, moved_as_played};
use riichi_table::{ByPlayer, GameState, Outcome, OutcomeFault, TableRules};

/// What follows from an outcome, whether or not a state has room for it.
#[derive(Clone, Copy)]
pub(crate) struct Consequences {
    points: ByPlayer<i64>,
    sticks: u16,
    counters: u16,
    penalties: ByPlayer<u64>,
    /// The dealer stays.
    stays: bool,
    /// It is a win or a draw, as it is played.
    is_win_or_draw: bool,
}

impl Consequences {
    /// What follows from an outcome of a game that has come so far.
    pub(crate) fn of(progress: &Progress, rules: &TableRules, outcome: &Outcome) -> Consequences
        ensures { result ≡ spec.consequences_of progress.now rules.now outcome.now }
    {
        let state = &progress.state;
        let played = as_played(rules, outcome);
        let Moved { points, sticks } = moved(state, rules, outcome, &played);
        Consequences {
            points,
            sticks,
            counters: counters_with(state.counters, state.dealer, &played),
            penalties: penalties_after(&progress.penalties, rules, outcome),
            stays: stays(rules.renchan, state.dealer, &played),
            is_win_or_draw: is_win_or_draw(&played),
        }
    }

    /// Whether there is no room for it, or the game is over.
    #[tactic(auto, unfolding(crate::specs::Faults::room_fault))]
    pub(crate) fn room_fault(
        &self,
        progress: &Progress,
        rules: &TableRules,
        outcome: &Outcome,
    ) -> Option<OutcomeFault>
        requires { self.now ≡ spec.consequences_of progress.now rules.now outcome.now }
        ensures value { result ≡ faults.room_fault progress.now rules.now outcome.now }
        ensures room { result ≡ None → spec.FitsState self.now }
    {
        if self.counters > 99 {
            return Some(OutcomeFault::OverCounters);
        }
        if self.sticks > 99 {
            return Some(OutcomeFault::OverSticks);
        }
        if !are_kept(&self.points) || !are_few(&self.penalties) {
            return Some(OutcomeFault::OverPoints);
        }
        if progress.is_over && !is_penalty(outcome) {
            return Some(OutcomeFault::GameOver);
        }
        None
    }

    /// How far the game has come after it.
    #[tactic(auto, unfolding(crate::specs::Faults::progress_after))]
    pub(crate) fn progress(
        &self,
        before: &Progress,
        rules: &TableRules,
        outcome: &Outcome,
    ) -> Progress
        requires follows { self.now ≡ spec.consequences_of before.now rules.now outcome.now }
        requires room { spec.FitsState self.now }
        ensures { result ≡ faults.progress_after before.now rules.now outcome.now }
    {
        let state = &before.state;
        Progress {
            state: GameState {
                points: narrowed(&self.points),
                round: round_by(state, self.stays, outcome),
                dealer: dealer_by(state, self.stays, outcome),
                counters: self.counters as u8,
                sticks: self.sticks as u8,
            },
            is_over: self.is_over(before, rules, outcome),
            penalties: few(&self.penalties),
        }
    }

    /// Whether the game is over after it.
    #[tactic(auto, unfolding(crate::specs::Ends::over_after))]
    fn is_over(&self, before: &Progress, rules: &TableRules, outcome: &Outcome) -> bool
        requires { self.now ≡ spec.consequences_of before.now rules.now outcome.now }
        ensures { result ≡ over_after before.now.is_over before.now.state rules.now outcome.now }
    {
        match outcome {
            Outcome::End => true,
            Outcome::Penalty { .. } => before.is_over,
            Outcome::Stands { .. } => before.is_over,
            _ => is_over_with(
                rules,
                &before.state,
                self.is_win_or_draw,
                self.stays,
                &self.points,
            ),
        }
    }
}

/// The points and the sticks after an outcome that is played so.
#[tactic(auto, unfolding(crate::specs::Following::points_after, crate::specs::Following::sticks_after, riichi_settle::specs::Settled::moves_of))]
fn moved(state: &GameState, rules: &TableRules, outcome: &Outcome, played: &Outcome) -> Moved
    requires { played.now ≡ as_played rules.now outcome.now }
    ensures points { result.points ≡ following.points_after state.now rules.now outcome.now }
    ensures sticks { result.sticks ≡ following.sticks_after state.now rules.now outcome.now }
{
    match outcome {
        Outcome::Stands { state: written } => Moved {
            points: written.points.widened(),
            sticks: u16::from(written.sticks),
        },
        _ => moved_as_played(state, rules, played),
    }
}

fn is_penalty(outcome: &Outcome) -> bool
    ensures { result ≡ outcomes.is_penalty outcome.now }
{
    matches!(outcome, Outcome::Penalty { .. })
}

/// The penalties of each player after an outcome.
#[tactic(auto, unfolding(crate::specs::Faults::penalties_after))]
fn penalties_after(
    penalties: &ByPlayer<u32>,
    rules: &TableRules,
    outcome: &Outcome,
) -> ByPlayer<u64>
    ensures { result ≡ faults.penalties_after penalties.now rules.now outcome.now }
{
    match outcome {
        Outcome::Penalty { player, points } => added(penalties, *player, *points),
        Outcome::Chombo { player } => added(penalties, *player, rules.chombo.penalty()),
        _ => widened(penalties),
    }
}
