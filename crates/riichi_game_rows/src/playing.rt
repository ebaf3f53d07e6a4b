//! How far a game goes by rows of outcomes.
ghost use Rattle.std.specs.Prelude.{◌≡◌};
ghost use Rattle.riichi_game_rows.specs.Playing as spec;

use crate::fault_numbers::RowFault;
use crate::outcome_row::OutcomeRow;
use riichi_game::Progress;
use riichi_table::{Outcome, TableRules};

/// How far a game went.
#[derive(Clone, Copy, Debug, PartialEq, Eq)]
pub struct Played {
    /// How far it has come.
    pub progress: Progress,
    /// How many rows were accepted, from the first on.
    pub accepted: usize,
    /// Why the next one is refused; nothing where there is none.
    pub fault: Option<RowFault>,
}

/// Goes on by rows of outcomes, up to the first that is refused.
pub fn play(progress: &Progress, rules: &TableRules, rows: &[OutcomeRow]) -> Played
    ensures { spec.IsPlayedByRows progress.now rules.now rows.now result }
{
    let mut reached = *progress;
    for accepted in 0..rows.len() {
        match after_row(&reached, rules, &rows[accepted]) {
            Ok(next) => reached = next,
            Err(fault) => {
                return Played {
                    progress: reached,
                    accepted,
                    fault: Some(fault),
                };
            }
        }
    }
    Played {
        progress: reached,
        accepted: rows.len(),
        fault: None,
    }
}

/// How far the game has come after the outcome of a row, or why the row is refused.
fn after_row(
    progress: &Progress,
    rules: &TableRules,
    row: &OutcomeRow,
) -> Result<Progress, RowFault>
    ensures { result ≡ spec.after_row progress.now rules.now row.now }
{
    match row.outcome() {
        None => Err(RowFault::SaysNothing),
        Some(outcome) => match progress.after(rules, &outcome) {
            Ok(after) => Ok(after),
            Err(fault) => Err(RowFault::Refused(fault)),
        },
    }
}

/// The outcome of a row that is accepted, or why the row is refused.
pub fn accepted_outcome(
    progress: &Progress,
    rules: &TableRules,
    row: &OutcomeRow,
) -> Result<Outcome, RowFault>
    ensures { result ≡ spec.accepted_outcome progress.now rules.now row.now }
{
    let Some(outcome) = row.outcome() else {
        return Err(RowFault::SaysNothing);
    };
    match progress.after(rules, &outcome) {
        Ok(_) => Ok(outcome),
        Err(fault) => Err(RowFault::Refused(fault)),
    }
}
