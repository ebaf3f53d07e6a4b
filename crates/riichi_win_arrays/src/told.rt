//! What many wins are worth.
ghost use Rattle.std.specs.Prelude.{◌≡◌, length, min};
ghost use Rattle.riichi_win_arrays.specs.Wins as spec;

use crate::score_row::ScoreRow;
use crate::win_row::WinRow;
use riichi_hand::{LineCode, LineFault, Rules, WinRecord};
use riichi_score::{WinAnswer, best};

/// What the win of a row is worth, or the first fault of the row.
fn answer_to(rules: Rules, row: &WinRow) -> Result<WinAnswer, LineFault>
    ensures { result ≡ spec.answer_to rules row.now }
{
    match row.parts(rules) {
        None => Err(LineFault::Line(LineCode::H4)),
        Some(parts) => Ok(best(&WinRecord::new(parts)?)),
    }
}

/// What each win is worth: of as many as both `rows` and `scores` have, which it returns.
#[tactic(auto, using(crate::proofs::TellingLemmas::told_next))]
pub fn wins(rules: Rules, rows: &[WinRow], scores: &mut [ScoreRow]) -> usize
    ensures rows { result ≡ min (length rows.now) (length scores.old) }
    ensures scores { spec.AreScored rules result rows.now scores.old scores.new }
{
    let answered = rows.len().min(scores.len());
    for place in 0..answered {
        scores[place] = ScoreRow::of(&answer_to(rules, &rows[place]));
    }
    answered
}
