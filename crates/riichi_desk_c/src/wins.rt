//! Many wins as rows, without text.
ghost use Rattle.std.specs.Prelude.{◌≡◌, length, min};
ghost use Rattle.riichi_desk_c.specs.Replies.{rules_numbered};
ghost use Rattle.riichi_desk_c.specs.WinRows.{AreScoredUnder, rows_under};

use crate::rules_numbered;
use riichi_win_arrays::{ScoreRow, WinRow};

/// What each win is worth under the profile of this number: of as many as both `wins` and `scores` have, which it returns. A row that
/// is no win's record has the number of its fault in `told`. Under another number no row is answered.
#[unsafe(no_mangle)]
pub extern "C" fn riichi_wins(rules: u32, wins: &[WinRow], scores: &mut [ScoreRow]) -> usize
    ensures rows { result
        ≡ rows_under (rules_numbered rules) (min (length wins.now) (length scores.old)) }
    ensures scores { AreScoredUnder (rules_numbered rules) result wins.now scores.old scores.new }
{
    match rules_numbered(rules) {
        Some(rules) => riichi_win_arrays::wins(rules, wins, scores),
        None => 0,
    }
}
