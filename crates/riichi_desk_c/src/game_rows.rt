//! What the rows of a game say.
ghost use Rattle.std.specs.Prelude.{◌≡◌};
ghost use Rattle.riichi_desk_c.specs.GameTables as tables;
ghost use Rattle.riichi_desk_c.specs.Games as spec;

use crate::rules_numbered;
use riichi_game::Progress;
use riichi_game_rows::{ProgressRow, TableRow};
use riichi_table::TableRules;

/// Told where a row has no rules that a table may choose.
pub(crate) const NO_TABLE: u32 = 200;

/// Told where a row says nothing of how far a game has come.
pub(crate) const NO_PROGRESS: u32 = 201;

/// A game as far as it has come.
#[derive(Clone, Copy)]
pub(crate) struct Game {
    pub(crate) rules: TableRules,
    pub(crate) progress: Progress,
}

/// The rules that a row says, refused or not.
pub(crate) fn rules_in(row: &TableRow) -> Option<TableRules>
    ensures { result ≡ tables.rules_in row.now }
{
    match rules_numbered(row.rules) {
        None => None,
        Some(hand) => row.table(hand),
    }
}

/// The rules that a row says, if a table may choose them.
pub(crate) fn allowed_rules_in(row: &TableRow) -> Option<TableRules>
    ensures { result ≡ tables.allowed_rules_in row.now }
{
    match rules_in(row) {
        None => None,
        Some(rules) => {
            if rules.fault().is_none() {
                Some(rules)
            } else {
                None
            }
        }
    }
}

/// The game that two rows say, or the number of their fault.
pub(crate) fn game_in_rows(table: &TableRow, progress: &ProgressRow) -> Result<Game, u32>
    ensures { result ≡ spec.game_in_rows table.now progress.now }
{
    let Some(rules) = allowed_rules_in(table) else {
        return Err(NO_TABLE);
    };
    match progress.progress() {
        None => Err(NO_PROGRESS),
        Some(progress) => Ok(Game { rules, progress }),
    }
}
