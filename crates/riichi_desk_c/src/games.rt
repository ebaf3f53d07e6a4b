//! A game of four players: its rules, how far it comes by outcomes, what these move, and the final points.
ghost use Rattle.std.specs.Prelude.{◌≡◌};
ghost use Rattle.riichi_desk_c.specs.GameTables.{IsTableOf, fault_number_by, rules_in as rules_of_row, table_named as named, allowed_rules_in as table_of_row};
ghost use Rattle.riichi_desk_c.specs.Games as spec;
ghost use Rattle.riichi_desk_c.specs.Games.{game_in_rows as game_of_rows};

use crate::game_rows::{NO_TABLE, allowed_rules_in, game_in_rows, rules_in};
use riichi_game::Progress;
use riichi_game_rows::{
    ChangesRow, FinalsRow, MoveRow, OutcomeRow, ProgressRow, TableRow, accepted_outcome,
    fill_moves, play, row_fault_number, rules_fault_number,
};
use riichi_places::final_points;
use riichi_settle::moves_of;
use riichi_table::TableRules;

/// Puts the rules of a name, 1 of a club, 2 of a league, 3 of play online, into the row: 0, or 200 where there is no such name.
#[unsafe(no_mangle)]
pub extern "C" fn riichi_game_table(name: u32, table: &mut TableRow) -> u32
    ensures { IsTableOf (named name) result table.old table.new }
{
    match table_named(name) {
        None => NO_TABLE,
        Some(rules) => {
            *table = TableRow::of(1, &rules);
            0
        }
    }
}

fn table_named(name: u32) -> Option<TableRules>
    ensures { result ≡ named name }
{
    match name {
        1 => Some(TableRules::club()),
        2 => Some(TableRules::league()),
        3 => Some(TableRules::online()),
        _ => None,
    }
}

/// Why no table may choose these rules: the number of the fault, 200 where the row says nothing, 0 where a table may.
#[unsafe(no_mangle)]
pub extern "C" fn riichi_game_table_fault(table: &TableRow) -> u32
    ensures { result ≡ fault_number_by (rules_of_row table.now) }
{
    match rules_in(table) {
        None => NO_TABLE,
        Some(rules) => rules_fault_number(rules.fault()),
    }
}

/// Puts how far a game is before its first deal into the row: 0, or 200 where the rules say nothing or are refused.
#[unsafe(no_mangle)]
pub extern "C" fn riichi_game_first(table: &TableRow, progress: &mut ProgressRow) -> u32
    ensures { spec.IsFirst (table_of_row table.now) result progress.old progress.new }
{
    match allowed_rules_in(table) {
        None => NO_TABLE,
        Some(rules) => {
            *progress = ProgressRow::of(&Progress::first(&rules));
            0
        }
    }
}

/// Goes on by outcomes, up to the first that is refused: how many are accepted. `fault` is set to the number of the fault of the
/// next, and to 0 where all are accepted.
#[unsafe(no_mangle)]
pub extern "C" fn riichi_game_after(
    table: &TableRow,
    progress: &mut ProgressRow,
    outcomes: &[OutcomeRow],
    fault: &mut u32,
) -> usize
    ensures { spec.GoesOnBy (game_of_rows table.now progress.old)
        outcomes.now fault.new result progress.old progress.new }
{
    match game_in_rows(table, progress) {
        Err(number) => {
            *fault = number;
            0
        }
        Ok(game) => {
            let played = play(&game.progress, &game.rules, outcomes);
            *progress = ProgressRow::of(&played.progress);
            *fault = row_fault_number(played.fault);
            played.accepted
        }
    }
}

/// Says what an outcome moves, as many moves as have a place, and what all of them change: 0, or the number of the fault for
/// which nothing is told.
#[unsafe(no_mangle)]
pub extern "C" fn riichi_game_moves(
    table: &TableRow,
    progress: &ProgressRow,
    outcome: &OutcomeRow,
    moves: &mut [MoveRow],
    changes: &mut ChangesRow,
) -> u32
    ensures { spec.TellsMoves (game_of_rows table.now progress.now) outcome.now result
        moves.old moves.new changes.old changes.new }
{
    match game_in_rows(table, progress) {
        Err(number) => number,
        Ok(game) => match accepted_outcome(&game.progress, &game.rules, outcome) {
            Err(fault) => row_fault_number(Some(fault)),
            Ok(outcome) => {
                let list = moves_of(&game.progress.state, &game.rules, &outcome);
                fill_moves(list.as_slice(), moves);
                *changes = ChangesRow::of(game.progress.state.sticks, &list);
                0
            }
        },
    }
}

/// Says what each player has where the game ends there: 0, or the number of the fault for which nothing is told.
#[unsafe(no_mangle)]
pub extern "C" fn riichi_game_finals(
    table: &TableRow,
    progress: &ProgressRow,
    finals: &mut FinalsRow,
) -> u32
    ensures { spec.TellsFinals (game_of_rows table.now progress.now) result finals.old finals.new }
{
    match game_in_rows(table, progress) {
        Err(number) => number,
        Ok(game) => {
            let state = &game.progress.state;
            *finals = FinalsRow::of(&final_points(&game.rules, state, &game.progress.penalties));
            0
        }
    }
}
