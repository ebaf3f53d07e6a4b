//! What a hand is worth in a game.
ghost use Rattle.std.specs.Prelude.{◌≡◌};
ghost use Rattle.riichi_game_rows.specs.HandRows as spec;

use riichi_game::{NoWorth, win_record, worth_of_win};
use riichi_hand::{By, LineCode, LineFault};
use riichi_table::{GameState, Player, TableRules, Worth};
use riichi_win_arrays::{WinRow, fault_number};

/// Why the hand of a row is worth nothing.
#[derive(Clone, Copy, Debug, PartialEq, Eq)]
pub enum HandFault {
    /// It is the record of no hand.
    Refused(LineFault),
    /// It is no win, or has no yaku.
    Worthless(NoWorth),
}

/// What the hand of a row is worth that a player wins by ron or by self-draw. Whatever the row says of how it was won, of seat,
/// round, counters and sticks, those of the table hold.
pub fn worth_of_row(
    state: &GameState,
    rules: &TableRules,
    winner: Player,
    by: By,
    row: &WinRow,
) -> Result<Worth, HandFault>
    ensures { result ≡ spec.worth_of_row state.now rules.now winner by row.now }
{
    let Some(parts) = row.parts(rules.hand) else {
        return Err(HandFault::Refused(LineFault::Line(LineCode::H4)));
    };
    match win_record(state, rules, winner, by, parts) {
        Ok(win) => worth_of_win(&win).map_err(HandFault::Worthless),
        Err(fault) => Err(HandFault::Refused(fault)),
    }
}

/// The number by which it is told, as of a row of wins: 100 of a worth, 101 of no yaku, 102 of no win, n of the fault Hn.
pub fn told_number(worth: &Result<Worth, HandFault>) -> u32
    ensures { result ≡ spec.told_number worth.now }
{
    match worth {
        Ok(_) => 100,
        Err(HandFault::Worthless(NoWorth::NoYaku)) => 101,
        Err(HandFault::Worthless(NoWorth::NoWin)) => 102,
        Err(HandFault::Refused(fault)) => u32::from(fault_number(fault)),
    }
}
