//! What a hand is worth that is won in a game.
ghost use Rattle.std.specs.Prelude.{◌≡◌};
ghost use Rattle.riichi_game.specs.Hands as spec;

use riichi_hand::{By, LineFault, Rules, WinParts, WinRecord};
use riichi_score::{Score, WinAnswer, best};
use riichi_table::{GameState, Player, TableRules, Worth};

/// Why a hand is worth nothing.
#[derive(Clone, Copy, Debug, PartialEq, Eq)]
pub enum NoWorth {
    /// The hand has no yaku.
    NoYaku,
    /// The hand is no win.
    NoWin,
}

/// The record of a hand that a player wins by ron or by self-draw, or its first fault. Whatever the parts say of the rules, of
/// how it was won, of seat, round, counters and sticks, those of the table hold.
pub fn win_record(
    state: &GameState,
    rules: &TableRules,
    winner: Player,
    by: By,
    parts: WinParts,
) -> Result<WinRecord, LineFault>
    ensures { result ≡ spec.record_of state.now rules.now winner by parts }
{
    WinRecord::new(WinParts {
        rules: rules.hand,
        by,
        seat: winner.seat(state.dealer),
        round: state.round,
        counters: state.counters,
        sticks: state.sticks,
        ..parts
    })
}

/// What a hand is worth.
pub fn worth_of_win(win: &WinRecord) -> Result<Worth, NoWorth>
    ensures { result ≡ spec.worth_of_win win.now }
{
    match best(win) {
        WinAnswer::Won(score) => Ok(worth_of_score(&score)),
        WinAnswer::NoYaku => Err(NoWorth::NoYaku),
        WinAnswer::NoWin => Err(NoWorth::NoWin),
    }
}

/// Of a score: the limits of a yakuman, else the base points. Both are far below the bounds of their types.
pub fn worth_of_score(score: &Score) -> Worth
    ensures { result ≡ spec.worth_of_score score.now }
{
    if score.yaku.is_yakuman() {
        Worth::Yakuman {
            limits: (score.base / 8000).min(255) as u8,
        }
    } else {
        Worth::Counted {
            base: score.base.min(65535) as u16,
        }
    }
}
