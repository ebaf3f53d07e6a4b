//! How far a game has come, as a row.
ghost use Rattle.std.specs.Prelude.{◌≡◌};
ghost use Rattle.riichi_game_rows.specs.StateRows as spec;

use crate::four::{penalties_in, player_in, points_in};
use riichi_game::Progress;
use riichi_table::GameState;
use riichi_win_arrays::wind_in;

/// What the table shows between two deals: 20 bytes.
#[repr(C)]
#[derive(Clone, Copy, Debug, PartialEq, Eq)]
pub struct StateRow {
    /// The points of each player, which may be negative.
    pub points: [i32; 4],
    /// The prevalent wind: 0 East, 1 South, 2 West, 3 North.
    pub round: u8,
    /// Who deals, from 0 on.
    pub dealer: u8,
    /// How many counters (honba) lie on the table.
    pub counters: u8,
    /// How many riichi sticks lie on the table, of 1000 points each.
    pub sticks: u8,
}

/// How far a game has come: 40 bytes.
#[repr(C)]
#[derive(Clone, Copy, Debug, PartialEq, Eq)]
pub struct ProgressRow {
    /// What the table shows.
    pub state: StateRow,
    /// The points off the final points of each player, those for chombo with them.
    pub penalties: [u32; 4],
    /// 1 where the game is over, else 0.
    pub over: u32,
}

impl StateRow {
    /// The state, none where round or dealer say nothing.
    pub fn state(&self) -> Option<GameState>
        ensures { result ≡ spec.state_in self.now }
    {
        Some(GameState {
            points: points_in(&self.points),
            round: wind_in(self.round)?,
            dealer: player_in(u32::from(self.dealer))?,
            counters: self.counters,
            sticks: self.sticks,
        })
    }

    /// The row of a state.
    pub fn of(state: &GameState) -> StateRow
        ensures { result ≡ spec.state_row state.now }
    {
        let points = &state.points;
        StateRow {
            points: [points.first, points.second, points.third, points.fourth],
            round: state.round as u8,
            dealer: state.dealer as u8,
            counters: state.counters,
            sticks: state.sticks,
        }
    }
}

impl ProgressRow {
    /// How far the game has come, none where the state says nothing.
    pub fn progress(&self) -> Option<Progress>
        ensures { result ≡ spec.progress_in self.now }
    {
        Some(Progress {
            state: self.state.state()?,
            is_over: self.over != 0,
            penalties: penalties_in(&self.penalties),
        })
    }

    /// The row of a progress.
    pub fn of(progress: &Progress) -> ProgressRow
        ensures { result ≡ spec.progress_row progress.now }
    {
        let penalties = &progress.penalties;
        ProgressRow {
            state: StateRow::of(&progress.state),
            penalties: [
                penalties.first,
                penalties.second,
                penalties.third,
                penalties.fourth,
            ],
            over: if progress.is_over { 1 } else { 0 },
        }
    }
}
