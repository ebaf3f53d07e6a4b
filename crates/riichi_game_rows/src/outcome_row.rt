//! How a deal ended, or another entry of the ledger, as a row.
ghost use Rattle.std.specs.Prelude.{◌≡◌};
ghost use Rattle.riichi_game_rows.specs.OutcomeRows as spec;

use crate::four::{flags_by_player, player_in};
use crate::state_row::StateRow;
use crate::worth_row::WorthRow;
use riichi_table::{ByPlayer, GameState, Outcome, Player, Win};

/// How a deal ended, or another entry of the ledger: 64 bytes. What an outcome of its kind doesn't have is 0.
#[repr(C)]
#[derive(Clone, Copy, Debug, PartialEq, Eq)]
pub struct OutcomeRow {
    /// 0 ron, 1 self-draw, 2 draw, 3 abort, 4 chombo, 5 penalty, 6 a state as it is written, 7 the end.
    pub kind: u16,
    /// The discarder of a ron, the winner of a self-draw, whose hand is dead, or who has the penalty.
    pub player: u16,
    /// Who has bet in the deal: each of these flags is set where it isn't 0.
    pub riichi: [u8; 4],
    /// Who is ready at a draw.
    pub ready: [u8; 4],
    /// Who has a nagashi mangan.
    pub nagashi: [u8; 4],
    /// What each player wins: of a ron all who said it, of a self-draw the winner.
    pub wins: [WorthRow; 4],
    /// The points of a penalty.
    pub points: u32,
    /// The state that is written.
    pub state: StateRow,
}

impl OutcomeRow {
    /// The outcome, none where a number says nothing.
    pub fn outcome(&self) -> Option<Outcome>
        ensures { result ≡ spec.outcome_in self.now }
    {
        let player = player_in(u32::from(self.player))?;
        let wins = wins_in_rows(&self.wins)?;
        let state = self.state.state()?;
        self.outcome_with(player, &wins, &state)
    }

    fn outcome_with(
        &self,
        player: Player,
        wins: &ByPlayer<Option<Win>>,
        state: &GameState,
    ) -> Option<Outcome>
        ensures { result ≡ spec.outcome_with self.now player wins.now state.now }
    {
        let riichi = flags_by_player(&self.riichi);
        match self.kind {
            0 => Some(Outcome::Ron {
                from: player,
                wins: *wins,
                riichi,
            }),
            1 => Some(Outcome::Tsumo {
                winner: player,
                win: wins.get(player)?,
                riichi,
            }),
            2 => Some(Outcome::Draw {
                ready: flags_by_player(&self.ready),
                nagashi: flags_by_player(&self.nagashi),
                riichi,
            }),
            3 => Some(Outcome::Abort { riichi }),
            4 => Some(Outcome::Chombo { player }),
            5 => Some(Outcome::Penalty {
                player,
                points: self.points,
            }),
            6 => Some(Outcome::Stands { state: *state }),
            7 => Some(Outcome::End),
            _ => None,
        }
    }
}

/// What each player wins, none where one of the rows says nothing.
fn wins_in_rows(wins: &[WorthRow; 4]) -> Option<ByPlayer<Option<Win>>>
    ensures { result ≡ spec.wins_in_rows wins.now }
{
    if are_worths(wins) {
        Some(ByPlayer {
            first: wins[0].win(),
            second: wins[1].win(),
            third: wins[2].win(),
            fourth: wins[3].win(),
        })
    } else {
        None
    }
}

fn are_worths(wins: &[WorthRow; 4]) -> bool
    ensures { result ≡ spec.are_worths wins.now }
{
    wins[0].is_worth() && wins[1].is_worth() && wins[2].is_worth() && wins[3].is_worth()
}
