//! What is asked.
ghost use Rattle.std.specs.Prelude.{◌≡◌};
ghost use Rattle.riichi_need.specs.Winning as spec;

use riichi_hand::By;
use riichi_table::{ByPlayer, GameState, Player, TableRules};

/// Which place a player is to reach in the next deal.
#[derive(Clone, Copy, Debug, PartialEq, Eq)]
pub struct Question {
    pub rules: TableRules,
    /// The state before the deal.
    pub state: GameState,
    /// Who bets in the deal. The player's own bet comes back and changes nothing.
    pub bets: ByPlayer<bool>,
    pub player: Player,
    /// The place, from 1 to 4.
    pub place: u8,
}

/// How the player wins.
#[derive(Clone, Copy, Debug, PartialEq, Eq)]
pub enum Way {
    Ron { from: Player },
    Tsumo,
}

impl Way {
    /// As a record of a hand says it.
    pub fn by(self) -> By
        ensures { result ≡ spec.way_by self }
    {
        match self {
            Way::Ron { .. } => By::Ron,
            Way::Tsumo => By::Tsumo,
        }
    }
}

/// What counts as the place.
#[derive(Clone, Copy, Debug, PartialEq, Eq)]
pub enum Aim {
    /// Fewer others than the place have as many points or more.
    Strictly,
    /// Fewer others than the place are ahead, by the rules' ties.
    WithTie,
}
