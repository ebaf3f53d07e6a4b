//! How a deal ended, and the other entries of a ledger.
use crate::player::{ByPlayer, Player};
use crate::state::GameState;
use crate::worth::Worth;

/// Who is liable (pao), and for how many limits of the yakuman.
#[derive(Clone, Copy, Debug, PartialEq, Eq)]
pub struct Liable {
    pub player: Player,
    pub limits: u8,
}

/// What a player wins.
#[derive(Clone, Copy, Debug, PartialEq, Eq)]
pub struct Win {
    pub worth: Worth,
    pub liable: Option<Liable>,
}

/// How a deal ended, or another entry of the ledger. `riichi` says who has bet in the deal; who declared with the very discard
/// that was won on hasn't.
#[derive(Clone, Copy, Debug, PartialEq, Eq)]
pub enum Outcome {
    /// A win, or several, on a discard of the player `from`: all who said ron.
    Ron {
        from: Player,
        wins: ByPlayer<Option<Win>>,
        riichi: ByPlayer<bool>,
    },
    /// A win by self-draw.
    Tsumo {
        winner: Player,
        win: Win,
        riichi: ByPlayer<bool>,
    },
    /// The tiles are exhausted: who is ready, and who has a nagashi mangan.
    Draw {
        ready: ByPlayer<bool>,
        nagashi: ByPlayer<bool>,
        riichi: ByPlayer<bool>,
    },
    /// An abortive draw, as by four winds, nine terminals, four bets or four kongs.
    Abort {
        riichi: ByPlayer<bool>,
    },
    /// A dead hand: nothing of the deal counts, its bets go back, and it is played again.
    Chombo {
        player: Player,
    },
    /// Points off the final points.
    Penalty {
        player: Player,
        points: u32,
    },
    /// The state as it is written down: of a game that goes on elsewhere, or a director's correction.
    Stands {
        state: GameState,
    },
    /// The game ends here, as where the time is over.
    End,
}
