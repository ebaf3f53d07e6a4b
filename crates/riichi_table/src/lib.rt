//! Values of a game of four players: the players, the rules of a table, what the table shows between two deals, and how a deal
//! ended. Who pays whom and what comes next are other crates' matter.
//!
//! [`TableRules`] are all that a table has chosen; [`TableRules::club`], [`TableRules::league`] and [`TableRules::online`] are
//! three common choices. A [`GameState`] is what the table shows between two deals, and an [`Outcome`] is how a deal ended, or
//! another entry of the ledger, as a penalty. An [`OutcomeFault`] is why an outcome is refused.
//!
//! All of these are plain values: each can be copied and compared, and no call takes memory.
#![tactic(auto)]

mod fault;
mod outcome;
mod player;
mod rules;
mod rules_fault;
mod state;
mod sums;
mod worth;

pub use fault::OutcomeFault;
pub use outcome::{Liable, Outcome, Win};
pub use player::{ByPlayer, Player};
pub use rules::{
    ByPlace, ChomboCost, CountersTo, LastRound, LeftSticks, Renchan, SeveralWinners, SticksTo,
    TableRules, Ties,
};
pub use rules_fault::RulesFault;
pub use state::GameState;
pub use worth::Worth;
