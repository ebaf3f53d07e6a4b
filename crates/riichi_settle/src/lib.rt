//! What an outcome moves in a game of four players: who pays whom, and why.
//!
//! [`moves_of`] lists what is moved: points from player to player, riichi bets to the table, and sticks from the table. The
//! [`Changes`] of an outcome, which [`settle`] gives, are sums over that list: so what is explained adds up to what is settled.
//! [`as_played`] says how an outcome is played under the rules of the table, as where the nearest alone of several wins.
//!
//! All of these are plain values, and no call takes memory. None refuses an outcome: `riichi_game` does.
#![tactic(auto)]

mod draws;
pub mod laws;
mod making;
mod moved;
mod prices;
mod rons;
mod settling;
mod totals;
mod tsumos;
mod winning;

pub use making::moves_of;
pub use moved::{MOST_MOVES, Move, Moves, Reason, Taking};
pub use settling::{Changes, Moved, changes_by, moved_as_played, settle};
pub use winning::{as_played, nearest, winners};
