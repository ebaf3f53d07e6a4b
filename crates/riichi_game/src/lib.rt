//! A game of four players, outcome by outcome: which outcomes are refused, what comes next, and when the game is over.
//!
//! A [`Progress`] is how far a game has come: what the table shows, whether the game is over, and the penalties.
//! [`Progress::after`] gives the one after an outcome, or the [`OutcomeFault`](riichi_table::OutcomeFault) for which the outcome is
//! refused, and [`after_all`] the one after many. What is paid, and why, is told by `riichi_settle`.
//!
//! What a player wins is a [`Worth`](riichi_table::Worth): of a pair of han and fu by [`counted_worth`], of a [`LimitHand`] by
//! [`limit_worth`], and of a hand by [`worth_of_win`], whose [`win_record`] has the winner's seat, the round, the counters and
//! the sticks from the table.
//!
//! All of these are plain values, and no call takes memory.
#![tactic(auto)]

mod bets;
mod consequences;
mod ends;
mod following;
mod game;
mod hands;
pub mod laws;
mod line;
mod numbers;
mod values;
mod won;

pub use ends::{has_round, is_behind_last, is_bust, is_enough};
pub use game::{Progress, after_all};
pub use hands::{NoWorth, win_record, worth_of_score, worth_of_win};
pub use values::{LimitHand, counted_worth, limit_worth, most_limits, occurs};
