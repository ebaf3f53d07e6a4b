//! The games of a tournament, read from texts of games.
//!
//! [`ended_games`] reads the games of a text: each has to be over, without a refused line; [`judge_texts`] does so with several
//! texts side by side. A [`Hall`] takes them one after another
//! ([`Hall::take_games`]): all under the rules of the first, and each player and table once in a session. The first game that isn't
//! so is a [`Trouble`], with the number of the game and of a line in its text; it changes nothing. [`Hall::standings`] are the players
//! by place, which `riichi_standings_text` writes.
//!
//! [`laws`] says what the totals of all players are together. All of this takes memory; where that isn't there, it is a trouble too.
#![tactic(auto)]

mod differing;
mod ended;
mod hall;
mod judged;
pub mod laws;
mod place;
mod trouble;

pub use differing::TableRule;
pub use ended::{EndedGame, ended_games};
pub use hall::Hall;
pub use judged::judge_texts;
pub use riichi_standings::{Standing, StandingsFault, TieBreak, Tournament};
pub use trouble::{Trouble, Why};
