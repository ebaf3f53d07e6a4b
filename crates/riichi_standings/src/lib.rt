//! The standings of a tournament: what each player has of the games of its sessions, and who has which place.
//!
//! A [`SeatResult`] is what one player has of one game. [`Tally::of`] adds up what a player has of all results, and [`place`] is one
//! more than are ahead; what parts equal totals is a [`TieBreak`]. [`standings`] puts the players in the order of their places.
//!
//! A [`Tournament`] is the games so far: the names of the players, their results, and which players and tables have had a game of a
//! session. A [`StandingsFault`] is why a game can't be one of it. [`laws`] says what holds of all standings.
//!
//! Points are points, not thousands, and may be negative. Players are known by numbers, counted from 0.
#![tactic(auto)]

mod fault;
pub mod laws;
mod member;
mod names;
mod places;
mod result;
mod session;
mod standing;
mod tally;
mod tournament;

pub use fault::StandingsFault;
pub use member::Member;
pub use places::{TieBreak, is_ahead, place};
pub use result::{MOST_RESULTS, SeatResult};
pub use session::{first_session, last_session, points_in, results_of, thin_session};
pub use standing::{MOST_PLAYERS, Standing, standings};
pub use tally::Tally;
pub use tournament::Tournament;
