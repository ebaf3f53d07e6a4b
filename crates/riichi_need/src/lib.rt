//! What a player needs for a place: the least row of the table of payments that brings the player there in the next deal.
//!
//! [`needs_of`] answers a [`Question`] for each discarder and for self-draw: the player wins alone, and nobody is liable. A
//! [`Row`] is so many base points with what is paid for them; [`pays_so`] says which han and fu have these, and
//! [`limit_of`] which limit hand.
//!
//! All of these are plain values: no call takes memory.
#![tactic(auto)]

pub mod laws;
mod need;
mod question;
mod reaching;
mod rows;
mod winning;

pub use need::{Need, Needs, Row, needs_of};
pub use question::{Aim, Question, Way};
pub use reaching::reaches;
pub use rows::{ALL_FU, limit_of, pays_so};
pub use winning::all_points_then;
