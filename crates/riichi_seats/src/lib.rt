//! Who sits where in the sessions of a tournament.
//!
//! A [`Plan`] says how many tables and sessions there are, and the seed. A [`Drawing`] begun with it looks for games in which no two
//! players meet twice, and in which each sits as often at one first seat as at another: [`Drawing::improve`] goes on for a while,
//! and [`Drawing::finish`] gives the games, as a [`Table`] each, session by session. Whatever it finds, each player sits at one seat
//! of each session. [`repeated_pairs`] and [`seat_counts`] count what has come of it. [`seats_by_order`] gives the games of one
//! session by an order of the players.
//!
//! Players are numbered from 0 on. There are no names here, and no texts.
#![tactic(auto)]

mod counts;
mod design;
mod draft;
mod drawing;
mod order;
mod ring;
mod rotation;
mod session;
mod table;

pub use counts::{Repeated, SeatCounts, repeated_pairs, seat_counts};
pub use drawing::{Drawing, Plan};
pub use order::seats_by_order;
pub use table::{MOST_PLAYERS, MOST_SESSIONS, MOST_TABLES, Seat, Table};
