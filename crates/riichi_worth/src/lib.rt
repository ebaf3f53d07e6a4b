//! Worth by turn: how many points a hand brings on the average by so many draws.
//!
//! [`hand_worth`] answers thirteen tiles, and [`discard_worths`] fourteen after each of their best discards, by a [`Worth`]: all points
//! that all ordered draws of so many unseen tiles bring, shared equally among these draws. The game and the play are those of
//! `riichi_chances`: the player is alone at the table, keeps what brings the hand nearer, makes a best discard, and throws any other
//! tile at once; of the best discards the one is made after which the draws bring the most points. A draw that completes the hand
//! ends the count. It brings what the hand then gains by `riichi_score::best`, as [`Stakes`] say: by self-draw, with riichi where
//! nothing is called, with the dora indicators that are seen, without ura dora, counters and sticks; 0 where it has no yaku.
//!
//! As there, what was thrown on the way need not be known ([`laws::hand_and_turns`]), so each hand that may be come to is taken once
//! (`riichi_chances::Graph`). A ready hand has the live copies of each kind that it waits for times its [`Stakes::prize`]; `counting`
//! makes the points of each hand of those before it. They may be beyond a number of 128 bits, so they are [`Points`], of 192.
//!
//! A question takes no memory: hands and their points stand in places that the caller lends (`HandPlace`, [`WorthRow`]). What may come to
//! more hands is refused, as in `riichi_chances`.
#![tactic(auto)]

mod counting;
mod discards;
pub mod laws;
mod points;
mod prizes;
mod room;
mod row;
mod stakes;
mod worth;

pub use discards::{DiscardWorth, discard_worths};
pub use points::Points;
pub use room::WorthRoom;
pub use row::WorthRow;
pub use stakes::{MOST_PRIZE, Stakes};
pub use worth::{Worth, hand_worth};
