//! Chances by turn: how likely a hand is to be ready, or to win, by so many draws.
//!
//! [`chances_of`] answers thirteen tiles, and [`discard_chances`] fourteen after each of their best discards, by [`Chances`]: for each
//! number of turns, of all ordered draws of so many unseen tiles, how many bring the hand to a [`Goal`]. The player is alone at the
//! table. A tile that brings the hand nearer is kept, and of the best discards the one is made after which most draws lead there; any
//! other tile is thrown at once, and no tile comes back. So the chance is what this play reaches, and no bound of what another might.
//!
//! Beside it stands an upper end: no play that keeps only what brings the hand nearer, and then makes a best discard, reaches more,
//! whatever of these tiles it throws at once ([`laws::no_play_has_more`]).
//!
//! It is found by the kinds that the hand accepts alone, from the hand and the turns that are left: what was thrown on the way is
//! accepted no more, so it need not be known ([`laws::hand_and_turns`]). Each hand that it may come to is taken once, with the hands
//! that it leads to, which stand before it: `graph` is these hands and `building` takes them, by `riichi_shape::shape_with` and the
//! rows of a source. Then, for each number of turns, `counting` makes the numbers of each hand of those before it. All best discards
//! of fourteen tiles share one such list.
//!
//! A call takes no memory. Its hands and their numbers stand in places that the caller lends ([`HandPlace`], [`Rows`]; in memory a
//! [`Room`] of them), some two kilobytes for each hand; what may come to more hands is refused ([`TooManyHands`]). It never tells
//! another number, and it refuses nothing that comes to no more. There are 65,535 places at most.
//!
//! [`Chances::at`] are those of one number of turns, [`Odds`], and [`each_odds_at`] those after each discard. A [`Fraction`] of such numbers is told in lowest terms, or in ten thousandths.
//!
//! So `234m45678p34s558s`, of 123 unseen tiles, is ready by the next draw in 20 of 123 cases, and wins by two draws in 165 of
//! 15,006.
#![tactic(auto)]

mod building;
mod chances;
mod counting;
mod discards;
mod divisor;
mod fault;
mod fraction;
mod goal;
mod graph;
mod halves;
mod hand_place;
pub mod laws;
mod node;
mod odds;
mod rests;
mod room;
mod rows;
mod span;
mod tiles;
mod unseen;

pub use building::{place_of, places_of};
pub use chances::{Chances, chances_of};
pub use discards::{DiscardChances, discard_chances, each_odds_at};
pub use fault::TooManyHands;
pub use fraction::Fraction;
pub use goal::{Goal, is_won};
pub use graph::Graph;
pub use halves::Halves;
pub use hand_place::HandPlace;
pub use node::{Draw, Draws, Node};
pub use odds::{DiscardOdds, Odds};
pub use rests::Rests;
pub use room::Room;
pub use rows::Rows;
pub use span::{ByTurns, MOST_TURNS, Span};
pub use unseen::unseen_tiles;
