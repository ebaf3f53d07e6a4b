//! Tests of `desk_hall` by what it exports: a game of letters, its books, and what messages to them come to; and of `desk_hall_games`,
//! whose books are of games of four.
//!
//! They stand apart from it, since a check of a crate with its tests proves the crate once more.
#![tactic(auto)]

#[cfg(test)]
mod facts;
#[cfg(test)]
mod games;
mod letters;
#[cfg(test)]
mod messages;
