//! Tests of `riichi_cuts`, `riichi_rows` and `riichi_shape`, a module for each concern, by what they export.
//!
//! They stand apart from the libraries, since a check of a crate with its tests proves the crate once more.
#![tactic(auto)]

#[cfg(test)]
mod cache;
#[cfg(test)]
mod cuts;
#[cfg(test)]
mod facts;
#[cfg(test)]
mod rows;
#[cfg(test)]
mod shape;
