//! Tests of `riichi_split`, `riichi_blocks`, `riichi_yaku` and `riichi_score`, a module each, by what they export.
//!
//! They stand apart from the libraries, since a check of a crate with its tests proves the crate once more.
#![tactic(auto)]

#[cfg(test)]
mod blocks;
#[cfg(test)]
mod facts;
#[cfg(test)]
mod house;
#[cfg(test)]
mod score;
#[cfg(test)]
mod split;
#[cfg(test)]
mod yaku;
