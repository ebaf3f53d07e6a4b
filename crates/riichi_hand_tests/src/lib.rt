//! Tests of `riichi_tiles`, `riichi_text` and `riichi_hand`, a module each, by what they export.
//!
//! They stand apart from the libraries, since a check of a crate with its tests proves the crate once more.
#![tactic(auto)]

#[cfg(test)]
mod facts;
#[cfg(test)]
mod hand;
#[cfg(test)]
mod text;
#[cfg(test)]
mod tiles;
