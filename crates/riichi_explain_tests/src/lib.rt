//! Tests of `riichi_refusals`, `riichi_hints` and `riichi_explain`, a module each, by what they export.
//!
//! They stand apart from the libraries, since a check of a crate with its tests proves the crate once more.
#![tactic(auto)]

#[cfg(test)]
mod explain;
#[cfg(test)]
mod facts;
#[cfg(test)]
mod faults;
#[cfg(test)]
mod hints;
#[cfg(test)]
mod rules;
