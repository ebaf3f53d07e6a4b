//! Tests of `riichi_deeper`: worked hands, and values that were found by brute force over the definitions in plain Rust.
//!
//! They stand apart from the library, since a check of a crate with its tests proves the crate once more.
#![tactic(auto)]

#[cfg(test)]
mod calls;
#[cfg(test)]
mod deeper;
#[cfg(test)]
mod facts;
#[cfg(test)]
mod hands;
