//! Tests of `desk_lines`, by what it exports: the answers to lines, to texts and to scripts, and its law; of `desk_score` and
//! `desk_crew`; and that the rules which these answers name are read back.
//!
//! They stand apart from the libraries, since a check of a crate with its tests proves the crate once more.
#![tactic(auto)]

#[cfg(test)]
mod crews;
#[cfg(test)]
mod facts;
#[cfg(test)]
mod filling;
#[cfg(test)]
mod json_lines;
#[cfg(test)]
mod laws;
#[cfg(test)]
mod lines;
#[cfg(test)]
mod numbering;
#[cfg(test)]
mod replay;
#[cfg(test)]
mod rules;
#[cfg(test)]
mod score;
#[cfg(test)]
mod waits;
