//! Tests of `desk_run`, by what it exports: boards and seats on one thread, tables that take hands back, runs over threads,
//! seats in threads of their own, and runs of which a request for memory is refused.
//!
//! They stand apart from it, since a check of a crate with its tests proves the crate once more.
#![tactic(auto)]

#[cfg(test)]
mod board;
#[cfg(test)]
mod common;
#[cfg(test)]
mod facts;
#[cfg(test)]
mod refused;
#[cfg(test)]
mod seats;
#[cfg(test)]
mod threads;
#[cfg(test)]
mod withdrawal;
