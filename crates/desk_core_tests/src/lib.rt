//! Tests of `desk_core`, `desk_json`, `desk_reasons`, `desk_script` and `desk_io`, a module each, by what they export.
//!
//! They stand apart from the libraries, since a check of a crate with its tests proves the crate once more.
#![tactic(auto)]

#[cfg(test)]
mod desk;
#[cfg(test)]
mod facts;
#[cfg(test)]
mod json;
#[cfg(test)]
mod reached;
#[cfg(test)]
mod ready;
#[cfg(test)]
mod reasons;
#[cfg(test)]
mod script;
#[cfg(test)]
mod streams;
