//! Tests of `riichi_chances`, its texts and `riichi_worth`: worked hands, as fractions that plain Rust found over the definition.
//!
//! They stand apart from the library, since a check of a crate with its tests proves the crate once more.
#![tactic(auto)]

#[cfg(test)]
mod comparing;
#[cfg(test)]
mod facts;
#[cfg(test)]
mod fractions;
#[cfg(test)]
mod hands;
#[cfg(test)]
mod room;
#[cfg(test)]
mod texts;
#[cfg(test)]
mod worked;
#[cfg(test)]
mod worths;
