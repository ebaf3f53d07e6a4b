//! Tests of `riichi_table`, `riichi_settle`, `riichi_game`, `riichi_places`, `riichi_need`, `riichi_game_text` and `riichi_need_text` by
//! what they export: deals, final points and needed rows that were worked by hand, and the lines and answers of docs/GAME.md.
//! Whole games and more worked deals stand in tests/answers/ and in tests/ledger-rows.txt, and are told by the program.
//!
//! They stand apart from the libraries, since a check of a crate with its tests proves the crate once more.
#![tactic(auto)]

#[cfg(test)]
mod answers;
#[cfg(test)]
mod ends;
#[cfg(test)]
mod facts;
#[cfg(test)]
mod finals;
#[cfg(test)]
mod game_lines;
#[cfg(test)]
mod need_texts;
#[cfg(test)]
mod needs;
#[cfg(test)]
mod plays;
#[cfg(test)]
mod refused;
#[cfg(test)]
mod refused_lines;
#[cfg(test)]
mod settled;
#[cfg(test)]
mod values;
