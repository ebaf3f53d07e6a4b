//! Tests of `desk_games` by what it exports: texts of games whose reads or writes fail, rooms that are filled, games at hand; of
//! `riichi_game_hints` and `desk_game_hints`: what stands below lines that are refused; and of `riichi_seats`, `riichi_standings`, their
//! texts and `desk_standings`: games that are drawn, tournaments and halls. Games with all their answers, as the program writes them,
//! are in tests/answers/ at the top.
//!
//! They stand apart from the libraries, since a check of a crate with its tests proves the crate once more.
#![tactic(auto)]

#[cfg(test)]
mod alike;
#[cfg(test)]
mod desks;
#[cfg(test)]
mod drawings;
#[cfg(test)]
mod facts;
#[cfg(test)]
mod failing;
#[cfg(test)]
mod filling;
#[cfg(test)]
mod halls;
#[cfg(test)]
mod hinted;
#[cfg(test)]
mod hints;
#[cfg(test)]
mod lines;
#[cfg(test)]
mod lists;
#[cfg(test)]
mod meetings;
#[cfg(test)]
mod stood;
#[cfg(test)]
mod texts;
