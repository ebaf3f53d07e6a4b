//! The standings of a tournament as text, and names that may be one player's.
//!
//! [`standings_text`] writes a line a player, [`standings_json`] an object a player, [`standings_table`] a table with commas between
//! the values, and [`standings_sheet`] columns to be read by people. [`are_alike`] says whether two names may be one player's. docs/GAME.md has the lines. Texts take memory; where that
//! isn't there, it is an error.
#![tactic(auto)]

mod alike;
mod cells;
mod columns;
mod json;
mod numbers;
mod sheet;
mod table;
mod text;

pub use alike::are_alike;
pub use json::standings_json;
pub use sheet::standings_sheet;
pub use table::standings_table;
pub use text::standings_text;
