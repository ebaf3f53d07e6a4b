//! A text of games with hints: below the answer to a refused line stands what is wrong with it, and where one is found a line to try.
//!
//! [`HintedGames`] stands around the `desk_games::Games` of a text, which answers its lines, and puts behind the answer to a refused
//! line what `riichi_game_hints` makes of it in the state that the game has come to. So the answers are those without hints.
//! [`hinted_games_text`] answers so the lines that a `desk_io::Source` gives. No call takes memory.
//!
//! ```text
//! tsumo by Bo 3han40fu
//! refused G4
//!   by is no word of such a line
//!   try: tsumo Bo 3.40
//! ```
#![tactic(auto)]

mod hinted;
mod text;

pub use hinted::HintedGames;
pub use text::hinted_games_text;
