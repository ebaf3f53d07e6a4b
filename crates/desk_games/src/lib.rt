//! A text of games: what its lines are answered, one after another, and what is told behind the last line of each game.
//!
//! [`games_text`] answers the lines that a `desk_io::Source` gives, and writes the answers into a `desk_io::Sink`. It returns a
//! [`GamesReport`]: how many lines were answered and how many refused, and the [`GameDesk`] behind the last line, or a
//! [`DeskFault`] for which it gave up. [`games_text_with`] has a [`GamesForm`], can put each answer behind the number of its line, and
//! [`games_played`] returns the [`GameDesk`] without any answers. [`fill_games`] answers a text in memory into a room, from any
//! line on, and [`play_game`] plays the games of a text in memory one after another.
//!
//! A [`GameDesk`] is a text of games so far: no game yet, one whose line `game` was refused, or a [`GameAtHand`], with its players,
//! its rules and how far it has come. A line that is refused holds its game: each line behind it is refused too, until another game
//! begins.
//!
//! A [`Games`] is the `desk_lines::Teller` of such a text, and `riichi_game_text` reads its lines and writes their texts. No call
//! takes memory. [`laws`] says what follows from a text. docs/GAME.md has the lines, their answers and the codes of faults.
//!
//! ```text
//! let mut reader = FromReader::new(rt.reader());
//! let mut writer = ToWriter::new(io::writer(&rt));
//! let report = games_text(Rules::One, &mut reader, &mut writer)?;
//! ```
#![tactic(auto)]

mod below;
mod desk;
mod filling;
mod form;
mod game_at_hand;
mod games;
pub mod laws;
mod played;
mod playing;
mod puts;
mod report;
mod text;
mod unwritten;

pub use desk::GameDesk;
pub use desk_lines::{DeskFault, DeskReport, Filled};
pub use filling::fill_games;
pub use form::GamesForm;
pub use game_at_hand::GameAtHand;
pub use games::{Games, says_undo};
pub use played::games_played;
pub use playing::{PlayedGame, play_game};
pub use report::GamesReport;
pub use text::{games_text, games_text_with, write_end};
