//! How far a text is taken.
ghost use Rattle.std.specs.Prelude.{◌≡◌};
ghost use Rattle.desk_standings.specs.declared.trouble.Why.TheVariants.{Memory, NoGame};

use crate::trouble::{Trouble, Why};
use desk_games::{GameDesk, PlayedGame};

/// How far a text is taken: so many games and lines of it.
#[derive(Clone, Copy)]
pub(crate) struct Place {
    games: u64,
    lines: u64,
}

impl Place {
    /// Before the first line.
    pub(crate) fn first() -> Place {
        Place { games: 0, lines: 0 }
    }

    /// Behind what was played.
    pub(crate) fn behind(self, played: &PlayedGame<'_>) -> Place {
        let games = match &played.desk {
            GameDesk::NoGame => 0,
            _ => 1,
        };
        Place {
            games: self.games.saturating_add(games),
            lines: self.lines.saturating_add(played.lines),
        }
    }

    /// The number of the next game, counted from 1.
    pub(crate) fn game_number(self) -> u64 {
        self.games.saturating_add(1)
    }

    /// The number of the next line, counted from 1.
    pub(crate) fn line_number(self) -> u64 {
        self.lines.saturating_add(1)
    }

    /// That the text has no game.
    pub(crate) fn no_game(self) -> Trouble
        ensures { result.why ≡ NoGame }
    {
        Trouble {
            game: self.games,
            line: self.lines,
            why: Why::NoGame,
        }
    }

    /// What is at fault with the next game: a refused line of it, or all of it, which its first line stands for.
    pub(crate) fn trouble(self, played: &PlayedGame<'_>, why: Why) -> Trouble
        ensures { result.why ≡ why }
    {
        let line = match &why {
            Why::Refused => self
                .lines
                .saturating_add(played.refused_at.unwrap_or(played.lines)),
            _ => self.line_number(),
        };
        Trouble {
            game: self.behind(played).games,
            line,
            why,
        }
    }

    /// That memory for the next game isn't there.
    pub(crate) fn no_memory(self) -> Trouble
        ensures { result.why ≡ Memory }
    {
        Trouble {
            game: self.game_number(),
            line: self.line_number(),
            why: Why::Memory,
        }
    }
}
