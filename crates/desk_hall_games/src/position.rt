//! How far a game of four has come, as a hall asks for it.
ghost use Rattle.std.specs.Prelude.{◌≡◌, None};
ghost use Rattle.riichi_game.specs.Games.{first_progress};
ghost use Rattle.riichi_game_text.specs.GameLines.{said_by};
ghost use Rattle.desk_hall_games.specs.Positions as spec;

use desk_hall::Position;
use riichi_game::Progress;
use riichi_game_text::{GameLine, read_entry};
use riichi_table::Outcome;

/// How far a game has come, and by what outcome.
#[derive(Clone, Copy)]
pub struct GamePosition {
    pub(crate) game: GameLine,
    /// How far it had come before the outcome.
    pub(crate) before: Progress,
    /// The outcome; none before the first deal.
    pub(crate) outcome: Option<Outcome>,
    pub(crate) after: Progress,
}

impl GamePosition {
    /// The game that a line begins, before its first deal.
    pub(crate) fn first(game: &GameLine) -> GamePosition
        ensures game { spec.game_in result ≡ said_by game.now }
        ensures outcome { result.outcome ≡ None }
        ensures after { result.after ≡ first_progress game.now.rules }
    {
        let first = Progress::first(&game.rules);
        GamePosition {
            game: *game,
            before: first,
            outcome: None,
            after: first,
        }
    }
}

impl Position for GamePosition {
    ghost use Rattle.desk_hall_games.specs.Positions.{reads_entry, same_itself, same_outcome};

    ghost reads = { λ position line. reads_entry position line };

    ghost same = { λ one other. same_outcome one other };

    fn read(&self, line: &[u8]) -> Option<GamePosition> {
        match read_entry(&self.game.names, &self.after, &self.game.rules, line) {
            Err(_) => None,
            Ok(accepted) => Some(GamePosition {
                game: self.game,
                before: self.after,
                outcome: Some(accepted.outcome),
                after: accepted.after,
            }),
        }
    }

    fn is_same(&self, other: &GamePosition) -> bool {
        match (self.outcome, other.outcome) {
            (Some(one), Some(other)) => one == other,
            (None, None) => true,
            _ => false,
        }
    }

    ghost itself = { λ position. same_itself position.outcome };
}
