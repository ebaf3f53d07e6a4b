//! How texts of games are answered.
ghost use Rattle.std.specs.Prelude.{◌≡◌};
ghost use Rattle.desk_games.specs.Below.{explains};
ghost use Rattle.desk_games.specs.Forms as spec;

/// How texts of games are answered.
#[derive(Clone, Copy, Debug, PartialEq, Eq)]
pub enum GamesForm {
    /// The answers alone.
    Answers,
    /// The answers, and below each why it is so, in lines that begin with two spaces.
    Explained,
    /// Each answer as an object of JSON on a line of its own, that to a deal with all that it moves.
    Objects,
    /// Each game as a sheet of columns, to be printed, read and signed by people, with an empty row behind it.
    Sheet,
}

/// What an answer is written as.
#[derive(Clone, Copy, Debug, PartialEq, Eq)]
pub(crate) enum Writing {
    /// Words.
    Words,
    /// The members of an object.
    Members,
    /// The rows of a sheet.
    Rows,
}

impl GamesForm {
    /// Whether it is said why answers are so.
    pub(crate) fn is_explained(self) -> bool
        ensures { result ≡ explains self }
    {
        match self {
            GamesForm::Answers | GamesForm::Objects | GamesForm::Sheet => false,
            GamesForm::Explained => true,
        }
    }

    /// What answers are written as.
    pub(crate) fn writing(self) -> Writing
        ensures { result ≡ spec.writing_of self }
    {
        match self {
            GamesForm::Answers | GamesForm::Explained => Writing::Words,
            GamesForm::Objects => Writing::Members,
            GamesForm::Sheet => Writing::Rows,
        }
    }
}
