//! The keys that a study line can have and a shape line can't.
ghost use Rattle.std.specs.Prelude.{◌≡◌};

/// A key of a study line's own.
#[derive(Clone, Copy, Debug, PartialEq, Eq)]
pub enum StudyKey {
    /// By what the discards of a shape are put in order.
    Order,
    /// The tile that another player has thrown.
    Tile,
    /// Who has thrown it.
    From,
    /// What the player of the hand has thrown.
    Own,
    /// What a threatening player has thrown.
    Thrown,
    /// What all others have thrown since that player's riichi.
    Since,
    /// How many turns are to come.
    Turns,
    /// The player's wind.
    Seat,
    /// The prevalent wind.
    Round,
    /// The dora indicators.
    Dora,
    /// The rules by which a win is valued.
    Rules,
}

impl StudyKey {
    ghost use Rattle.riichi_study.specs.Words.{key_word};

    /// Its name, which stands before `=`.
    pub fn name(self) -> &'static str
        ensures { result.now ≡ key_word self }
    {
        match self {
            StudyKey::Order => "order",
            StudyKey::Tile => "tile",
            StudyKey::From => "from",
            StudyKey::Own => "own",
            StudyKey::Thrown => "thrown",
            StudyKey::Since => "since",
            StudyKey::Turns => "turns",
            StudyKey::Seat => "seat",
            StudyKey::Round => "round",
            StudyKey::Dora => "dora",
            StudyKey::Rules => "rules",
        }
    }
}
