//! What the words of a refused line are read as.
use arrayvec::ArrayVec;
use riichi_hand::Key;

/// The most words of a line that is read loosely.
pub(crate) const MOST_WORDS: usize = 64;

/// What a word of a line is read as.
#[derive(Clone, Copy, Debug, PartialEq, Eq)]
pub(crate) enum Role {
    /// Nothing.
    Unread,
    /// The job.
    Job,
    /// Tiles of the hand.
    Hand,
    /// A tile of the hand by its number.
    Numbered,
    /// The word with this key, or a part of it.
    Entry(Key),
    /// The same, where another word may be meant as well.
    Likely(Key),
    /// How the hand is won, and on which tile.
    Won,
    /// One of two winds, of which either may be the seat's.
    Winds,
}

impl Default for Role {
    ghost use Rattle.std.specs.Prelude.{◌≡◌};
    ghost use Rattle.riichi_hints.specs.declared.role.Role.TheVariants.{Unread};

    ghost is_default = { λ role. role ≡ Unread };

    fn default() -> Self {
        Role::Unread
    }
}

/// What the words of a line are read as, one after another.
pub(crate) type Roles = ArrayVec<Role, MOST_WORDS>;

/// Where a word stands in a line that is shown: the job, the hand, and behind them the words with keys.
#[derive(Clone, Copy, Debug, PartialEq, Eq)]
pub(crate) enum Spot {
    First,
    Second,
    Later,
}

impl Spot {
    ghost use Rattle.std.specs.Prelude.{◌≡◌};
    ghost use Rattle.riichi_hints.specs.Account.{next_spot};

    pub(crate) fn next(self) -> Spot
        ensures { result ≡ next_spot self }
    {
        match self {
            Spot::First => Spot::Second,
            _ => Spot::Later,
        }
    }
}
