//! Why a game can't be one of a tournament.
use std::alloc::AllocError;

/// Why a game can't be one of a tournament, or why the games so far make no standings.
#[derive(Clone, Copy, Debug, PartialEq, Eq, Drop)]
pub enum StandingsFault {
    /// Memory isn't there.
    Memory,
    /// There are more players or results than can be counted.
    TooMany,
    /// Some games say their session, and others don't.
    SessionUnsaid,
    /// The table of the session has had a game.
    TableTwice,
    /// A player has had a game of the session.
    PlayerTwice,
    /// This session has fewer games than the one before it.
    FewerTables(u32),
}

impl From<AllocError> for StandingsFault {
    ghost use Rattle.std.specs.Prelude.{◌≡◌};
    ghost use Rattle.riichi_standings.specs.declared.fault.StandingsFault.TheVariants.{Memory};

    ghost from_gives = { λ _ given. given ≡ Memory };

    fn from(_refused: AllocError) -> StandingsFault {
        StandingsFault::Memory
    }
}
