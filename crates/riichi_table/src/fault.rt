//! Why an outcome is refused.

/// Why an outcome is refused; of several reasons the first in this order.
#[derive(Clone, Copy, Debug, PartialEq, Eq)]
pub enum OutcomeFault {
    /// Nobody wins on the discard.
    NobodyWins,
    /// The discarder is among the winners.
    DiscarderWins,
    /// A winner is liable.
    WinnerLiable,
    /// Base points that no hand has, or more limits than the rules allow.
    NoSuchWorth,
    /// Liability for no limit, or for more limits of a yakuman than the hand has; a counted hand has none.
    LiableLimits,
    /// The rules have no liability.
    LiableOff,
    /// The rules have no nagashi mangan.
    NagashiOff,
    /// A bet of a player with fewer than 1000 points, where the rules forbid it.
    BetOfTooFew,
    /// A player has declared riichi, and isn't ready at the draw.
    RiichiNotReady,
    /// The points of a written state and 1000 for each stick aren't four times the start.
    StandsSum,
    /// The rules have no round as the written state's.
    StandsRound,
    /// There would be over 99 counters.
    OverCounters,
    /// There would be over 99 sticks.
    OverSticks,
    /// A player would have over a thousand million points, up or down, or so many penalties: more than a ledger keeps.
    OverPoints,
    /// The game is over.
    GameOver,
}
