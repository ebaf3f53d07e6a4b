//! What a table has chosen.
ghost use Rattle.std.specs.Prelude.{◌≡◌};
ghost use Rattle.riichi_table.specs.RulesFaults.{cost_points};
ghost use Rattle.riichi_table.specs.Tables as spec;

use riichi_hand::Rules;

/// Something for each place, the first place first.
#[derive(Clone, Copy, Debug, PartialEq, Eq)]
pub struct ByPlace<T> {
    pub first: T,
    pub second: T,
    pub third: T,
    pub fourth: T,
}

/// What players with equal points have.
#[derive(Clone, Copy, Debug, PartialEq, Eq)]
pub enum Ties {
    /// The same place, and they share the bonuses of their places.
    Share,
    /// A place each: the earlier first seat is ahead.
    Seat,
}

/// Who wins, where several win on one discard.
#[derive(Clone, Copy, Debug, PartialEq, Eq)]
pub enum SeveralWinners {
    All,
    /// The nearest alone, who is the first of them in turn behind the discarder.
    Nearest,
    /// Both of two, while three make it an abortive draw.
    Two,
}

/// Whom the counters are paid to, where several win.
#[derive(Clone, Copy, Debug, PartialEq, Eq)]
pub enum CountersTo {
    /// The winner nearest behind the discarder.
    Nearest,
    Each,
}

/// Who takes the riichi sticks, where several win.
#[derive(Clone, Copy, Debug, PartialEq, Eq)]
pub enum SticksTo {
    /// The winner nearest behind the discarder takes all.
    Nearest,
    /// Each winner takes the own bet of this deal back, and the nearest the rest.
    Own,
}

/// When the dealer stays at an exhaustive draw.
#[derive(Clone, Copy, Debug, PartialEq, Eq)]
pub enum Renchan {
    /// Where the dealer is ready.
    Ready,
    /// Never: the dealer stays by a win alone.
    Win,
}

/// The last round of a game.
#[derive(Clone, Copy, Debug, PartialEq, Eq)]
pub enum LastRound {
    South,
    East,
}

/// What becomes of the riichi sticks that lie at the end.
#[derive(Clone, Copy, Debug, PartialEq, Eq)]
pub enum LeftSticks {
    /// They go to the points of the first, by the first seat alone if several are.
    First,
    /// Nobody has them.
    Lost,
}

/// What a chombo costs.
#[derive(Clone, Copy, Debug, PartialEq, Eq)]
pub enum ChomboCost {
    /// So many points off the final points.
    Points(u32),
    /// A mangan paid backwards at once.
    Mangan,
}

impl ChomboCost {
    /// The points off the final points.
    pub fn penalty(self) -> u32
        ensures { result ≡ cost_points self }
    {
        match self {
            ChomboCost::Points(points) => points,
            ChomboCost::Mangan => 0,
        }
    }
}

/// What a table has chosen. All points are points, not thousands.
#[derive(Clone, Copy, Debug, PartialEq, Eq)]
pub struct TableRules {
    /// How hands are valued.
    pub hand: Rules,
    /// The points of each player at the start.
    pub start: u32,
    /// The points that count as nothing at the end; for what each starts with less than these, the first has the sum.
    pub returns: u32,
    /// The bonus of each place, without what the first has for the start.
    pub uma: ByPlace<i32>,
    pub ties: Ties,
    pub ron: SeveralWinners,
    pub counters: CountersTo,
    pub sticks: SticksTo,
    /// Whether a player may be liable for a yakuman (pao).
    pub liable: bool,
    /// Whether a draw may pay those whose discards were all terminals and honours, none of them called (nagashi mangan).
    pub nagashi: bool,
    pub renchan: Renchan,
    pub length: LastRound,
    /// Where nobody has so many points at the end of the last round, there is one round more.
    pub extra: Option<u32>,
    /// Whether the game is over as soon as a player has less than 0 points. Then who has fewer than 1000 may not bet.
    pub bust: bool,
    /// Whether the game is over where the fourth player deals in the last round, stays, and is ahead of all.
    pub stop: bool,
    pub left: LeftSticks,
    pub chombo: ChomboCost,
}

impl TableRules {
    /// The rules of a club: start and return of 30000, and each other choice the commonest.
    pub fn club() -> TableRules
        ensures { result ≡ spec.club }
    {
        TableRules {
            hand: Rules::One,
            start: 30000,
            returns: 30000,
            uma: ByPlace {
                first: 15000,
                second: 5000,
                third: -5000,
                fourth: -15000,
            },
            ties: Ties::Share,
            ron: SeveralWinners::All,
            counters: CountersTo::Nearest,
            sticks: SticksTo::Nearest,
            liable: true,
            nagashi: false,
            renchan: Renchan::Ready,
            length: LastRound::South,
            extra: None,
            bust: false,
            stop: false,
            left: LeftSticks::First,
            chombo: ChomboCost::Points(20000),
        }
    }

    /// The rules of a league: start 25000, return 30000, a greater uma, and one winner alone on a discard.
    pub fn league() -> TableRules
        ensures { result ≡ spec.league }
    {
        TableRules {
            start: 25000,
            uma: ByPlace {
                first: 30000,
                second: 10000,
                third: -10000,
                fourth: -30000,
            },
            ron: SeveralWinners::Nearest,
            ..TableRules::club()
        }
    }

    /// The rules of play online: start 25000, return 30000, ties by seat, two winners at most, nagashi mangan, and the game ends
    /// by a player below 0, by the last dealer who is ahead, or in one round more where nobody has 30000.
    pub fn online() -> TableRules
        ensures { result ≡ spec.online }
    {
        TableRules {
            start: 25000,
            uma: ByPlace {
                first: 20000,
                second: 10000,
                third: -10000,
                fourth: -20000,
            },
            ties: Ties::Seat,
            ron: SeveralWinners::Two,
            nagashi: true,
            extra: Some(30000),
            bust: true,
            stop: true,
            ..TableRules::club()
        }
    }
}
