//! Words of the tests. What they say, that a fact holds and that two values are the same, is proved here once.
ghost use Rattle.std.specs.Prelude.{◌≡◌, true};

use riichi_game::Progress;
use riichi_hand::Wind;
use riichi_table::*;
use std::fmt::Debug;
use std::process::Abort;

/// The fact holds.
pub(crate) fn holds(rt: &impl Abort, fact: bool)
    ensures { fact ≡ true }
{
    assert!(rt; fact);
}

/// The two values are the same.
pub(crate) fn same<T: PartialEq + Debug + Drop>(rt: &impl Abort, left: T, right: T) {
    assert!(rt; left == right, "{left:?} is not {right:?}");
}

pub(crate) fn by<T>(first: T, second: T, third: T, fourth: T) -> ByPlayer<T> {
    ByPlayer {
        first,
        second,
        third,
        fourth,
    }
}

pub(crate) fn nobody() -> ByPlayer<bool> {
    ByPlayer::all(false)
}

/// A set of one player.
pub(crate) fn only(player: Player) -> ByPlayer<bool> {
    nobody().with(player, true)
}

/// A counted hand that nobody is liable for.
pub(crate) fn plain(base: u16) -> Win {
    Win {
        worth: Worth::Counted { base },
        liable: None,
    }
}

/// A yakuman for one limit of which the fourth player is liable.
pub(crate) fn liable(limits: u8) -> Win {
    Win {
        worth: Worth::Yakuman { limits },
        liable: Some(Liable {
            player: Player::Fourth,
            limits: 1,
        }),
    }
}

pub(crate) fn ron(from: Player, winner: Player, win: Win) -> Outcome {
    Outcome::Ron {
        from,
        wins: ByPlayer::all(None).with(winner, Some(win)),
        riichi: nobody(),
    }
}

pub(crate) fn tsumo(winner: Player, win: Win) -> Outcome {
    Outcome::Tsumo {
        winner,
        win,
        riichi: nobody(),
    }
}

pub(crate) fn draw(ready: ByPlayer<bool>) -> Outcome {
    Outcome::Draw {
        ready,
        nagashi: nobody(),
        riichi: nobody(),
    }
}

/// What the table shows in the first deal, but for counters and sticks.
pub(crate) fn with(counters: u8, sticks: u8) -> Progress {
    let mut progress = Progress::first(&TableRules::club());
    progress.state.counters = counters;
    progress.state.sticks = sticks;
    progress
}

/// The fourth dealer of a round.
pub(crate) fn last_dealer(round: Wind, points: ByPlayer<i32>) -> Progress {
    let mut progress = Progress::first(&TableRules::online());
    progress.state.round = round;
    progress.state.dealer = Player::Fourth;
    progress.state.points = points;
    progress
}

/// How far the game has come after an outcome that is accepted.
pub(crate) fn next(
    rt: &impl Abort,
    progress: &Progress,
    rules: &TableRules,
    outcome: &Outcome,
) -> Progress {
    let after = progress.after(rules, outcome).ok();
    after.expect(rt, "an accepted outcome")
}
