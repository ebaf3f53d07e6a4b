//! The best score of a win.
ghost use Rattle.std.specs.Prelude.{◌≡◌};
ghost use Rattle.riichi_tiles.specs.Tiles.{IsCounts};
ghost use Rattle.riichi_hand.specs.Win.{IsWinRecord};
ghost use Rattle.riichi_score.specs.Best as spec;
ghost use Rattle.riichi_score.specs.Scores.{completed_hand};

use crate::leading::leading_reading;
use crate::score::Score;
use riichi_hand::WinRecord;
use riichi_tiles::Counts;

/// What a win is worth.
#[derive(Clone, Copy, Debug, PartialEq, Eq)]
pub enum WinAnswer {
    Won(Score),
    /// The hand has a reading, and none with a yaku.
    NoYaku,
    /// The hand has no reading.
    NoWin,
}

/// The greatest score among the readings that have a yaku: by base points, then a yakuman before a
/// counted hand, then by han, fu, and the set of yaku as a number.
pub fn best(win: &WinRecord) -> WinAnswer
    ensures value { result ≡ spec.best_of win.now }
    ensures greatest { spec.IsBest win.now result }
{
    leading_reading(win).best.answer(win)
}

/// The concealed tiles with the winning tile.
#[tactic(auto, using(crate::proofs::Wins::room_for_winning))]
pub fn hand_of(win: &WinRecord) -> Counts
    ensures value { result ≡ completed_hand win.now }
    ensures counts { IsCounts result }
    ensures win { IsWinRecord win.now }
{
    let _told = win.parts();
    let mut hand = win.concealed();
    hand.add(win.winning());
    hand
}
