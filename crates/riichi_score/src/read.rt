//! The reading that has the best score of a win.
ghost use Rattle.std.specs.Prelude.{◌≡◌, ◌≤◌};
ghost use Rattle.riichi_score.specs.Best as best_spec;
ghost use Rattle.riichi_score.specs.Read as spec;
ghost use Rattle.riichi_score.specs.Worths.{leading_answer, leading_base};

use crate::leading::{Leading, LeadingReading, leading_reading};
use crate::score::Score;
use riichi_hand::WinRecord;
use riichi_split::Reading;

/// What a win is worth, as [`best`](crate::best) answers, with the reading that is worth so much.
#[derive(Clone, Copy, Debug, PartialEq, Eq)]
pub enum BestReading {
    Won { reading: Reading, score: Score },
    /// The hand has a reading, and none with a yaku.
    NoYaku,
    /// The hand has no reading.
    NoWin,
}

impl LeadingReading {
    /// The answer, with the reading.
    fn read(self, win: &WinRecord) -> BestReading
        requires { leading_base self.best ≤ 800000 }
        ensures value { spec.answer_without_reading result ≡ leading_answer self.best win.now }
        ensures reading { spec.IsScored win.now self.reading self.best
            → spec.HasItsScore win.now result }
    {
        let LeadingReading { reading, best } = self;
        match best {
            Leading::Won(worth) => BestReading::Won {
                reading,
                score: worth.score(win),
            },
            Leading::NoYaku => BestReading::NoYaku,
            Leading::NoWin => BestReading::NoWin,
        }
    }
}

/// The best score of a win, and a reading of the hand that has it: the first that is found, where
/// several have.
pub fn best_reading(win: &WinRecord) -> BestReading
    ensures value { spec.answer_without_reading result ≡ best_spec.best_of win.now }
    ensures greatest { best_spec.IsBest win.now (spec.answer_without_reading result) }
    ensures reading { spec.HasItsScore win.now result }
{
    leading_reading(win).read(win)
}
