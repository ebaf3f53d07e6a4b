//! The best reading of a win, found by one walk over its readings.
ghost use Rattle.std.specs.Prelude.{◌≡◌, ◌≤◌};
ghost use Rattle.riichi_hand.specs.declared.win.WinParts.{WinParts};
ghost use Rattle.riichi_score.specs.Best as best_spec;
ghost use Rattle.riichi_score.specs.Read.{IsScored};
ghost use Rattle.riichi_score.specs.Scores.{score_of, IsReadingOf};
ghost use Rattle.riichi_score.specs.Worths as spec;

use crate::answer::{WinAnswer, hand_of};
use crate::dora;
use crate::worth::{Worth, worth_of};
use riichi_blocks::all_tiles;
use riichi_hand::WinRecord;
use riichi_split::{Reading, Readings};

/// What the best of some readings is worth.
#[derive(Clone, Copy)]
pub(crate) enum Leading {
    Won(Worth),
    /// There are readings, and none has a yaku.
    NoYaku,
    /// There is no reading.
    NoWin,
}

impl Leading {
    /// The answer, with what is paid.
    pub(crate) fn answer(self, win: &WinRecord) -> WinAnswer
        requires { spec.leading_base self ≤ 800000 }
        ensures { result ≡ spec.leading_answer self win.now }
    {
        match self {
            Leading::Won(worth) => WinAnswer::Won(worth.score(win)),
            Leading::NoYaku => WinAnswer::NoYaku,
            Leading::NoWin => WinAnswer::NoWin,
        }
    }
}

/// What the best of some readings is worth, and which it is. The reading means nothing where none
/// has a yaku.
#[derive(Clone, Copy)]
pub(crate) struct LeadingReading {
    pub(crate) reading: Reading,
    pub(crate) best: Leading,
}

impl LeadingReading {
    /// That of no readings.
    fn none() -> LeadingReading
        ensures { result.best ≡ Leading.NoWin }
    {
        LeadingReading {
            reading: Reading::SevenPairs,
            best: Leading::NoWin,
        }
    }

    /// The greater of this and one more reading.
    fn better(self, reading: Reading, worth: Option<Worth>) -> LeadingReading
        requires most { spec.leading_base self.best ≤ 800000 }
        requires worth { spec.base_if worth ≤ 800000 }
        ensures value { (win : WinParts) → spec.leading_answer result.best win
            ≡ best_spec.better (spec.leading_answer self.best win) (spec.score_if worth win) }
        ensures most { spec.leading_base result.best ≤ 800000 }
        ensures scored { (win : WinParts) → IsReadingOf win reading
            → spec.score_if worth win ≡ score_of reading win
            → IsScored win self.reading self.best → IsScored win result.reading result.best }
    {
        match (self.best, worth) {
            (Leading::Won(best), Some(worth)) => {
                if worth.is_above(&best) {
                    LeadingReading {
                        reading,
                        best: Leading::Won(worth),
                    }
                } else {
                    self
                }
            }
            (Leading::Won(_), None) => self,
            (_, Some(worth)) => LeadingReading {
                reading,
                best: Leading::Won(worth),
            },
            (_, None) => LeadingReading {
                reading,
                best: Leading::NoYaku,
            },
        }
    }
}

/// The best of all readings of a win.
#[inline(always)]
pub(crate) fn leading_reading(win: &WinRecord) -> LeadingReading
    ensures value { spec.leading_answer result.best win.now ≡ best_spec.best_of win.now }
    ensures greatest { best_spec.IsBest win.now (spec.leading_answer result.best win.now) }
    ensures most { spec.leading_base result.best ≤ 800000 }
    ensures scored { IsScored win.now result.reading result.best }
{
    let dora = dora(win);
    let tiles = all_tiles(win);
    let hand = hand_of(win);
    let mut leading = LeadingReading::none();
    for reading in Readings::new(&hand, &win.melds(), win.winning()) {
        let worth = worth_of(&reading, &tiles, win, dora);
        leading = leading.better(reading, worth);
    }
    leading
}
