//! What a reading is worth, without what is paid for it.
ghost use Rattle.std.specs.Prelude.{◌≡◌, ◌≤◌};
ghost use Rattle.riichi_tiles.specs.Melds.{are_concealed};
ghost use Rattle.riichi_blocks.specs.Held.{all_tiles};
ghost use Rattle.riichi_score.specs.Best as best_spec;
ghost use Rattle.riichi_score.specs.Dora.{dora_of};
ghost use Rattle.riichi_score.specs.Fu.{HasFourSets};
ghost use Rattle.riichi_score.specs.Limits.{limits_of};
ghost use Rattle.riichi_score.specs.Scores.{score_of};
ghost use Rattle.riichi_score.specs.Worths as spec;

use crate::limits::yakuman_limits;
use crate::points::fu_among;
use crate::score::Score;
use crate::{base_points, dora, gain, han, payment};
use riichi_blocks::{AllTiles, Blocks, all_tiles, push_blocks};
use riichi_hand::WinRecord;
use riichi_split::Reading;
use riichi_yaku::{YakuSet, yaku_among};

/// A score without what is paid for it, which follows from the win and the base points.
#[derive(Clone, Copy)]
pub(crate) struct Worth {
    pub han: u8,
    pub fu: u8,
    pub base: u32,
    pub yaku: YakuSet,
    pub dora: u8,
}

impl Worth {
    pub(crate) fn is_above(&self, other: &Worth) -> bool
        ensures { result
            ≡ best_spec.is_above (spec.worth_order self.now) (spec.worth_order other.now) }
    {
        if self.base != other.base {
            return self.base > other.base;
        }
        let (above, below) = (self.yaku.is_yakuman(), other.yaku.is_yakuman());
        if above != below {
            return above;
        }
        if self.han != other.han {
            return self.han > other.han;
        }
        if self.fu != other.fu {
            return self.fu > other.fu;
        }
        self.yaku.bits() > other.yaku.bits()
    }

    /// The whole score.
    pub(crate) fn score(self, win: &WinRecord) -> Score
        requires { self.base ≤ 800000 }
        ensures { result ≡ spec.score_with self win.now }
    {
        let payment = payment(self.base, win);
        let gain = gain(&payment, win.sticks());
        Score {
            han: self.han,
            fu: self.fu,
            base: self.base,
            yaku: self.yaku,
            dora: self.dora,
            payment,
            gain,
        }
    }
}

/// The score of a reading of the win, whose sets and melds are four, if it has a yaku.
pub fn score_of(reading: &Reading, win: &WinRecord) -> Option<Score>
    requires { HasFourSets reading.now win.now }
    ensures { result ≡ score_of reading.now win.now }
{
    let worth = worth_of(reading, &all_tiles(win), win, dora(win))?;
    Some(worth.score(win))
}

/// What a reading is worth, if it has a yaku. All tiles and the dora are those of the win.
#[tactic(auto, unfolding(crate::specs::Scores::score_of))]
pub(crate) fn worth_of(
    reading: &Reading,
    tiles: &AllTiles,
    win: &WinRecord,
    dora: u8,
) -> Option<Worth>
    requires sets { HasFourSets reading.now win.now }
    requires tiles { tiles.now ≡ all_tiles win.now }
    requires dora { dora ≡ dora_of win.now }
    requires most { dora ≤ 52 }
    ensures value { spec.score_if result win.now ≡ score_of reading.now win.now }
    ensures most { spec.base_if result ≤ 800000 }
{
    let mut blocks = Blocks::new();
    push_blocks(&mut blocks, reading, win);
    let yaku = yaku_among(&blocks, reading, tiles, win);
    let concealed = win.melds().concealed();
    let fu = fu_among(&blocks, reading, concealed, win);
    valued(reading, yaku, fu, dora, concealed, win)
}

fn valued(
    reading: &Reading,
    yaku: YakuSet,
    fu: u8,
    dora: u8,
    concealed: bool,
    win: &WinRecord,
) -> Option<Worth>
    requires most { dora ≤ 52 }
    requires concealed { concealed ≡ are_concealed win.now.melds }
    ensures value { result
        ≡ spec.worth_if (limits_of reading.now win.now yaku) yaku fu dora win.now }
    ensures most { spec.base_if result ≤ 800000 }
{
    if yaku.is_empty() {
        None
    } else if yaku.is_yakuman() {
        Some(yakuman_worth(yakuman_limits(reading, win, yaku), yaku))
    } else {
        Some(counted(yaku, fu, dora, concealed, win))
    }
}

/// A yakuman, one or several, of so many limits.
fn yakuman_worth(limits: u32, yaku: YakuSet) -> Worth
    requires { limits ≤ 100 }
    ensures value { result ≡ spec.limit_worth limits yaku }
    ensures most { result.base ≤ 800000 }
{
    Worth {
        han: 0,
        fu: 0,
        base: 8000 * limits,
        yaku,
        dora: 0,
    }
}

/// A counted hand.
fn counted(yaku: YakuSet, fu: u8, dora: u8, concealed: bool, win: &WinRecord) -> Worth
    requires most { dora ≤ 52 }
    requires concealed { concealed ≡ are_concealed win.now.melds }
    ensures value { result ≡ spec.counted_worth yaku fu dora win.now }
    ensures most { result.base ≤ 800000 }
{
    let han = han(yaku, concealed, dora);
    Worth {
        han,
        fu,
        base: base_points(win.rules(), han, fu),
        yaku,
        dora,
    }
}
