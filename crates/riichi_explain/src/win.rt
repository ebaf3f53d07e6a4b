//! Why a win is worth what it is.
ghost use Rattle.std.specs.Prelude.{◌≡◌, ◌≤◌, length};
ghost use Rattle.riichi_score.specs.Best.{best_of, IsBest};
ghost use Rattle.riichi_score.specs.Fu.{HasFourSets};
ghost use Rattle.riichi_score.specs.Scores.{score_of, IsReadingOf};
ghost use Rattle.riichi_explain.specs.Ranked.{AreRanked};
ghost use Rattle.riichi_explain.specs.RankedAnswer.{ranked_answer};
ghost use Rattle.riichi_explain.specs.Win as spec;

use crate::base::{BaseRule, base_rule};
use crate::dora::{DoraRows, dora_rows};
use crate::fu::{FuRows, fu_rows};
use crate::han::{HanRows, han_rows};
use crate::missed::{MissedWin, missed_win};
use crate::payers::{PayRows, pay_rows};
use crate::ranked::{MOST_READINGS, RankedReading, Ranking, ranked_readings};
use arrayvec::ArrayVec;
use riichi_hand::WinRecord;
use riichi_score::{BestReading, Score, WinAnswer, best_reading};
use riichi_shape::RowSource;
use riichi_split::Reading;

/// A win that scores: a reading that has its score, and the rows that give it.
#[derive(Drop)]
pub struct WonHand {
    pub win: WinRecord,
    pub reading: Reading,
    pub score: Score,
    /// Each yaku, and the dora. Of a yakuman the names alone.
    pub han: HanRows,
    /// Where the dora come from. A yakuman has none.
    pub dora: DoraRows,
    /// None of a yakuman.
    pub fu: FuRows,
    pub base: BaseRule,
    pub payers: PayRows,
}

/// Why a win is worth what it is.
#[derive(Drop)]
pub enum WinExplanation {
    Won(WonHand),
    /// Every reading of the hand: none has a yaku.
    NoYaku(Ranking),
    /// The hand has no reading: how far it is from each form, and what it waits for.
    NoWin(MissedWin),
}

impl WinExplanation {
    ghost use Rattle.riichi_explain.specs.Win.{explained_answer, explained_reading};

    /// The answer that is explained.
    pub fn answer(&self) -> WinAnswer
        ensures { result ≡ explained_answer self.now }
    {
        match self {
            WinExplanation::Won(hand) => WinAnswer::Won(hand.score),
            WinExplanation::NoYaku(_) => WinAnswer::NoYaku,
            WinExplanation::NoWin(_) => WinAnswer::NoWin,
        }
    }

    /// The reading that scores.
    pub fn reading(&self) -> Option<Reading>
        ensures { result ≡ explained_reading self.now }
    {
        match self {
            WinExplanation::Won(hand) => Some(hand.reading),
            WinExplanation::NoYaku(_) | WinExplanation::NoWin(_) => None,
        }
    }
}

/// Why `best` answers what it answers. Where the hand is no win, the rows of a source say how far it is from each form.
pub fn explain_win<R: RowSource>(source: &mut R, win: &WinRecord) -> WinExplanation
    ensures answer { spec.explained_answer result ≡ best_of win.now }
    ensures explains { spec.Explains win.now result }
    ensures stays { source.new ≡ source.old }
{
    match best_reading(win) {
        BestReading::Won { reading, score } => WinExplanation::Won(won_hand(win, reading, score)),
        BestReading::NoYaku => WinExplanation::NoYaku(ranked_readings(win)),
        BestReading::NoWin => WinExplanation::NoWin(missed_win(source, win)),
    }
}

/// The same by the readings of the win, the best first, so that none of them is scored again.
#[tactic(auto, using(crate::proofs::BestRanked::each_is_reading))]
pub fn explain_ranked<R: RowSource>(
    source: &mut R,
    win: &WinRecord,
    ranked: &[RankedReading],
) -> WinExplanation
    requires few { length ranked.now ≤ MOST_READINGS }
    requires ranked { AreRanked win.now ranked.now }
    requires best { ranked_answer ranked.now ≡ best_of win.now }
    requires greatest { IsBest win.now (ranked_answer ranked.now) }
    ensures answer { spec.explained_answer result ≡ best_of win.now }
    ensures explains { spec.Explains win.now result }
    ensures stays { source.new ≡ source.old }
{
    match ranked.first() {
        None => WinExplanation::NoWin(missed_win(source, win)),
        Some(first) => match first.score {
            Some(score) => WinExplanation::Won(won_hand(win, first.reading, score)),
            None => WinExplanation::NoYaku(copied(ranked)),
        },
    }
}

fn copied(ranked: &[RankedReading]) -> Ranking
    requires { length ranked.now ≤ MOST_READINGS }
    ensures { result.items ≡ ranked.now }
{
    let mut all = ArrayVec::new();
    all.try_extend_from_slice(ranked).unwrap();
    all
}

fn won_hand(win: &WinRecord, reading: Reading, score: Score) -> WonHand
    requires reading { IsReadingOf win.now reading }
    requires score { score_of reading win.now ≡ Some score }
    ensures shown { result.score ≡ score }
    ensures explains { spec.IsWonHand win.now result }
{
    let yakuman = score.yaku.is_yakuman();
    let han = han_rows(score.yaku, win);
    let dora = counted_dora(yakuman, win);
    let fu = counted_fu(yakuman, &reading, win);
    let base = base_rule(&reading, &score, win);
    let payers = pay_rows(score.base, win);
    WonHand {
        win: *win,
        reading,
        score,
        han,
        dora,
        fu,
        base,
        payers,
    }
}

/// The rows of dora, of which a yakuman counts none.
fn counted_dora(yakuman: bool, win: &WinRecord) -> DoraRows
    ensures { result.items ≡ spec.counted_dora yakuman win.now }
{
    if !yakuman {
        dora_rows(win)
    } else {
        ArrayVec::new()
    }
}

/// The rows of fu, of which a yakuman counts none.
pub(crate) fn counted_fu(yakuman: bool, reading: &Reading, win: &WinRecord) -> FuRows
    requires { HasFourSets reading.now win.now }
    ensures { result.items ≡ spec.counted_fu yakuman reading.now win.now }
{
    if yakuman {
        ArrayVec::new()
    } else {
        fu_rows(reading, win)
    }
}
