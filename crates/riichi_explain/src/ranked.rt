//! The readings of a win by what they are worth.
ghost use Rattle.std.specs.Prelude.{◌≡◌, ◌+◌, ◌<◌, ◌≤◌, ℕ, true, false, All, length, slice_index_or};
ghost use Rattle.std.specs.List.{insert};
ghost use Rattle.riichi_score.specs.Best as best_spec;
ghost use Rattle.riichi_score.specs.Fu.{HasFourSets};
ghost use Rattle.riichi_score.specs.Scores as score_spec;
ghost use Rattle.riichi_explain.specs.Ranked as spec;
ghost use Rattle.riichi_explain.specs.RankedAnswer.{ranked_answer};
ghost use Rattle.riichi_explain.specs.declared.ranked.RankedReading.{RankedReading};

use arrayvec::ArrayVec;
use riichi_hand::WinRecord;
use riichi_score::{Score, hand_of, score_of};
use riichi_split::{Reading, Readings};

/// The most readings that a hand has.
pub const MOST_READINGS: usize = 8;

/// A reading of a hand, and its score where it has a yaku.
#[derive(Clone, Copy)]
pub struct RankedReading {
    pub reading: Reading,
    pub score: Option<Score>,
}

impl Default for RankedReading {
    ghost use Rattle.std.specs.Prelude.{None};
    ghost use Rattle.riichi_split.specs.declared.reading.Reading.TheVariants.{SevenPairs};

    ghost is_default = { λ one. one ≡ record { reading = SevenPairs; score = None } };

    fn default() -> Self {
        RankedReading {
            reading: Reading::default(),
            score: None,
        }
    }
}

/// The readings of a win, the best first.
pub type Ranking = ArrayVec<RankedReading, MOST_READINGS>;

/// Every reading of a win with its score, none worth more than the one before it.
pub fn ranked_readings(win: &WinRecord) -> Ranking
    ensures ranked { spec.AreRanked win.now result.items }
    ensures best { ranked_answer result.items ≡ best_spec.best_of win.now }
    ensures greatest { best_spec.IsBest win.now (ranked_answer result.items) }
    ensures sets { All (λ one. HasFourSets one.reading win.now) result.items }
{
    let hand = hand_of(win);
    let mut ranked = ArrayVec::new();
    for reading in Readings::new(&hand, &win.melds(), win.winning()) {
        insert(&mut ranked, reading, win);
    }
    ranked
}

/// Puts a reading behind those that are worth as much.
#[tactic(auto, using(crate::proofs::RankLemmas::in_order_insert))]
fn insert(ranked: &mut Ranking, reading: Reading, win: &WinRecord)
    requires sets { HasFourSets reading win.now }
    requires room { length ranked.old.items < MOST_READINGS }
    requires in_order { spec.AreInOrder ranked.old.items }
    ensures items { (place : ℕ) × (ranked.new.items ≡ insert ranked.old.items place
        (record { reading = reading; score = score_spec.score_of reading win.now })) }
    ensures in_order { spec.AreInOrder ranked.new.items }
    ensures len { length ranked.new.items ≡ length ranked.old.items + 1 }
{
    let score = score_of(&reading, win);
    let place = place_of(ranked.as_slice(), &score);
    ranked.insert(place, RankedReading { reading, score });
}

/// The place before the first that is worth less.
fn place_of(ranked: &[RankedReading], score: &Option<Score>) -> usize
    ensures within { result ≤ length ranked.now }
    ensures before { (other : RankedReading) (last : ℕ) → last + 1 ≡ result
        → spec.is_worth_more score.now (slice_index_or ranked.now last other).score ≡ false }
    ensures after { (other : RankedReading) → result < length ranked.now
        → spec.is_worth_more score.now (slice_index_or ranked.now result other).score ≡ true }
{
    for place in 0..ranked.len() {
        if is_worth_more(score, &ranked[place].score) {
            return place;
        }
    }
    ranked.len()
}

fn is_worth_more(score: &Option<Score>, other: &Option<Score>) -> bool
    ensures { result ≡ spec.is_worth_more score.now other.now }
{
    match (score, other) {
        (Some(score), Some(other)) => rank(score).cmp(&rank(other)).is_gt(),
        (Some(_), None) => true,
        (None, _) => false,
    }
}

/// What scores are compared by.
fn rank(score: &Score) -> [u64; 5]
    ensures { result ≡ best_spec.rank score.now }
{
    [
        u64::from(score.base),
        u64::from(score.yaku.is_yakuman()),
        u64::from(score.han),
        u64::from(score.fu),
        score.yaku.bits(),
    ]
}
