//! What a win by self-draw is worth to a hand.
ghost use Rattle.std.specs.Prelude.{◌≡◌, ◌≤◌};
ghost use Rattle.riichi_worth.specs.Prizes as spec;

use riichi_hand::{By, Flags, Rules, ShapeRecord, WinParts, WinRecord, Wind};
use riichi_score::{WinAnswer, best};
use riichi_tiles::{Counts, Kind, Reds};

/// No win by self-draw, without counters and sticks, gains more points.
pub const MOST_PRIZE: u32 = 5_000_000;

/// What the points of a win hang on beside the hand.
#[derive(Clone, Copy, Debug, PartialEq, Eq)]
pub struct Stakes {
    pub rules: Rules,
    /// The player's wind.
    pub seat: Wind,
    /// The prevalent wind.
    pub round: Wind,
    /// The dora indicators.
    pub dora: Counts,
}

impl Stakes {
    /// The points that thirteen tiles gain by the draw of a kind: with riichi where nothing is called. 0 where that is no win, where
    /// it has no yaku, or where it can't be.
    #[tactic(auto, using(crate::proofs::PrizeLemmas::prize_few), unfolding(crate::specs::Prizes::prize_of))]
    pub fn prize(&self, hand: &ShapeRecord, kind: Kind) -> u32
        ensures value { result ≡ spec.prize_of self.now hand.now.tiles hand.now.melds kind }
        ensures most { result ≤ MOST_PRIZE }
    {
        match WinRecord::new(self.win(hand, kind)) {
            Ok(win) => gain_of(&best(&win)),
            Err(_) => 0,
        }
    }

    /// The parts of that win.
    fn win(&self, hand: &ShapeRecord, kind: Kind) -> WinParts
        ensures { result ≡ spec.win_drawn self.now hand.now.tiles hand.now.melds kind }
    {
        let melds = hand.melds();
        WinParts {
            rules: self.rules,
            concealed: hand.tiles(),
            melds,
            winning: kind,
            by: By::Tsumo,
            seat: self.seat,
            round: self.round,
            riichi: if melds.concealed() { 1 } else { 0 },
            flags: Flags::none(),
            dora: self.dora,
            ura: Counts::new(),
            counters: 0,
            sticks: 0,
            reds: Reds::none(),
        }
    }
}

/// The points of an answer.
fn gain_of(answer: &WinAnswer) -> u32
    ensures { result ≡ spec.gain_told answer.now }
{
    match answer {
        WinAnswer::Won(score) => score.gain,
        WinAnswer::NoYaku | WinAnswer::NoWin => 0,
    }
}
