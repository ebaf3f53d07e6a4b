//! What is found of a question of chances, before any of it is put.
ghost use Rattle.std.specs.Prelude.{◌≡◌, ◌≤◌, ◌-ℤ◌, ◌&&◌, ℕ, IfOk, OnErr, length, nat_le, pos, true};
ghost use Rattle.riichi_shape.specs.Answer.{shape_answer_of};
ghost use Rattle.riichi_chances.specs.Graph.{most_hands_in};
ghost use Rattle.riichi_chances.specs.Reachable.{ComesToTooMany};
ghost use Rattle.riichi_study.specs.ChanceTexts.{are_counted};
ghost use Rattle.desk_study.specs.Found as spec;

use arrayvec::ArrayVec;
use riichi_chances::{
    Chances, DiscardChances, DiscardOdds, HandPlace, Rows, TooManyHands, chances_of,
    discard_chances, each_odds_at, unseen_tiles,
};
use riichi_hand::ShapeRecord;
use riichi_shape::{Accepts, RowSource, ShapeAnswer, shape_with};
use riichi_study::Turns;

/// Chances are counted for hands that are no farther from a win.
const MOST_SHANTEN: i8 = 3;

/// How likely a hand is to be ready, and to win, by each number of turns.
#[derive(Drop)]
pub(crate) enum FoundByTurn {
    /// It isn't counted: the hand is too far from a win, or more turns are to come than there are tiles.
    Uncounted,
    /// Of thirteen tiles.
    Hand(Chances),
    /// Of fourteen tiles, after each of their best discards.
    Discards(ArrayVec<DiscardChances, 14>),
}

impl FoundByTurn {
    /// After each discard.
    pub fn discards(&self) -> &[DiscardChances]
        ensures each { result.now ≡ spec.each_in self.now }
        ensures few { length result.now ≤ 14 }
    {
        match self {
            FoundByTurn::Uncounted | FoundByTurn::Hand(_) => &[],
            FoundByTurn::Discards(each) => each.as_slice(),
        }
    }

    /// After each discard by so many turns.
    pub fn discards_at(&self, turns: u8) -> ArrayVec<DiscardOdds, 14>
        requires { turns ≤ 18 }
        ensures { result.items ≡ spec.each_of turns self.now }
    {
        each_odds_at(self.discards(), turns)
    }
}

/// What is found of a question of chances.
#[derive(Drop)]
pub(crate) struct FoundChances {
    pub shanten: i8,
    pub turns: Turns,
    pub unseen: u8,
    pub by_turn: FoundByTurn,
}

/// Finds how likely a hand is to be ready, and to win, by so many draws. The hands that it may come to stand in places that are lent.
pub(crate) fn find_chances<S: RowSource>(
    places: &mut [HandPlace],
    rows: &mut [Rows],
    source: &mut S,
    hand: &ShapeRecord,
    turns: Turns,
) -> Result<FoundChances, TooManyHands>
    ensures found { IfOk result (spec.IsFound hand.now turns) }
    ensures many { OnErr result
        (ComesToTooMany (most_hands_in (length places.old) (length rows.old)) hand.now) }
{
    let _shape = hand.tiles();
    let answer = shape_with(source, hand);
    let unseen = unseen_tiles(hand);
    let by_turn = if are_counted(answer.shanten, turns.count(), unseen) {
        count(places, rows, source, hand, turns, &answer)?
    } else {
        FoundByTurn::Uncounted
    };
    Ok(FoundChances {
        shanten: answer.shanten,
        turns,
        unseen,
        by_turn,
    })
}

/// Whether chances are counted for a hand of this shanten, where so many turns are to come and so many tiles are unseen.
pub(crate) fn are_counted(shanten: i8, turns: u8, unseen: u8) -> bool
    ensures { (lack : ℕ) → shanten ≡ pos lack -ℤ pos 1
        → result ≡ (nat_le lack 4 && nat_le turns unseen) }
{
    shanten <= MOST_SHANTEN && turns <= unseen
}

/// Counts them for a hand of this answer.
fn count<S: RowSource>(
    places: &mut [HandPlace],
    rows: &mut [Rows],
    source: &mut S,
    hand: &ShapeRecord,
    turns: Turns,
    answer: &ShapeAnswer,
) -> Result<FoundByTurn, TooManyHands>
    requires answer { answer.now ≡ shape_answer_of hand.now }
    requires counted { are_counted hand.now turns ≡ true }
    ensures found { IfOk result (spec.AreFound hand.now turns) }
    ensures parts { IfOk result (spec.AreParts turns) }
    ensures many { OnErr result
        (ComesToTooMany (most_hands_in (length places.old) (length rows.old)) hand.now) }
{
    let _shape = hand.tiles();
    let draws = turns.count();
    let _unseen = unseen_tiles(hand);
    match &answer.accepts {
        Accepts::Thirteen(_) => {
            let chances = chances_of(places, rows, source, hand, draws)?;
            Ok(FoundByTurn::Hand(chances))
        }
        Accepts::Fourteen(_) => {
            let each = discard_chances(places, rows, source, hand, draws)?;
            Ok(FoundByTurn::Discards(each))
        }
    }
}
