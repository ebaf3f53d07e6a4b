//! What is found of a question of a worth, before any of it is put.
ghost use Rattle.std.specs.Prelude.{◌≡◌, ◌≤◌, IfOk, OnErr, length, true};
ghost use Rattle.riichi_shape.specs.Answer.{shape_answer_of};
ghost use Rattle.riichi_chances.specs.Graph.{most_hands_in};
ghost use Rattle.riichi_chances.specs.Reachable.{ComesToTooMany};
ghost use Rattle.riichi_study.specs.ChanceTexts.{are_counted};
ghost use Rattle.desk_study.specs.FoundWorths as spec;

use crate::found::are_counted;
use arrayvec::ArrayVec;
use riichi_chances::{HandPlace, TooManyHands, unseen_tiles};
use riichi_hand::ShapeRecord;
use riichi_shape::{Accepts, RowSource, ShapeAnswer, shape_with};
use riichi_study::Turns;
use riichi_worth::{DiscardWorth, Stakes, Worth, WorthRow, discard_worths, hand_worth};

/// What a hand is worth.
#[derive(Drop)]
pub(crate) enum FoundWorth {
    /// It isn't counted: the hand is too far from a win, or more turns are to come than there are tiles.
    Uncounted,
    /// Of thirteen tiles.
    Hand(Worth),
    /// Of fourteen tiles, after each of their best discards.
    Discards(ArrayVec<DiscardWorth, 14>),
}

impl FoundWorth {
    /// The discards.
    pub fn discards(&self) -> &[DiscardWorth]
        ensures { result.now ≡ spec.each_of self.now }
    {
        match self {
            FoundWorth::Uncounted | FoundWorth::Hand(_) => &[],
            FoundWorth::Discards(each) => each.as_slice(),
        }
    }
}

/// What is found of a question of a worth.
#[derive(Drop)]
pub(crate) struct FoundWorths {
    pub shanten: i8,
    pub turns: Turns,
    pub unseen: u8,
    pub worth: FoundWorth,
}

/// Finds what a hand is worth by so many draws. The hands that it may come to stand in places that are lent.
pub(crate) fn find_worths<S: RowSource>(
    places: &mut [HandPlace],
    rows: &mut [WorthRow],
    source: &mut S,
    hand: &ShapeRecord,
    stakes: &Stakes,
    turns: Turns,
) -> Result<FoundWorths, TooManyHands>
    ensures found { IfOk result (spec.IsFound hand.now stakes.now turns) }
    ensures many { OnErr result
        (ComesToTooMany (most_hands_in (length places.old) (length rows.old)) hand.now) }
{
    let _shape = hand.tiles();
    let answer = shape_with(source, hand);
    let unseen = unseen_tiles(hand);
    let worth = if are_counted(answer.shanten, turns.count(), unseen) {
        count(places, rows, source, hand, stakes, turns, &answer)?
    } else {
        FoundWorth::Uncounted
    };
    Ok(FoundWorths {
        shanten: answer.shanten,
        turns,
        unseen,
        worth,
    })
}

/// Counts it for a hand of this answer.
fn count<S: RowSource>(
    places: &mut [HandPlace],
    rows: &mut [WorthRow],
    source: &mut S,
    hand: &ShapeRecord,
    stakes: &Stakes,
    turns: Turns,
    answer: &ShapeAnswer,
) -> Result<FoundWorth, TooManyHands>
    requires answer { answer.now ≡ shape_answer_of hand.now }
    requires counted { are_counted hand.now turns ≡ true }
    ensures found { IfOk result (spec.IsWorthFound hand.now stakes.now turns) }
    ensures rests { IfOk result spec.HasRests }
    ensures few { IfOk result (λ worth. length (spec.each_of worth) ≤ 14) }
    ensures many { OnErr result
        (ComesToTooMany (most_hands_in (length places.old) (length rows.old)) hand.now) }
{
    let _shape = hand.tiles();
    let draws = turns.count();
    let _unseen = unseen_tiles(hand);
    match &answer.accepts {
        Accepts::Thirteen(_) => {
            let worth = hand_worth(places, rows, source, hand, stakes, draws)?;
            Ok(FoundWorth::Hand(worth))
        }
        Accepts::Fourteen(discards) => {
            let _few = discards.len();
            let each = discard_worths(places, rows, source, hand, stakes, draws)?;
            Ok(FoundWorth::Discards(each))
        }
    }
}
