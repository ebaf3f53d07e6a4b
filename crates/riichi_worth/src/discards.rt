//! What fourteen tiles are worth after each best discard.
ghost use Rattle.std.specs.Prelude.{◌≡◌, ℕ, ◌<◌, ◌≤◌, All, Contains, IfOk, OnErr, OnOk, length, map, true};
ghost use Rattle.riichi_hand.specs.Hand.{size};
ghost use Rattle.riichi_shape.specs.Discards.{discards_of};
ghost use Rattle.riichi_shape.specs.EveryWinning.{distance_of};
ghost use Rattle.riichi_deeper.specs.Drawn.{parts_without};
ghost use Rattle.riichi_chances.specs.Draws.{is_there, unseen_of};
ghost use Rattle.riichi_chances.specs.Graph.{discard_kinds};
ghost use Rattle.riichi_chances.specs.Reachable.{HaveNoRoom, HaveRoom, SomeHaveNoRoom, by_itself, groups_of, together};
ghost use Rattle.riichi_worth.specs.Worths as spec;

use crate::counting::put_points;
use crate::row::WorthRow;
use crate::stakes::Stakes;
use crate::worth::{Worth, hand_worth, worth_at};
use arrayvec::ArrayVec;
use riichi_chances::{
    Fraction, Graph, HandPlace, Span, TooManyHands, is_won, places_of, unseen_tiles,
};
use riichi_deeper::without_tile;
use riichi_hand::ShapeRecord;
use riichi_shape::{Accepts, DiscardList, RowSource, shape_with};
use riichi_tiles::Kind;

/// What a hand is worth after a discard.
#[derive(Clone, Copy, Debug, PartialEq, Eq, Drop)]
pub struct DiscardWorth {
    pub kind: Kind,
    pub worth: Worth,
}

impl Default for DiscardWorth {
    fn default() -> DiscardWorth {
        DiscardWorth {
            kind: Kind::at(0),
            worth: Worth {
                points: 0,
                rest: Fraction { part: 0, whole: 1 },
            },
        }
    }
}

/// What fourteen tiles are worth by so many draws after each best discard, which is then seen, in the order of the discards of the
/// hand's shape.
pub fn discard_worths<R: RowSource>(
    places: &mut [HandPlace],
    rows: &mut [WorthRow],
    source: &mut R,
    asked: &ShapeRecord,
    stakes: &Stakes,
    turns: u8,
) -> Result<ArrayVec<DiscardWorth, 14>, TooManyHands>
    requires fourteen { size asked.now.tiles asked.now.melds ≡ 14 }
    requires turns { turns ≤ 18 }
    requires drawn { turns ≤ unseen_of asked.now }
    ensures worths { IfOk result
        (λ each. each.items ≡ spec.best_worths stakes.now asked.now turns) }
    ensures few { OnOk result (All (HaveRoom places.old rows.old) (groups_of asked.now)) }
    ensures many { OnErr result (SomeHaveNoRoom places.old rows.old asked.now) }
    ensures stays { source.new ≡ source.old }
{
    let answer = shape_with(source, asked);
    match &answer.accepts {
        Accepts::Fourteen(discards) => {
            if is_won(answer.shanten) {
                each_alone(places, rows, source, asked, discards, stakes, turns)
            } else {
                all_together(places, rows, source, asked, discards, stakes, turns)
            }
        }
        Accepts::Thirteen(_) => unreachable!(),
    }
}

/// Of a won hand: each discard leaves a ready hand, which may accept what was thrown, so it is asked by itself.
fn each_alone<R: RowSource>(
    places: &mut [HandPlace],
    rows: &mut [WorthRow],
    source: &mut R,
    asked: &ShapeRecord,
    discards: &DiscardList,
    stakes: &Stakes,
    turns: u8,
) -> Result<ArrayVec<DiscardWorth, 14>, TooManyHands>
    requires fourteen { size asked.now.tiles asked.now.melds ≡ 14 }
    requires discards { discards.now
        ≡ discards_of asked.now.tiles asked.now.melds asked.now.seen }
    requires turns { turns ≤ 18 }
    requires drawn { turns ≤ unseen_of asked.now }
    ensures worths { IfOk result (λ each. each.items
        ≡ map (spec.worth_after stakes.now asked.now turns) (discard_kinds discards.now)) }
    ensures few { OnOk result ((kind : ℕ) → Contains (discard_kinds discards.now) kind
        → HaveRoom places.old rows.old (by_itself (parts_without asked.now kind))) }
    ensures many { OnErr result ((kind : ℕ) × Contains (discard_kinds discards.now) kind
        × HaveNoRoom places.old rows.old (by_itself (parts_without asked.now kind))) }
    ensures stays { source.new ≡ source.old }
{
    let _unseen = unseen_tiles(asked);
    let mut each = ArrayVec::new();
    for at in 0..discards.len() {
        match discards.short_at(at) {
            Some(discard) => {
                let kind = discard.kind;
                let rest = without_tile(asked, kind);
                let worth = hand_worth(places, rows, source, &rest, stakes, turns)?;
                each.push(DiscardWorth { kind, worth });
            }
            None => unreachable!(),
        }
    }
    Ok(each)
}

/// Of any other hand: what was thrown is accepted no more, so one graph has the hands of all discards.
fn all_together<R: RowSource>(
    places: &mut [HandPlace],
    rows: &mut [WorthRow],
    source: &mut R,
    asked: &ShapeRecord,
    discards: &DiscardList,
    stakes: &Stakes,
    turns: u8,
) -> Result<ArrayVec<DiscardWorth, 14>, TooManyHands>
    requires fourteen { size asked.now.tiles asked.now.melds ≡ 14 }
    requires far { 0 < distance_of asked.now.tiles asked.now.melds }
    requires discards { discards.now
        ≡ discards_of asked.now.tiles asked.now.melds asked.now.seen }
    requires turns { turns ≤ 18 }
    requires drawn { turns ≤ unseen_of asked.now }
    ensures worths { IfOk result (λ each. each.items
        ≡ map (spec.worth_after stakes.now asked.now turns) (discard_kinds discards.now)) }
    ensures few { OnOk result (HaveRoom places.old rows.old (together asked.now)) }
    ensures many { OnErr result (HaveNoRoom places.old rows.old (together asked.now)) }
    ensures stays { source.new ≡ source.old }
{
    let unseen = unseen_tiles(asked);
    let span = Span { unseen, turns };
    let mut graph = Graph::new(places, rows.len());
    let left = places_of(source, &mut graph, asked, discards)?;
    put_points(rows, &graph, source, asked, stakes, span);
    Ok(each_at(rows, left.as_slice(), discards, span))
}

/// What the hands at some places are worth, each with the kind of its discard.
fn each_at(
    rows: &[WorthRow],
    places: &[u16],
    discards: &DiscardList,
    span: Span,
) -> ArrayVec<DiscardWorth, 14>
    requires turns { span.turns ≤ 18 }
    requires unseen { span.unseen ≤ 136 }
    requires drawn { span.turns ≤ span.unseen }
    requires each { length places.now ≡ length discards.now }
    requires few { spec.AreFew rows.now places.now span }
    ensures { result.items ≡ spec.told_at rows.now span places.now (discard_kinds discards.now) }
{
    let mut each = ArrayVec::new();
    for at in 0..discards.len() {
        match discards.short_at(at) {
            Some(discard) => {
                let kind = discard.kind;
                let worth = worth_at(rows, places[at], span);
                each.push(DiscardWorth { kind, worth });
            }
            None => unreachable!(),
        }
    }
    each
}
