//! The points of each hand by those of the hands that it leads to.
ghost use Rattle.std.specs.Prelude.{ℕ, ◌≡◌, ◌*◌, ◌^◌, ◌<◌, ◌≤◌, List, length, slice_index};
ghost use Rattle.riichi_hand.specs.HandParts.{ShapeParts};
ghost use Rattle.riichi_chances.specs.Graph.{AreBefore, IsGraph, IsNode, LeadBefore, placed_hand};
ghost use Rattle.riichi_chances.specs.Numbers.{AreAllDraws, unseen_at};
ghost use Rattle.riichi_worth.specs.CountedPoints.{prizes_of};
ghost use Rattle.riichi_worth.specs.Rows as spec;

use crate::points::Points;
use crate::prizes::prizes;
use crate::row::WorthRow;
use crate::stakes::{MOST_PRIZE, Stakes};
use riichi_chances::{ByTurns, Draw, Graph, Node, Span};
use riichi_hand::ShapeRecord;
use riichi_shape::RowSource;

/// Puts the points of all hands, in their order.
pub(crate) fn put_points<R: RowSource>(
    rows: &mut [WorthRow],
    graph: &Graph<'_>,
    source: &mut R,
    asked: &ShapeRecord,
    stakes: &Stakes,
    span: Span,
)
    requires turns { span.turns ≤ 18 }
    requires unseen { span.unseen ≤ 136 }
    requires graph { IsGraph asked.now graph.now }
    requires room { length graph.now.nodes ≤ length rows.old }
    ensures each { length rows.new ≡ length rows.old }
    ensures are { spec.ArePlaced
        stakes.now span asked.now graph.now.hands (length graph.now.nodes) rows.new }
    ensures stays { source.new ≡ source.old }
{
    let all = span.all_draws();
    for place in 0..graph.len() {
        let node = graph.node(place);
        let begun = if node.is_ready {
            let hand = graph.hand(asked, place);
            won(prizes(source, &hand, stakes), &all, span)
        } else {
            begun(node.draws.as_slice(), &rows[..place], span)
        };
        rows[place] = WorthRow {
            points: follow(span, node.live, &begun),
        };
    }
}

/// The points that begin with a kind that wins, where all such kinds bring so many, for each number of turns that are left then.
fn won(prizes: u64, all: &ByTurns, span: Span) -> [Points; 19]
    requires turns { span.turns ≤ 18 }
    requires unseen { span.unseen ≤ 136 }
    requires few { prizes ≤ 136 * MOST_PRIZE }
    requires all { AreAllDraws span all.now }
    ensures { (left : ℕ) → left < span.turns
        → slice_index result left ≡ prizes * slice_index all.now left }
{
    let mut begun = [Points::NONE; 19];
    for left in 0..span.turns {
        let draws = Points::of(all[left as usize].number());
        begun[left as usize] = Points::NONE.plus_times(prizes, draws);
    }
    begun
}

/// The points that begin with some draws, for each number of turns that are left then.
fn begun(draws: &[Draw], earlier: &[WorthRow], span: Span) -> [Points; 19]
    requires turns { span.turns ≤ 18 }
    requires before { LeadBefore (length earlier.now) draws.now }
    requires fits { (left : ℕ) → left < span.turns
        → spec.begun_points earlier.now left draws.now < 2 ^ 192 }
    ensures { (left : ℕ) → left < span.turns
        → slice_index result left ≡ spec.begun_points earlier.now left draws.now }
{
    let mut begun = [Points::NONE; 19];
    for left in 0..span.turns {
        begun[left as usize] = begun_at(draws, earlier, left);
    }
    begun
}

/// The same for one number of turns.
fn begun_at(draws: &[Draw], earlier: &[WorthRow], left: u8) -> Points
    requires left { left < 19 }
    requires before { LeadBefore (length earlier.now) draws.now }
    requires fits { spec.begun_points earlier.now left draws.now < 2 ^ 192 }
    ensures { result ≡ spec.begun_points earlier.now left draws.now }
{
    let mut sum = Points::NONE;
    for draw in draws {
        sum = sum.plus_times(
            draw.live as u64,
            greatest_at(draw.rests.as_slice(), earlier, left),
        );
    }
    sum
}

/// The greatest points of some places.
fn greatest_at(places: &[u16], earlier: &[WorthRow], left: u8) -> Points
    requires left { left < 19 }
    requires before { AreBefore (length earlier.now) places.now }
    ensures { result ≡ spec.greatest_points earlier.now left places.now }
{
    let mut points = Points::NONE;
    for place in places {
        points = points.max(earlier[*place as usize].at(left));
    }
    points
}

/// The points of a hand: where the first tile isn't one of so many live ones those of the turns behind it, and those that begin with
/// one of these.
fn follow(span: Span, live: u8, begun: &[Points; 19]) -> [Points; 19]
    requires turns { span.turns ≤ 18 }
    requires unseen { span.unseen ≤ 136 }
    requires live { live ≤ 136 }
    requires few { spec.BeginFewPoints span live begun.now }
    ensures { spec.FollowPoints span live begun.now result }
{
    let mut points = [Points::NONE; 19];
    for left in 0..span.turns {
        let others = span.unseen_at(left + 1).saturating_sub(live);
        let next = begun[left as usize].plus_times(u64::from(others), points[left as usize]);
        points[left as usize + 1] = next;
    }
    points
}
