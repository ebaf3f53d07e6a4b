//! The numbers of each hand by those of the hands that it leads to.
ghost use Rattle.std.specs.Prelude.{ℕ, ◌≡◌, ◌^◌, ◌<◌, ◌≤◌, List, length};
ghost use Rattle.riichi_hand.specs.HandParts.{ShapeParts};
ghost use Rattle.riichi_chances.specs.Aims.{HasRows, numbers_for};
ghost use Rattle.riichi_chances.specs.Bests as best;
ghost use Rattle.riichi_chances.specs.Graph as spec;
ghost use Rattle.riichi_chances.specs.Numbers as numbers;
ghost use Rattle.riichi_chances.specs.declared.rows.Column.{Column};
ghost use Rattle.riichi_chances.specs.declared.rows.Column.TheVariants.{Win, WinAtMost};

use crate::graph::Graph;
use crate::halves::Halves;
use crate::node::{Draw, Node};
use crate::rests::Rests;
use crate::rows::{Column, Rows};
use crate::span::{ByTurns, Span};

/// Puts the rows of all hands, in their order.
pub(crate) fn put_rows(rows: &mut [Rows], graph: &Graph<'_>, span: Span)
    requires turns { span.turns ≤ 18 }
    requires unseen { span.unseen ≤ 136 }
    requires graph { (root : ShapeParts) × spec.IsGraph root graph.now }
    requires room { length graph.now.nodes ≤ length rows.old }
    ensures each { length rows.new ≡ length rows.old }
    ensures are { (root : ShapeParts) → spec.IsGraph root graph.now
        → spec.AreRows span root graph.now.hands (length graph.now.nodes) rows.new }
{
    for place in 0..graph.len() {
        rows[place] = rows_of(graph.node(place), &rows[..place], span);
    }
}

/// The rows of a hand by those before it.
fn rows_of(node: &Node, earlier: &[Rows], span: Span) -> Rows
    requires turns { span.turns ≤ 18 }
    requires unseen { span.unseen ≤ 136 }
    requires node { (root : ShapeParts) × (hands : List (List ℕ))
        × spec.IsNodeAt root hands (length earlier.now) node.now
        × spec.AreRows span root hands (length earlier.now) earlier.now }
    ensures { (root : ShapeParts) (hands : List (List ℕ))
        → spec.IsNodeAt root hands (length earlier.now) node.now
        → spec.AreRows span root hands (length earlier.now) earlier.now
        → HasRows span (spec.placed_hand root hands (length earlier.now)) result }
{
    if node.is_ready {
        ready_rows(node.live, span)
    } else {
        far_rows(node.draws.as_slice(), node.live, earlier, span)
    }
}

/// The rows of a ready hand, which wins by any of so many live tiles.
fn ready_rows(live: u8, span: Span) -> Rows
    requires turns { span.turns ≤ 18 }
    requires unseen { span.unseen ≤ 136 }
    requires live { live ≤ 136 }
    ensures ready { numbers.AreAllDraws span result.ready }
    ensures at_most { numbers.AreAllDraws span result.ready_at_most }
    ensures win { best.FollowReady Win span live result.win }
    ensures win_at_most { best.FollowReady WinAtMost span live result.win_at_most }
{
    let all = span.all_draws();
    let earlier = [Rows::all(all)];
    let mut rests = Rests::new();
    rests.push(0);
    let wins = [Draw { live, rests }];
    Rows {
        ready: all,
        win: follow(span, live, &wins, &earlier, Column::Win),
        ready_at_most: all,
        win_at_most: follow(span, live, &wins, &earlier, Column::WinAtMost),
    }
}

/// The rows of a hand that isn't ready, and accepts so many live tiles.
fn far_rows(draws: &[Draw], live: u8, earlier: &[Rows], span: Span) -> Rows
    requires turns { span.turns ≤ 18 }
    requires unseen { span.unseen ≤ 136 }
    requires live { live ≤ 136 }
    requires before { spec.LeadBefore (length earlier.now) draws.now }
    requires few { (column : Column) → best.BeginFew column span live earlier.now draws.now }
    ensures { (column : Column) → best.FollowDraws column span live earlier.now draws.now
        (numbers_for column result) }
{
    Rows {
        ready: follow(span, live, draws, earlier, Column::Ready),
        win: follow(span, live, draws, earlier, Column::Win),
        ready_at_most: follow(span, live, draws, earlier, Column::ReadyAtMost),
        win_at_most: follow(span, live, draws, earlier, Column::WinAtMost),
    }
}

/// The draws of a hand that isn't there: where the first tile isn't one of so many live ones those of the turns behind it,
/// and those that begin with one of these.
fn follow(span: Span, live: u8, draws: &[Draw], earlier: &[Rows], column: Column) -> ByTurns
    requires turns { span.turns ≤ 18 }
    requires unseen { span.unseen ≤ 136 }
    requires live { live ≤ 136 }
    requires before { spec.LeadBefore (length earlier.now) draws.now }
    requires few { best.BeginFew column span live earlier.now draws.now }
    ensures { best.FollowDraws column span live earlier.now draws.now result }
{
    let mut row = [Halves::of(0); 19];
    for left in 0..span.turns {
        let others = span.unseen_at(left + 1).saturating_sub(live) as u128;
        let own = row[left as usize].number();
        let begun = begun(draws, earlier, column, left, column.least(own));
        row[left as usize + 1] = Halves::of(others * own + begun);
    }
    row
}

/// The draws that begin with one of these, where none leads to fewer than so many.
fn begun(draws: &[Draw], earlier: &[Rows], column: Column, left: u8, least: u128) -> u128
    requires left { left < 19 }
    requires before { spec.LeadBefore (length earlier.now) draws.now }
    requires fits { spec.begun_with column earlier.now left least draws.now < 2 ^ 128 }
    ensures { result ≡ spec.begun_with column earlier.now left least draws.now }
{
    let mut sum = 0;
    for draw in draws {
        let number = greatest_at(draw.rests.as_slice(), earlier, column, left, least);
        sum += draw.live as u128 * number;
    }
    sum
}

/// The greatest number of some places, and no less than so many.
fn greatest_at(places: &[u16], earlier: &[Rows], column: Column, left: u8, least: u128) -> u128
    requires left { left < 19 }
    requires before { spec.AreBefore (length earlier.now) places.now }
    ensures { result ≡ spec.greatest_of column earlier.now left least places.now }
{
    let mut number = least;
    for place in places {
        let other = earlier[*place as usize].at(column)[left as usize];
        number = number.max(other.number());
    }
    number
}
