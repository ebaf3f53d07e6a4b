//! The chances of a hand by each number of turns.
ghost use Rattle.std.specs.Prelude.{◌≡◌, ◌<◌, ◌≤◌, IfOk, OnErr, OnOk, length, true};
ghost use Rattle.riichi_hand.specs.Hand.{is_thirteen};
ghost use Rattle.riichi_hand.specs.HandParts.{ShapeParts};
ghost use Rattle.riichi_chances.specs.Chances as spec;
ghost use Rattle.riichi_chances.specs.Draws.{unseen_of};
ghost use Rattle.riichi_chances.specs.Graph.{AreBefore, IsGraph};
ghost use Rattle.riichi_chances.specs.Reachable.{HaveNoRoom, HaveRoom, by_itself};

use crate::building::place_of;
use crate::counting::put_rows;
use crate::fault::TooManyHands;
use crate::goal::Goal;
use crate::graph::Graph;
use crate::hand_place::HandPlace;
use crate::rows::{Column, Rows};
use crate::span::Span;
use crate::unseen::unseen_tiles;
use riichi_hand::ShapeRecord;
use riichi_shape::RowSource;

/// At the place of each number of turns: of all ordered draws of so many unseen tiles those that bring a hand to be ready, and those
/// by which it wins, each by the play that has the most for just these turns; and how many any play that keeps only what brings the
/// hand nearer has at most.
#[derive(Clone, Copy, Debug, PartialEq, Eq, Drop)]
pub struct Chances {
    pub ready: [u128; 19],
    pub win: [u128; 19],
    pub ready_at_most: [u128; 19],
    pub win_at_most: [u128; 19],
    pub all: [u128; 19],
}

impl Chances {
    /// Nothing is told yet.
    pub(crate) fn none() -> Chances
        ensures { spec.AreLong result }
    {
        Chances {
            ready: [0; 19],
            win: [0; 19],
            ready_at_most: [0; 19],
            win_at_most: [0; 19],
            all: [0; 19],
        }
    }

    /// The draws that bring the hand to a goal.
    pub fn reached(&self, goal: Goal) -> &[u128; 19]
        ensures { result.now ≡ spec.reached_of goal self.now }
    {
        match goal {
            Goal::Ready => &self.ready,
            Goal::Win => &self.win,
        }
    }

    /// The most draws that bring the hand to a goal by any play that keeps only what brings it nearer, and then makes a best discard.
    pub fn at_most(&self, goal: Goal) -> &[u128; 19]
        ensures { result.now ≡ spec.most_of goal self.now }
    {
        match goal {
            Goal::Ready => &self.ready_at_most,
            Goal::Win => &self.win_at_most,
        }
    }

    /// Tells those of one number of turns.
    fn tell(&mut self, turns: u8, rows: &Rows, all: u128)
        requires { turns ≤ 18 }
        ensures { spec.IsTold turns rows.now all self.old self.new }
    {
        let place = turns as usize;
        self.ready[place] = rows.at(Column::Ready)[place].number();
        self.win[place] = rows.at(Column::Win)[place].number();
        self.ready_at_most[place] = rows.at(Column::ReadyAtMost)[place].number().min(all);
        self.win_at_most[place] = rows.at(Column::WinAtMost)[place].number().min(all);
        self.all[place] = all;
    }
}

/// The chances of thirteen tiles for each number of turns up to this, if it comes to no more hands than the places that are lent.
pub fn chances_of<R: RowSource>(
    places: &mut [HandPlace],
    rows: &mut [Rows],
    source: &mut R,
    asked: &ShapeRecord,
    turns: u8,
) -> Result<Chances, TooManyHands>
    requires thirteen { is_thirteen asked.now.tiles asked.now.melds ≡ true }
    requires turns { turns ≤ 18 }
    ensures chances { IfOk result (spec.AreChances asked.now turns) }
    ensures at_most { IfOk result (spec.AreAtMost asked.now (unseen_of asked.now) turns) }
    ensures plays { IfOk result (spec.IsNoPlayAbove asked.now turns) }
    ensures few { OnOk result
        (HaveRoom places.old rows.old (by_itself asked.now)) }
    ensures many { OnErr result
        (HaveNoRoom places.old rows.old (by_itself asked.now)) }
    ensures stays { source.new ≡ source.old }
{
    let unseen = unseen_tiles(asked);
    let mut graph = Graph::new(places, rows.len());
    let place = place_of(source, &mut graph, asked)?;
    let mut each = [Chances::none()];
    by_turns(&graph, rows, &[place], unseen, turns, &mut each);
    Ok(each[0])
}

/// Tells the chances of the hands at some places, where so many tiles are unseen.
pub(crate) fn by_turns(
    graph: &Graph<'_>,
    rows: &mut [Rows],
    places: &[u16],
    unseen: u8,
    turns: u8,
    each: &mut [Chances],
)
    requires turns { turns ≤ 18 }
    requires unseen { unseen ≤ 136 }
    requires graph { (root : ShapeParts) × IsGraph root graph.now }
    requires room { length graph.now.nodes ≤ length rows.old }
    requires inside { AreBefore (length graph.now.nodes) places.now }
    requires each { length each.old ≡ length places.now }
    ensures each { length each.new ≡ length each.old }
    ensures counted { (root : ShapeParts) → IsGraph root graph.now
        → spec.AreAllCounted root graph.now.hands places.now unseen turns each.new }
{
    each.fill(Chances::none());
    for count in 0..turns + 1 {
        let span = Span {
            unseen,
            turns: count,
        };
        put_rows(rows, graph, span);
        let all = span.all_draws()[count as usize].number();
        tell_each(each, places, rows, count, all);
    }
}

/// Tells those of one number of turns of the hands at some places.
fn tell_each(each: &mut [Chances], places: &[u16], rows: &[Rows], turns: u8, all: u128)
    requires turns { turns ≤ 18 }
    requires each { length each.old ≡ length places.now }
    requires inside { AreBefore (length rows.now) places.now }
    ensures each { length each.new ≡ length each.old }
    ensures told { spec.AreAllTold turns places.now rows.now all each.old each.new }
{
    for at in 0..places.len() {
        each[at].tell(turns, &rows[places[at] as usize], all);
    }
}
