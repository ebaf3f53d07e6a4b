//! What thirteen tiles are worth.
ghost use Rattle.std.specs.Prelude.{◌≡◌, ◌*◌, ◌<◌, ◌≤◌, IfOk, OnErr, OnOk, length, true};
ghost use Rattle.riichi_hand.specs.Hand.{is_thirteen};
ghost use Rattle.riichi_chances.specs.Draws.{unseen_of};
ghost use Rattle.riichi_chances.specs.Reachable.{HaveNoRoom, HaveRoom, by_itself};
ghost use Rattle.riichi_worth.specs.Rows.{most_points};
ghost use Rattle.riichi_worth.specs.Worths as spec;

use crate::counting::put_points;
use crate::points::Points;
use crate::row::WorthRow;
use crate::stakes::{MOST_PRIZE, Stakes};
use riichi_chances::{Fraction, Graph, HandPlace, Span, TooManyHands, place_of, unseen_tiles};
use riichi_hand::ShapeRecord;
use riichi_shape::RowSource;

/// What a hand is worth: so many whole points, and a part of one more.
#[derive(Clone, Copy, Debug, PartialEq, Eq)]
pub struct Worth {
    pub points: u32,
    /// The draws that are left over, of all draws.
    pub rest: Fraction,
}

impl Worth {
    /// So many points, shared equally among so many draws.
    pub(crate) fn shared(total: Points, all: u128) -> Worth
        requires some { 0 < all }
        requires few { total ≤ MOST_PRIZE * all }
        ensures { result ≡ spec.shared total all }
    {
        let (points, part) = total.divided(all);
        Worth {
            points,
            rest: Fraction { part, whole: all },
        }
    }
}

/// What thirteen tiles are worth by so many draws, if they come to no more hands than the places that are lent.
pub fn hand_worth<R: RowSource>(
    places: &mut [HandPlace],
    rows: &mut [WorthRow],
    source: &mut R,
    asked: &ShapeRecord,
    stakes: &Stakes,
    turns: u8,
) -> Result<Worth, TooManyHands>
    requires thirteen { is_thirteen asked.now.tiles asked.now.melds ≡ true }
    requires turns { turns ≤ 18 }
    requires drawn { turns ≤ unseen_of asked.now }
    ensures worth { IfOk result (λ worth. worth ≡ spec.worth_of stakes.now asked.now turns) }
    ensures few { OnOk result (HaveRoom places.old rows.old (by_itself asked.now)) }
    ensures many { OnErr result (HaveNoRoom places.old rows.old (by_itself asked.now)) }
    ensures stays { source.new ≡ source.old }
{
    let unseen = unseen_tiles(asked);
    let span = Span { unseen, turns };
    let mut graph = Graph::new(places, rows.len());
    let place = place_of(source, &mut graph, asked)?;
    put_points(rows, &graph, source, asked, stakes, span);
    Ok(worth_at(rows, place, span))
}

/// What the hand at a place is worth.
pub(crate) fn worth_at(rows: &[WorthRow], place: u16, span: Span) -> Worth
    requires turns { span.turns ≤ 18 }
    requires unseen { span.unseen ≤ 136 }
    requires drawn { span.turns ≤ span.unseen }
    requires inside { place < length rows.now }
    requires few { spec.total_at rows.now place span ≤ MOST_PRIZE * spec.draws_of span }
    ensures { result ≡ spec.shared (spec.total_at rows.now place span) (spec.draws_of span) }
{
    let total = rows[place as usize].at(span.turns);
    let all = span.all_draws()[span.turns as usize].number();
    Worth::shared(total, all)
}
