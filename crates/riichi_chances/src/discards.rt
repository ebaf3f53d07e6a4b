//! The chances after each best discard.
ghost use Rattle.std.specs.Prelude.{◌≡◌, ℕ, ◌<◌, ◌≤◌, ◌++◌, [], ◌∷◌, All, Contains, IfOk, OnErr, OnOk, length, map, true};
ghost use Rattle.riichi_hand.specs.Hand.{size};
ghost use Rattle.riichi_shape.specs.Discards.{discards_of};
ghost use Rattle.riichi_shape.specs.EveryWinning.{distance_of};
ghost use Rattle.riichi_deeper.specs.Drawn.{parts_without};
ghost use Rattle.riichi_chances.specs.Chances as spec;
ghost use Rattle.riichi_chances.specs.Draws.{is_there, unseen_of};
ghost use Rattle.riichi_chances.specs.Odds as odds;
ghost use Rattle.riichi_chances.specs.Reachable.{HaveNoRoom, HaveRoom, SomeHaveNoRoom, by_itself, groups_of, together};

use crate::building::places_of;
use crate::chances::{Chances, by_turns, chances_of};
use crate::fault::TooManyHands;
use crate::goal::is_won;
use crate::graph::Graph;
use crate::hand_place::HandPlace;
use crate::odds::DiscardOdds;
use crate::rows::Rows;
use crate::unseen::unseen_tiles;
use arrayvec::ArrayVec;
use riichi_deeper::without_tile;
use riichi_hand::ShapeRecord;
use riichi_shape::{Accepts, DiscardList, RowSource, shape_with};
use riichi_tiles::Kind;

/// The chances after a discard.
#[derive(Clone, Copy, Debug, PartialEq, Eq, Drop)]
pub struct DiscardChances {
    pub kind: Kind,
    pub chances: Chances,
}

impl Default for DiscardChances {
    fn default() -> DiscardChances {
        DiscardChances {
            kind: Kind::at(0),
            chances: Chances::none(),
        }
    }
}

/// The chances after each best discard of fourteen tiles, which is then seen, in the order of the discards of the hand's shape.
pub fn discard_chances<R: RowSource>(
    places: &mut [HandPlace],
    rows: &mut [Rows],
    source: &mut R,
    asked: &ShapeRecord,
    turns: u8,
) -> Result<ArrayVec<DiscardChances, 14>, TooManyHands>
    requires fourteen { size asked.now.tiles asked.now.melds ≡ 14 }
    requires turns { turns ≤ 18 }
    ensures each { IfOk result (λ each. map (λ one. one.kind) each.items
        ≡ map (λ discard. discard.kind)
        (discards_of asked.now.tiles asked.now.melds asked.now.seen)) }
    ensures chances { IfOk result (λ each. spec.AreAfter asked.now turns each.items) }
    ensures at_most { IfOk result (λ each. spec.AreAfterAtMost asked.now turns each.items) }
    ensures plays { IfOk result (λ each. spec.IsNoPlayAboveAfter asked.now turns each.items) }
    ensures few { OnOk result (All (HaveRoom places.old rows.old) (groups_of asked.now)) }
    ensures many { OnErr result (SomeHaveNoRoom places.old rows.old asked.now) }
    ensures stays { source.new ≡ source.old }
{
    let answer = shape_with(source, asked);
    match &answer.accepts {
        Accepts::Fourteen(discards) => {
            if is_won(answer.shanten) {
                each_alone(places, rows, source, asked, discards, turns)
            } else {
                all_together(places, rows, source, asked, discards, turns)
            }
        }
        Accepts::Thirteen(_) => unreachable!(),
    }
}

/// Of a won hand: each discard leaves a ready hand, which may accept what was thrown, so it is asked by itself.
fn each_alone<R: RowSource>(
    places: &mut [HandPlace],
    rows: &mut [Rows],
    source: &mut R,
    asked: &ShapeRecord,
    discards: &DiscardList,
    turns: u8,
) -> Result<ArrayVec<DiscardChances, 14>, TooManyHands>
    requires fourteen { size asked.now.tiles asked.now.melds ≡ 14 }
    requires discards { discards.now
        ≡ discards_of asked.now.tiles asked.now.melds asked.now.seen }
    requires won { is_there 0 asked.now ≡ true }
    requires turns { turns ≤ 18 }
    ensures each { IfOk result (λ each. map (λ one. one.kind) each.items
        ≡ map (λ discard. discard.kind) discards.now) }
    ensures chances { IfOk result (λ each. spec.AreAfter asked.now turns each.items) }
    ensures at_most { IfOk result (λ each. spec.AreAfterAtMost asked.now turns each.items) }
    ensures plays { IfOk result (λ each. spec.IsNoPlayAboveAfter asked.now turns each.items) }
    ensures few { OnOk result ((kind : ℕ)
        → Contains (map (λ discard. discard.kind) discards.now) kind
        → HaveRoom places.old rows.old (by_itself (parts_without asked.now kind))) }
    ensures many { OnErr result
        ((kind : ℕ) × Contains (map (λ discard. discard.kind) discards.now) kind
        × HaveNoRoom places.old rows.old (by_itself (parts_without asked.now kind))) }
    ensures stays { source.new ≡ source.old }
{
    let mut each = ArrayVec::new();
    for at in 0..discards.len() {
        match discards.short_at(at) {
            Some(discard) => {
                let kind = discard.kind;
                let rest = without_tile(asked, kind);
                let chances = chances_of(places, rows, source, &rest, turns)?;
                each.push(DiscardChances { kind, chances });
            }
            None => unreachable!(),
        }
    }
    Ok(each)
}

/// Of any other hand: what was thrown is accepted no more, so one graph has the hands of all discards.
fn all_together<R: RowSource>(
    places: &mut [HandPlace],
    rows: &mut [Rows],
    source: &mut R,
    asked: &ShapeRecord,
    discards: &DiscardList,
    turns: u8,
) -> Result<ArrayVec<DiscardChances, 14>, TooManyHands>
    requires fourteen { size asked.now.tiles asked.now.melds ≡ 14 }
    requires far { 0 < distance_of asked.now.tiles asked.now.melds }
    requires discards { discards.now
        ≡ discards_of asked.now.tiles asked.now.melds asked.now.seen }
    requires turns { turns ≤ 18 }
    ensures each { IfOk result (λ each. map (λ one. one.kind) each.items
        ≡ map (λ discard. discard.kind) discards.now) }
    ensures chances { IfOk result (λ each. spec.AreAfter asked.now turns each.items) }
    ensures at_most { IfOk result (λ each. spec.AreAfterAtMost asked.now turns each.items) }
    ensures plays { IfOk result (λ each. spec.IsNoPlayAboveAfter asked.now turns each.items) }
    ensures few { OnOk result (HaveRoom places.old rows.old (together asked.now)) }
    ensures many { OnErr result (HaveNoRoom places.old rows.old (together asked.now)) }
    ensures stays { source.new ≡ source.old }
{
    let unseen = unseen_tiles(asked);
    let mut graph = Graph::new(places, rows.len());
    let left = places_of(source, &mut graph, asked, discards)?;
    let mut all = [Chances::none(); 14];
    let chances = &mut all[..discards.len()];
    by_turns(&graph, rows, left.as_slice(), unseen, turns, chances);
    Ok(with_kinds(discards, chances))
}

/// The chances, each with the kind of its discard.
fn with_kinds(discards: &DiscardList, chances: &[Chances]) -> ArrayVec<DiscardChances, 14>
    requires { length chances.now ≡ length discards.now }
    ensures kinds { map (λ one. one.kind) result.items ≡ map (λ discard. discard.kind) discards.now }
    ensures chances { map (λ one. one.chances) result.items ≡ chances.now }
{
    let mut each = ArrayVec::new();
    for at in 0..discards.len() {
        match discards.short_at(at) {
            Some(discard) => {
                let kind = discard.kind;
                let chances = chances[at];
                each.push(DiscardChances { kind, chances });
            }
            None => unreachable!(),
        }
    }
    each
}

/// After each discard those of one number of turns.
pub fn each_odds_at(each: &[DiscardChances], turns: u8) -> ArrayVec<DiscardOdds, 14>
    requires turns { turns ≤ 18 }
    requires few { length each.now ≤ 14 }
    ensures { result.items ≡ odds.each_odds_at each.now turns }
{
    let mut odds = ArrayVec::new();
    for one in each {
        odds.push(DiscardOdds {
            kind: one.kind,
            odds: one.chances.at(turns),
        });
    }
    odds
}
