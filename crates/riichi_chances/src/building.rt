//! The hands that a hand may come to, by what each accepts.
ghost use Rattle.std.specs.Prelude.{◌≡◌, ◌<◌, IfOk, OnOk, length};
ghost use Rattle.riichi_shape.specs.Accepted.{accepted_of};
ghost use Rattle.riichi_shape.specs.Discards.{discards_of};
ghost use Rattle.riichi_shape.specs.EveryWinning.{distance_of};
ghost use Rattle.riichi_chances.specs.Graph as spec;
ghost use Rattle.riichi_chances.specs.Laws.{IsFourteen, IsThirteen};
ghost use Rattle.riichi_chances.specs.Reachable.{HandMayCome, RefusesMore, RestsMayCome, StaysWithin};

use crate::fault::TooManyHands;
use crate::goal::is_ready;
use crate::graph::Graph;
use crate::node::{Draw, Draws, Node};
use crate::rests::Rests;
use crate::tiles::best_discarded;
use riichi_deeper::with_tile;
use riichi_hand::ShapeRecord;
use riichi_shape::{Accepts, DiscardList, LiveList, RowSource, shape_with};
use riichi_tiles::Kind;

/// The place of thirteen tiles, which are taken with all that they lead to where they weren't there before.
#[cycle(building)]
pub fn place_of<R: RowSource>(
    source: &mut R,
    graph: &mut Graph<'_>,
    asked: &ShapeRecord,
) -> Result<u16, TooManyHands>
    requires whole { IsThirteen asked.now }
    requires graph { spec.IsGraph asked.now graph.old }
    ensures grows { OnOk result (spec.Grows asked.now graph.old graph.new) }
    ensures place { IfOk result (spec.IsPlaceOf graph.new asked.now) }
    ensures within { StaysWithin HandMayCome asked.now graph.old graph.new result }
    ensures many { RefusesMore HandMayCome asked.now graph.old result }
    ensures stays { source.new ≡ source.old }
{
    if let Some(place) = graph.find(asked) {
        return Ok(place);
    }
    let node = node_of(source, graph, asked)?;
    graph.add(asked, node)
}

/// What thirteen tiles accept.
#[cycle(building)]
fn node_of<R: RowSource>(
    source: &mut R,
    graph: &mut Graph<'_>,
    asked: &ShapeRecord,
) -> Result<Node, TooManyHands>
    requires whole { IsThirteen asked.now }
    requires graph { spec.IsGraph asked.now graph.old }
    ensures grows { OnOk result (spec.Grows asked.now graph.old graph.new) }
    ensures node { IfOk result
        (spec.IsNode graph.new.hands (length graph.new.nodes) asked.now) }
    ensures within { StaysWithin HandMayCome asked.now graph.old graph.new result }
    ensures many { RefusesMore HandMayCome asked.now graph.old result }
    ensures stays { source.new ≡ source.old }
{
    let _shape = asked.tiles();
    let answer = shape_with(source, asked);
    match &answer.accepts {
        Accepts::Thirteen(accepted) => {
            let live = accepted.live() as u8;
            if is_ready(answer.shanten) {
                return Ok(Node {
                    is_ready: true,
                    live,
                    draws: Draws::new(),
                });
            }
            let draws = draws_of(source, graph, asked, accepted)?;
            Ok(Node {
                is_ready: false,
                live,
                draws,
            })
        }
        Accepts::Fourteen(_) => unreachable!(),
    }
}

/// The draws of the kinds that thirteen tiles accept.
#[cycle(building)]
fn draws_of<R: RowSource>(
    source: &mut R,
    graph: &mut Graph<'_>,
    asked: &ShapeRecord,
    accepted: &LiveList,
) -> Result<Draws, TooManyHands>
    requires whole { IsThirteen asked.now }
    requires accepted { accepted.now
        ≡ accepted_of asked.now.tiles asked.now.melds asked.now.seen }
    requires far { 1 < distance_of asked.now.tiles asked.now.melds }
    requires graph { spec.IsGraph asked.now graph.old }
    ensures grows { OnOk result (spec.Grows asked.now graph.old graph.new) }
    ensures before { IfOk result
        (λ draws. spec.LeadBefore (length graph.new.nodes) (spec.draws_in draws)) }
    ensures leads { IfOk result
        (λ draws. spec.LeadTo graph.new.hands (spec.draws_in draws) asked.now) }
    ensures within { StaysWithin HandMayCome asked.now graph.old graph.new result }
    ensures many { RefusesMore HandMayCome asked.now graph.old result }
    ensures stays { source.new ≡ source.old }
{
    let mut draws = Draws::new();
    let copies = accepted.copies();
    for number in 0..34u8 {
        let live = copies[number as usize];
        if live > 0 {
            let drawn = with_tile(asked, Kind::at(number));
            let rests = rests_of(source, graph, &drawn)?;
            draws.push(Draw { live, rests });
        }
    }
    Ok(draws)
}

/// The places of what the best discards of fourteen tiles leave.
#[cycle(building)]
fn rests_of<R: RowSource>(
    source: &mut R,
    graph: &mut Graph<'_>,
    drawn: &ShapeRecord,
) -> Result<Rests, TooManyHands>
    requires whole { IsFourteen drawn.now }
    requires far { 0 < distance_of drawn.now.tiles drawn.now.melds }
    requires graph { spec.IsGraph drawn.now graph.old }
    ensures grows { OnOk result (spec.Grows drawn.now graph.old graph.new) }
    ensures before { IfOk result
        (λ rests. spec.AreBefore (length graph.new.nodes) (spec.places_in rests)) }
    ensures rests { IfOk result
        (λ rests. spec.AreRests graph.new.hands (spec.places_in rests) drawn.now) }
    ensures within { StaysWithin RestsMayCome drawn.now graph.old graph.new result }
    ensures many { RefusesMore RestsMayCome drawn.now graph.old result }
    ensures stays { source.new ≡ source.old }
{
    let answer = shape_with(source, drawn);
    match &answer.accepts {
        Accepts::Fourteen(discards) => places_of(source, graph, drawn, discards),
        Accepts::Thirteen(_) => unreachable!(),
    }
}

/// The places of what these discards leave, one for each of them.
#[cycle(building)]
pub fn places_of<R: RowSource>(
    source: &mut R,
    graph: &mut Graph<'_>,
    drawn: &ShapeRecord,
    discards: &DiscardList,
) -> Result<Rests, TooManyHands>
    requires whole { IsFourteen drawn.now }
    requires discards { discards.now
        ≡ discards_of drawn.now.tiles drawn.now.melds drawn.now.seen }
    requires far { 0 < distance_of drawn.now.tiles drawn.now.melds }
    requires graph { spec.IsGraph drawn.now graph.old }
    ensures grows { OnOk result (spec.Grows drawn.now graph.old graph.new) }
    ensures before { IfOk result
        (λ rests. spec.AreBefore (length graph.new.nodes) (spec.places_in rests)) }
    ensures left { IfOk result (λ rests. spec.AreLeft
        graph.new.hands (spec.places_in rests) drawn.now.tiles (spec.discard_kinds discards.now)) }
    ensures within { StaysWithin RestsMayCome drawn.now graph.old graph.new result }
    ensures many { RefusesMore RestsMayCome drawn.now graph.old result }
    ensures stays { source.new ≡ source.old }
{
    let mut places = Rests::new();
    for at in 0..discards.len() {
        match discards.short_at(at) {
            Some(discard) => {
                let rest = best_discarded(drawn, discard.kind);
                let place = place_of(source, graph, &rest)?;
                places.push(place);
            }
            None => unreachable!(),
        }
    }
    Ok(places)
}
