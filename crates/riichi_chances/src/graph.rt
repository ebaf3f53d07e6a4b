//! The hands that a hand may come to, each once, in places that the caller lends.
ghost use Rattle.std.specs.Prelude.{◌≡◌, ◌<◌, [], IfNone, IfOk, IfSome, OnErr, OnOk, length, min, slice_index_or};
ghost use Rattle.std.specs.List.{Contains};
ghost use Rattle.riichi_hand.specs.HandParts.{ShapeParts};
ghost use Rattle.riichi_chances.specs.Graph as spec;
ghost use Rattle.riichi_chances.specs.Places.{IsAbsent};
ghost use Rattle.riichi_chances.specs.Reachable.{HandMayCome, RefusesMore, StaysWithin};
ghost use Rattle.riichi_chances.specs.declared.node.Node.{Node};

use crate::fault::TooManyHands;
use crate::hand_place::{BUCKETS, HandPlace, bucket_of};
use crate::node::Node;
use riichi_hand::ShapeRecord;
use riichi_tiles::Counts;
use std::marker::Model;

/// Hands of thirteen tiles that have the same melds and see the same tiles, each with its node at the same place. What a hand leads
/// to stands before it. Each hand is in one of some lists, in which it is looked for: here is one more than the last place of each.
#[derive(Drop)]
pub struct Graph<'a> {
    places: &'a mut [HandPlace],
    count: usize,
    most_hands: usize,
    lasts: [u16; BUCKETS],
}

impl<'a> Model for Graph<'a> {
    ghost use Rattle.riichi_chances.specs.Graph.{HandGraph};
    ghost use Rattle.riichi_chances.specs.Places.{IsIndexed, graph_of};

    ghost Value = { HandGraph };

    ghost view = { λ graph. graph_of graph.places.now graph.count graph.most_hands };

    ghost invariant = { λ graph. IsIndexed graph.places.now graph.lasts graph.count graph.most_hands };
}

impl<'a> Graph<'a> {
    /// No hands, and room for as many as there are places, and no more than this.
    pub fn new(places: &'a mut [HandPlace], most: usize) -> Graph<'a>
        ensures graph { (root : ShapeParts) → spec.IsGraph root result }
        ensures none { result.hands ≡ [] }
        ensures most { result.most_hands ≡ spec.most_hands_in (length places.old) most }
    {
        let most_hands = places.len().min(most).min(u16::MAX as usize);
        Graph {
            places,
            count: 0,
            most_hands,
            lasts: [0; BUCKETS],
        }
    }

    /// How many hands there are.
    pub fn len(&self) -> usize
        ensures { result ≡ length self.now.nodes }
    {
        self.count
    }

    /// What the hand at a place accepts.
    pub fn node(&self, place: usize) -> &Node
        requires { place < length self.now.nodes }
        ensures { (node : Node) → result.now ≡ slice_index_or self.now.nodes place node }
    {
        let places = &*self.places;
        &places[place].node
    }

    /// The tiles of the hand at a place.
    fn tiles(&self, place: usize) -> [u8; 34]
        requires { place < length self.now.nodes }
        ensures { result ≡ slice_index_or self.now.hands place [] }
    {
        let places = &*self.places;
        places[place].tiles
    }

    /// The hand at a place, with the melds of one that is there and what that sees.
    pub fn hand(&self, asked: &ShapeRecord, place: usize) -> ShapeRecord
        requires graph { spec.IsGraph asked.now self.now }
        requires inside { place < length self.now.nodes }
        ensures { result ≡ spec.placed_hand asked.now self.now.hands place }
    {
        let melds = asked.melds();
        let seen = asked.seen();
        let Some(tiles) = Counts::of(&self.tiles(place)) else {
            unreachable!()
        };
        match ShapeRecord::new(tiles, melds, seen) {
            Ok(hand) => hand,
            Err(_) => unreachable!(),
        }
    }

    /// The place of a hand that is there.
    pub fn find(&self, asked: &ShapeRecord) -> Option<u16>
        ensures found { IfSome result (spec.IsPlaceOf self.now asked.now) }
        ensures none { IfNone result (IsAbsent asked.now.tiles self.now.hands) }
    {
        let places = &*self.places;
        let tiles = asked.tiles().to_array();
        let mut next = self.lasts[bucket_of(&tiles)];
        while next > 0 {
            let place = next - 1;
            let here = &places[place as usize];
            if here.tiles == tiles {
                return Some(place);
            }
            next = here.earlier;
        }
        None
    }

    /// Takes a hand with its node where it isn't there yet, and returns its place.
    pub fn add(&mut self, asked: &ShapeRecord, node: Node) -> Result<u16, TooManyHands>
        requires graph { spec.IsGraph asked.now self.old }
        requires node { spec.IsNode self.old.hands (length self.old.nodes) asked.now node }
        ensures grows { OnOk result (spec.Grows asked.now self.old self.new) }
        ensures place { IfOk result (spec.IsPlaceOf self.new asked.now) }
        ensures within { StaysWithin HandMayCome asked.now self.old self.new result }
        ensures many { RefusesMore HandMayCome asked.now self.old result }
    {
        if let Some(place) = self.find(asked) {
            return Ok(place);
        }
        if self.count >= self.most_hands {
            return Err(TooManyHands);
        }
        Ok(self.push(asked, node))
    }

    /// Puts a hand that isn't there at the next place.
    fn push(&mut self, asked: &ShapeRecord, node: Node) -> u16
        requires room { length self.old.nodes < self.old.most_hands }
        requires new { IsAbsent asked.now.tiles self.old.hands }
        ensures pushed { spec.IsPushed asked.now.tiles node self.old self.new }
        ensures place { result ≡ length self.old.nodes }
    {
        let tiles = asked.tiles().to_array();
        let bucket = bucket_of(&tiles);
        let place = self.count;
        self.places[place] = HandPlace {
            tiles,
            node,
            earlier: self.lasts[bucket],
        };
        self.count += 1;
        self.lasts[bucket] = self.count as u16;
        place as u16
    }
}
