ghost use Rattle.std.specs.Prelude.{◌≤◌, length};
ghost use Rattle.std.specs.Iterator.{YieldsFirst, item_count};

use crate::done::next_done;
use crate::reading::Reading;
use crate::sets::Sets;
use crate::special::{are_seven_pairs, are_thirteen_orphans};
use crate::split::Split;
use crate::splits::Splits;
use riichi_tiles::{Counts, Kind, Melds};
use std::iter::FusedIterator;
use std::marker::Model;

/// The readings of a hand, each once, seen as the list of those that are left.
#[derive(Drop)]
pub struct Readings {
    winning: Kind,
    // Those of the special shapes are still to come.
    seven_pairs: bool,
    orphans: bool,
    // The blocks from `place` on of this split are still to be looked at.
    split: Split,
    place: usize,
    // The splits that are still to come.
    splits: Splits,
}

impl Model for Readings {
    ghost use Rattle.std.specs.Prelude.{List};
    ghost use Rattle.riichi_split.specs.declared.reading.Reading.{Reading};

    ghost Value = { List Reading };

    ghost use Rattle.riichi_split.specs.Left.{readings_left};

    ghost view = { readings_left };
}

impl Readings {
    ghost use Rattle.riichi_split.specs.Readings.{AreTheReadings};

    /// The readings of concealed tiles, the winning tile among them, beside the melds. Tiles that are
    /// not of the right number have none, and no hand has more than eight.
    pub fn new(counts: &Counts, melds: &Melds, winning: Kind) -> Readings
        ensures each { AreTheReadings counts.now (length melds.now) winning result }
        ensures few { length result ≤ 8 }
    {
        let melds = melds.count();
        let tiles = counts.as_array();
        Readings {
            winning,
            seven_pairs: are_seven_pairs(tiles, melds),
            orphans: are_thirteen_orphans(tiles, melds),
            split: Split {
                sets: Sets::new(),
                pair: Kind::at(0),
            },
            place: 1,
            splits: Splits::new(counts, melds),
        }
    }
}

impl Iterator for Readings {
    type Item = Reading;

    ghost next_gives = { YieldsFirst (λ left. left) };

    ghost remaining = { item_count (λ left. left) };

    #[tactic(auto, using(crate::proofs::Next::none_left))]
    fn next(&mut self) -> Option<Reading> {
        if self.seven_pairs {
            self.seven_pairs = false;
            return Some(Reading::SevenPairs);
        }
        if self.orphans {
            self.orphans = false;
            return Some(Reading::Orphans);
        }
        loop {
            if let Some(done) = next_done(&self.split, self.winning, &mut self.place) {
                return Some(Reading::Standard {
                    sets: self.split.sets,
                    pair: self.split.pair,
                    done,
                });
            }
            self.split = self.splits.next()?;
            self.place = 0;
        }
    }
}

impl FusedIterator for Readings {}
