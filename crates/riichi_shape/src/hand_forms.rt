//! How near a hand is to each form.
ghost use Rattle.std.specs.Prelude.{ℕ, ◌≡◌, ◌<◌, ◌≤◌, List, slice_index};
ghost use Rattle.riichi_tiles.specs.Melds.{tiles};
ghost use Rattle.riichi_shape.specs.Accepted.{without_one};
ghost use Rattle.riichi_shape.specs.Distance.{IsDistance};
ghost use Rattle.riichi_shape.specs.EveryWinning.{distance_of};
ghost use Rattle.riichi_shape.specs.LackedKinds.{AreLackedOf};
ghost use Rattle.riichi_shape.specs.Rows.{AreFormsOf, IsRowAt};

use crate::hand_caps::{HandCaps, hand_caps_of};
use crate::hand_joins::HandJoins;
use crate::hand_rows::{HandRows, hand_rows_of, with_row};
use crate::lacked_kinds::LackedKinds;
use crate::special::SpecialForms;
use riichi_rows::{RowSource, SuitRow};
use riichi_tiles::{Counts, Kind, Melds};

/// What is known of a hand: the rows of its suits, beside each the other three joined, and how near
/// it is to the forms that stand beside no meld. From this follow its distance and the kinds that
/// it lacks.
#[derive(Clone, Copy)]
pub(crate) struct HandForms {
    pub(crate) rows: HandRows,
    pub(crate) joins: HandJoins,
    pub(crate) special: SpecialForms,
    /// What the melds leave of each kind, by which a row is made anew.
    pub(crate) caps: HandCaps,
}

impl HandForms {
    pub(crate) fn new<R: RowSource>(source: &mut R, hand: &Counts, melds: &Melds) -> HandForms
        requires { (k : ℕ) → k < 34 → tiles melds.now k ≤ 4 }
        ensures forms { AreFormsOf hand.now melds.now result }
        ensures stays { source.new ≡ source.old }
    {
        let caps = hand_caps_of(melds);
        let rows = hand_rows_of(source, hand, &caps);
        HandForms {
            rows,
            joins: HandJoins::new(&rows),
            special: SpecialForms::new(hand, melds),
            caps,
        }
    }

    /// The least number of tiles that the hand lacks of a winning multiset.
    pub(crate) fn distance(&self, melds: &Melds) -> u8
        requires { (k : ℕ) → k < 34 → tiles melds.now k ≤ 4 }
        ensures value { (hand : List ℕ) → AreFormsOf hand melds.now self.now
            → result ≡ distance_of hand melds.now }
        ensures least { (hand : List ℕ) → AreFormsOf hand melds.now self.now
            → IsDistance hand melds.now result }
        ensures few { (hand : List ℕ) → AreFormsOf hand melds.now self.now → result ≤ 14 }
    {
        let sets = 4 - melds.count() as u8;
        let standard = self
            .joins
            .beside
            .characters
            .with(&self.rows.characters, sets);
        standard.unwrap_or(u8::MAX).min(self.special.distance())
    }

    /// The kinds that the least winning multisets lack, of a hand that lacks just so many tiles.
    pub(crate) fn lacked(&self, melds: &Melds, least: u8) -> LackedKinds
        requires melded { (k : ℕ) → k < 34 → tiles melds.now k ≤ 4 }
        requires few { least ≤ 14 }
        ensures { (hand : List ℕ) → AreFormsOf hand melds.now self.now
            → least ≡ distance_of hand melds.now → AreLackedOf hand melds.now result }
    {
        let sets = 4 - melds.count() as u8;
        LackedKinds {
            suits: self.joins.lacked(&self.rows, sets, least),
            special: self.special.lacked_at(least),
        }
    }

    /// The same of the hand without one tile of a kind, by the row that its suit then has.
    #[tactic(auto, using(crate::proofs::KeptJoins::set_differs, crate::proofs::Nearer::lacked_without_facts))]
    pub(crate) fn lacked_without(
        &self,
        hand: &Counts,
        melds: &Melds,
        kind: Kind,
        row: &SuitRow,
        least: u8,
    ) -> LackedKinds
        requires melded { (k : ℕ) → k < 34 → tiles melds.now k ≤ 4 }
        requires forms { AreFormsOf hand.now melds.now self.now }
        requires held { 0 < slice_index hand.now kind }
        requires row { IsRowAt (without_one hand.now kind) melds.now kind row.now }
        requires few { least ≤ 14 }
        requires least { least ≡ distance_of (without_one hand.now kind) melds.now }
        ensures { AreLackedOf (without_one hand.now kind) melds.now result }
    {
        let sets = 4 - melds.count() as u8;
        let rows = with_row(&self.rows, kind, row);
        LackedKinds {
            suits: self.joins.with_row(kind, &rows).lacked(&rows, sets, least),
            special: self.special.lacked_without(hand, melds, kind, least),
        }
    }
}
