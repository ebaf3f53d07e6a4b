//! The distance of a hand from each form of a winning hand.
ghost use Rattle.std.specs.Prelude.{ℕ, ◌≡◌, ◌-◌, ◌<◌, ◌≤◌, length, Some};
ghost use Rattle.riichi_tiles.specs.Melds.{tiles};
ghost use Rattle.riichi_shape.specs.Distance.{IsLeastStandard};
ghost use Rattle.riichi_shape.specs.EveryWinning.{distance_of};
ghost use Rattle.riichi_shape.specs.Forms as spec;

use crate::hand_forms::HandForms;
use riichi_rows::RowSource;
use riichi_tiles::{Counts, Melds};

/// The least number of tiles that a hand lacks of each form. Seven pairs and thirteen orphans stand
/// beside no meld.
#[derive(Clone, Copy, Debug, PartialEq, Eq)]
pub struct FormDistances {
    pub sets_and_pair: u8,
    pub seven_pairs: Option<u8>,
    pub thirteen_orphans: Option<u8>,
}

/// How far a hand is from each form, by the rows of a source: the same whichever it is. The least of these is one more than
/// the shanten.
pub fn form_distances<R: RowSource>(source: &mut R, hand: &Counts, melds: &Melds) -> FormDistances
    requires { (kind : ℕ) → kind < 34 → tiles melds.now kind ≤ 4 }
    ensures sets_and_pair { IsLeastStandard hand.now melds.now (4 - length melds.now)
        (Some result.sets_and_pair) }
    ensures seven_pairs { spec.IsPairsDistance hand.now melds.now result.seven_pairs }
    ensures thirteen_orphans { spec.IsOrphansDistance hand.now melds.now result.thirteen_orphans }
    ensures least { spec.least_of result ≡ distance_of hand.now melds.now }
    ensures stays { source.new ≡ source.old }
{
    let forms = HandForms::new(source, hand, melds);
    let melded = melds.count();
    let Some(sets_and_pair) = forms
        .joins
        .beside
        .characters
        .with(&forms.rows.characters, 4 - melded as u8)
    else {
        unreachable!()
    };
    FormDistances {
        sets_and_pair,
        seven_pairs: without_meld(melded, forms.special.pairs.lack),
        thirteen_orphans: without_meld(melded, forms.special.orphans.lack),
    }
}

/// What is lacked of a form that stands beside no meld.
fn without_meld(melded: usize, lack: u8) -> Option<u8>
    ensures { result ≡ spec.without_meld melded lack }
{
    if melded == 0 { Some(lack) } else { None }
}
