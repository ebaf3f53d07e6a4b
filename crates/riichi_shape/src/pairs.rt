//! Seven different pairs.
ghost use Rattle.std.specs.Prelude.{◌≡◌, ◌≤◌, count_by, nat_le, slice_index};
ghost use Rattle.riichi_tiles.specs.Melds.{every_kind};
ghost use Rattle.riichi_shape.specs.Special.{AreNearestPairs};

use crate::lacked_held::LackedHeld;
use crate::nearest_form::NearestForm;
use riichi_tiles::Counts;

/// How many of the counts are so high or higher.
fn counts_from(counts: &[u8; 34], times: u8) -> u8
    ensures value { result ≡ count_by (λ held. nat_le times held) counts.now }
    ensures most { result ≤ 34 }
{
    let mut kinds = 0;
    for held in counts {
        if *held >= times {
            kinds += 1;
        }
    }
    kinds
}

/// How many kinds are held so many times or more.
#[tactic(auto, using(crate::proofs::PairLemmas::counted_kinds))]
fn kinds_held(hand: &Counts, times: u8) -> usize
    ensures value { result
        ≡ count_by (λ kind. nat_le times (slice_index hand.now kind)) every_kind }
    ensures most { result ≤ 34 }
{
    counts_from(hand.as_array(), times) as usize
}

/// How near a hand is to seven different pairs. The nearest make pairs of kinds that are held
/// once, and only where these are too few of kinds that are not held.
pub(crate) fn nearest_pairs(hand: &Counts) -> NearestForm
    ensures { AreNearestPairs hand.now result }
{
    let twos = kinds_held(hand, 2);
    let held = kinds_held(hand, 1);
    let pairs = twos.min(7);
    let halves = (held - twos).min(7 - pairs);
    NearestForm {
        lack: (14 - 2 * pairs - halves) as u8,
        lacked: LackedHeld {
            missing: held < 7,
            single: twos < 7,
        },
    }
}
