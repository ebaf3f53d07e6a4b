//! Thirteen orphans.
ghost use Rattle.std.specs.Prelude.{ℕ, List, [], ◌≡◌, ◌<◌, ◌≤◌, ◌∷◌, ◌++◌, count_by, length, map, nat_le, slice_index};
ghost use Rattle.riichi_tiles.specs.Kinds.{is_orphan};
ghost use Rattle.riichi_tiles.specs.Forms.{orphan_kinds};
ghost use Rattle.riichi_shape.specs.Special.{AreNearestOrphans};

use crate::lacked_held::LackedHeld;
use crate::nearest_form::NearestForm;
use riichi_tiles::{Counts, Kind};
use std::simd::prelude::*;

/// The counts of the terminals and honours, and three of nothing.
fn orphan_counts(hand: &Counts) -> u8x16
    ensures { result ≡ map (slice_index hand.now) orphan_kinds ++ 0 ∷ 0 ∷ 0 ∷ [] }
{
    let held = |kind: u8| -> u8
        requires { kind < 34 }
        ensures { result ≡ slice_index hand.entry.now kind }
    { hand.get(Kind::at(kind)) };
    u8x16::from_array([
        held(0),
        held(8),
        held(9),
        held(17),
        held(18),
        held(26),
        held(27),
        held(28),
        held(29),
        held(30),
        held(31),
        held(32),
        held(33),
        0,
        0,
        0,
    ])
}

/// How many of the terminals and honours are held so many times or more.
fn orphans_held(orphans: u8x16, times: u8) -> usize
    requires { 0 < times }
    ensures { (counts : List ℕ) → length counts ≡ 13 → orphans ≡ counts ++ 0 ∷ 0 ∷ 0 ∷ []
        → (result ≡ count_by (λ held. nat_le times held) counts) × (result ≤ 13) }
{
    let held = orphans.simd_ge(u8x16::splat(times));
    held.to_bitmask().count_ones() as usize
}

/// How near a hand is to thirteen orphans. The nearest lack each that is not held, and where none
/// is held twice each that is held once.
pub(crate) fn nearest_orphans(hand: &Counts) -> NearestForm
    ensures { AreNearestOrphans hand.now result }
{
    let orphans = orphan_counts(hand);
    let missing = (13 - orphans_held(orphans, 1)) as u8;
    if orphans_held(orphans, 2) > 0 {
        NearestForm {
            lack: missing,
            lacked: LackedHeld {
                missing: true,
                single: false,
            },
        }
    } else {
        NearestForm {
            lack: missing + 1,
            lacked: LackedHeld {
                missing: true,
                single: true,
            },
        }
    }
}
