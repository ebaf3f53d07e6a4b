//! The kinds that complete seven pairs or the orphans.
ghost use Rattle.std.specs.Prelude.{◌≡◌, ◌≢◌, ◌↔◌, ◌<◌, ◌≤◌, ◌⊎◌, ℕ, IsTrue, length, slice_index};
ghost use Rattle.riichi_tiles.specs.Kinds.{is_orphan};
ghost use Rattle.riichi_split.specs.Readings.{HasEachOrphan};
ghost use Rattle.riichi_split.specs.SpecialWaits as spec;

use crate::special::{are_orphans_once, are_seven_pairs, are_thirteen_orphans};
use riichi_tiles::{Counts, Kind, KindSet};

/// Marks the kinds that complete seven pairs or the orphans, where no meld stands.
#[tactic(auto, using(crate::proofs::SpecialKinds::adds_both))]
pub fn mark_special_waits(tiles: &Counts, marks: &mut KindSet)
    ensures { spec.AddsSpecial tiles.now 34 marks.old marks.new }
{
    mark_pair_wait(tiles, marks);
    mark_orphan_waits(tiles, marks);
}

/// Marks the kind that completes seven pairs, if one does.
fn mark_pair_wait(tiles: &Counts, marks: &mut KindSet)
    ensures { spec.Adds (spec.CompletesPairs tiles.now) 34 marks.old marks.new }
{
    let single = single_of(tiles.as_array());
    if single < 34 && completes_pairs(tiles, Kind::at(single)) {
        marks.insert(Kind::at(single));
    }
}

/// Marks the kinds that complete the orphans: the one that is lacking, or each where none is.
fn mark_orphan_waits(tiles: &Counts, marks: &mut KindSet)
    ensures { spec.Adds (spec.CompletesOrphans tiles.now) 34 marks.old marks.new }
{
    let counts = tiles.as_array();
    if !are_orphans_alone(counts) {
        return;
    }
    let lacking = next_lacking(counts);
    if lacking < 34 {
        mark_lacking(tiles, Kind::at(lacking), marks);
    } else if are_orphans_once(counts) {
        mark_orphans(marks);
    }
}

/// Marks a terminal or honour of which no tile is held, where it completes the orphans.
fn mark_lacking(tiles: &Counts, lacking: Kind, marks: &mut KindSet)
    requires orphan { IsTrue (is_orphan lacking) }
    requires none { slice_index tiles.now lacking ≡ 0 }
    ensures { spec.Adds (spec.CompletesOrphans tiles.now) 34 marks.old marks.new }
{
    if completes_orphans(tiles, lacking) {
        marks.insert(lacking);
    }
}

/// Marks each terminal and honour.
#[tactic(auto, using(riichi_tiles::proofs::KindSets::kind_sets))]
fn mark_orphans(marks: &mut KindSet)
    ensures { spec.Adds (λ kind. IsTrue (is_orphan kind)) 34 marks.old marks.new }
{
    for number in 0..34u8 {
        let kind = Kind::at(number);
        if kind.is_orphan() {
            marks.insert(kind);
        }
    }
}

/// The only kind of which neither none nor two are held, or 34: no other kind completes seven pairs.
fn single_of(counts: &[u8; 34]) -> u8
    ensures only { (kind : ℕ) → kind < 34 → spec.CompletesPairs counts.now kind
        → kind ≡ result }
    ensures kind { result ≤ 34 }
{
    let first = next_single(counts, 0);
    if first >= 34 {
        return 34;
    }
    let second = next_single(counts, first + 1);
    if second < 34 {
        return 34;
    }
    first
}

/// The first kind from one on of which neither none nor two are held, or 34.
fn next_single(counts: &[u8; 34], from: u8) -> u8
    requires { from ≤ 34 }
    ensures kind { result ≤ 34 }
    ensures pairs { (kind : ℕ) → from ≤ kind → kind < result
        → (slice_index counts.now kind ≡ 0) ⊎ (slice_index counts.now kind ≡ 2) }
    ensures single { result < 34 → (from ≤ result)
        × (slice_index counts.now result ≢ 0) × (slice_index counts.now result ≢ 2) }
{
    for number in from..34 {
        let count = counts[number as usize];
        if count != 0 && count != 2 {
            return number;
        }
    }
    34
}

/// The first terminal or honour of which no tile is held, or 34.
fn next_lacking(counts: &[u8; 34]) -> u8
    ensures kind { result ≤ 34 }
    ensures lacking { result < 34
        → IsTrue (is_orphan result) × (slice_index counts.now result ≡ 0) }
    ensures all { result ≡ 34 → HasEachOrphan counts.now }
{
    for number in 0..34u8 {
        if counts[number as usize] == 0 && Kind::at(number).is_orphan() {
            return number;
        }
    }
    34
}

/// Whether no tile but terminals and honours is held.
fn are_orphans_alone(counts: &[u8; 34]) -> bool
    ensures { IsTrue result ↔ ((kind : ℕ) → kind < 34 → 0 < slice_index counts.now kind
        → IsTrue (is_orphan kind)) }
{
    for (kind, count) in counts.iter().enumerate() {
        if *count > 0 && !Kind::at(kind as u8).is_orphan() {
            return false;
        }
    }
    true
}

/// Whether one more of a kind makes seven pairs.
fn completes_pairs(tiles: &Counts, kind: Kind) -> bool
    ensures { IsTrue result ↔ spec.CompletesPairs tiles.now kind }
{
    if tiles.get(kind) >= 4 {
        return false;
    }
    let mut completed = *tiles;
    completed.add(kind);
    are_seven_pairs(completed.as_array(), 0)
}

/// Whether one more of a kind makes the orphans.
fn completes_orphans(tiles: &Counts, kind: Kind) -> bool
    ensures { IsTrue result ↔ spec.CompletesOrphans tiles.now kind }
{
    if tiles.get(kind) >= 4 {
        return false;
    }
    let mut completed = *tiles;
    completed.add(kind);
    are_thirteen_orphans(completed.as_array(), 0)
}
