ghost use Rattle.std.specs.Prelude.{◌≡◌, ◌≢◌, ℕ, ◌+◌, ◌%◌, ◌<◌, ◌≤◌, MatchOption, ◌&&◌, nat_le, [], ◌∷◌, ◌++◌, drop, length, slice_index};
ghost use Rattle.std.specs.Iterator.{YieldsFirst, item_count};
ghost use Rattle.riichi_split.specs.Cuts.{may_have_runs, sets_beside, from_choices, from_pairs, choices_beside, third_of_pair, HoldsAtMost};

use crate::cutting::cut;
use crate::sets::Sets;
use crate::split::Split;
use crate::suit::suit_of_pair;
use riichi_tiles::{Counts, Kind, KindSet};
use std::iter::FusedIterator;
use std::marker::Model;

/// The ways to cut tiles into sets and a pair, each once, seen as the list of those that are left.
#[derive(Drop)]
pub(crate) struct Splits {
    counts: [u8; 34],
    // No other kind is held.
    held: KindSet,
    wanted: usize,
    // So many numbers make the choices beside any pair.
    choices: usize,
    // The choices below `choices_left` are still to be tried with this pair.
    pair: Kind,
    choices_left: usize,
    // The pairs of so many kinds, from the first kind of their suit on, are still to be tried.
    first: usize,
    pairs_left: usize,
    // What the number of each pair's kind leaves over by three.
    third: usize,
}

impl Model for Splits {
    ghost use Rattle.std.specs.Prelude.{List};
    ghost use Rattle.riichi_split.specs.declared.split.Split.{Split};

    ghost Value = { List Split };

    ghost use Rattle.riichi_split.specs.Cuts.{IsReady};
    ghost use Rattle.riichi_split.specs.SplitsLeft.{splits_left};

    ghost view = { splits_left };

    ghost invariant = { λ s. IsReady s.counts s.held s.wanted s.choices s.choices_left s.first s.pairs_left s.third };
}

impl Splits {
    ghost use Rattle.riichi_split.specs.Cuts.{AreTheSplits};

    /// The splits of the tiles beside so many melds.
    pub(crate) fn new(counts: &Counts, melds: usize) -> Splits
        requires { melds ≤ 4 }
        ensures { AreTheSplits counts.now melds result }
    {
        let tiles = counts.as_array();
        let (first, pairs_left) = match suit_of_pair(tiles) {
            Some(suit) => (suit.first(), suit.kinds()),
            None => (0, 0),
        };
        Splits {
            counts: *tiles,
            held: held_in(tiles),
            wanted: 4 - melds,
            choices: choices_of(tiles),
            pair: Kind::at(0),
            choices_left: 0,
            first,
            pairs_left,
            third: third_of_pair(tiles),
        }
    }
}

impl Iterator for Splits {
    type Item = Split;

    ghost next_gives = { YieldsFirst (λ left. left) };

    ghost remaining = { item_count (λ left. left) };

    #[tactic(auto, using(crate::proofs::SplitSteps::next_facts))]
    fn next(&mut self) -> Option<Split> {
        loop {
            let sets = next_sets(
                &self.counts,
                self.held,
                self.wanted,
                self.pair,
                &mut self.choices_left,
            );
            if let Some(sets) = sets {
                return Some(Split {
                    sets,
                    pair: self.pair,
                });
            }
            self.pair = next_fitting(&self.counts, self.first, self.third, &mut self.pairs_left)?;
            self.choices_left = choices_with(&self.counts, self.pair, self.choices);
        }
    }
}

impl FusedIterator for Splits {}

/// The kinds that are held.
fn held_in(counts: &[u8; 34]) -> KindSet
    ensures { HoldsAtMost counts.now result }
{
    KindSet::of(counts)
}

fn is_in_doubt(counts: &[u8; 34], kind: usize) -> bool
    requires { kind < 32 }
    ensures { result
        ≡ nat_le 3 (slice_index counts.now kind) && may_have_runs (drop (kind + 1) counts.now) }
{
    let own = counts[kind] >= 3;
    let next = counts[kind + 1] >= 3;
    let third = counts[kind + 2] >= 3;
    own & next & third
}

/// How many numbers can make the choices beside a pair: a bit for each kind that has three tiles, as
/// the two above it have, four at most.
#[tactic(auto, using(crate::proofs::SplitSteps::doubts_step, crate::proofs::SplitSteps::doubts_last))]
fn choices_of(counts: &[u8; 34]) -> usize
    ensures value { result ≡ choices_beside counts.now }
    ensures few { result ≤ 16 }
{
    let mut doubts = 0u8;
    for kind in 0..32 {
        if is_in_doubt(counts, kind) {
            doubts += 1;
        }
    }
    1 << doubts.min(4)
}

/// How many of so many numbers are left for the choices, where the pair's tiles are taken away.
#[tactic(auto, using(crate::proofs::SplitSteps::choices_with))]
fn choices_with(counts: &[u8; 34], pair: Kind, choices: usize) -> usize
    requires { choices ≤ 16 }
    ensures fewer { result ≤ choices }
    ensures splits { (wanted : ℕ)
        → from_choices counts.now wanted pair result ≡ from_choices counts.now wanted pair choices }
{
    // In most hands no kind is in doubt.
    if choices <= 1 {
        return choices;
    }
    let mut rest = *counts;
    rest[pair.index()] = counts[pair.index()].saturating_sub(2);
    choices_of(&rest).min(choices)
}

/// The sets that some choices leave beside a pair.
fn sets_beside(
    counts: &[u8; 34],
    held: KindSet,
    wanted: usize,
    pair: Kind,
    choices: usize,
) -> Option<Sets>
    requires wanted { wanted ≤ 4 }
    requires held { HoldsAtMost counts.now held }
    ensures { result ≡ sets_beside counts.now wanted pair choices }
{
    let pair = pair.index();
    if counts[pair] < 2 {
        return None;
    }
    let mut rest = *counts;
    rest[pair] -= 2;
    cut(&rest, held, wanted, choices)
}

/// The next sets beside a pair, of the choices below a number.
#[tactic(auto, using(crate::proofs::SplitSteps::next_sets_facts))]
fn next_sets(
    counts: &[u8; 34],
    held: KindSet,
    wanted: usize,
    pair: Kind,
    choices: &mut usize,
) -> Option<Sets>
    requires wanted { wanted ≤ 4 }
    requires held { HoldsAtMost counts.now held }
    ensures fewer { choices.new ≤ choices.old }
    ensures sets { MatchOption result
        ((from_choices counts.now wanted pair choices.old ≡ []) × (choices.new ≡ 0))
        (λ sets. from_choices counts.now wanted pair choices.old
        ≡ record { sets = sets; pair = pair } ∷ from_choices counts.now wanted pair choices.new) }
{
    while *choices > 0 {
        *choices -= 1;
        let sets = sets_beside(counts, held, wanted, pair, *choices);
        if sets.is_some() {
            return sets;
        }
    }
    None
}

/// What the number of the pair's kind leaves over by three, in each split: a set's three numbers leave nothing.
fn third_of_pair(counts: &[u8; 34]) -> usize
    ensures { result ≡ third_of_pair counts.now }
{
    let mut sum = 0usize;
    for third in 0..11 {
        sum += counts[3 * third + 1] as usize + 2 * counts[3 * third + 2] as usize;
    }
    2 * sum % 3
}

/// How many of so many kinds from the first on are left without the last ones that leave over another number by three.
fn fitting(first: usize, third: usize, kinds: usize) -> usize
    requires within { first + kinds ≤ 34 }
    requires third { third < 3 }
    ensures fewer { result ≤ kinds }
    ensures fits { 0 < result → (first + result + 2) % 3 ≡ third }
    ensures others { (kind : ℕ) → result ≤ kind → kind < kinds → (first + kind) % 3 ≢ third }
{
    kinds.saturating_sub((first + kinds + 2 - third) % 3)
}

/// The next kind of two tiles or more, of so many kinds from the first on, whose number leaves over so much by three.
#[tactic(auto, using(crate::proofs::SplitSteps::next_fitting_facts, crate::proofs::Thirds::from_pairs_passed))]
fn next_fitting(counts: &[u8; 34], first: usize, third: usize, kinds: &mut usize) -> Option<Kind>
    requires within { first + kinds.old ≤ 34 }
    requires third { third ≡ third_of_pair counts.now }
    ensures fewer { MatchOption result (kinds.new ≡ 0) (λ _. kinds.new < kinds.old) }
    ensures splits { (wanted choices : ℕ) → MatchOption result
        (from_pairs counts.now wanted choices first kinds.old ≡ [])
        (λ pair. from_pairs counts.now wanted choices first kinds.old
        ≡ from_choices counts.now wanted pair choices ++ from_pairs counts.now wanted choices first kinds.new) }
{
    *kinds = fitting(first, third, *kinds);
    while *kinds > 0 {
        let number = first + *kinds - 1;
        if counts[number] >= 2 {
            *kinds -= 1;
            return Some(Kind::at(number as u8));
        }
        *kinds = kinds.saturating_sub(3);
    }
    None
}
