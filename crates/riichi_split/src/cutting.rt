//! One way to cut tiles into sets, by a number that makes the choices.
ghost use Rattle.std.specs.Prelude.{◌≡◌, ℕ, ◌+◌, ◌<◌, ◌≤◌, ◌++◌, drop, length, replicate, slice_index};
ghost use Rattle.riichi_split.specs.Cuts.{may_have_runs, begins, choice_of, begun, cut_from, HoldsAtMost};

use crate::sets::Sets;
use riichi_tiles::{Block, Kind, KindSet};

/// What begins at a kind: a triplet or none, and some runs. `choices` are those for the kinds above.
#[derive(Clone, Copy)]
pub(crate) struct Choice {
    pub(crate) triplets: usize,
    pub(crate) runs: usize,
    pub(crate) choices: usize,
}

/// So many sets, where that many are wanted and runs may begin at the kind.
fn begins(kind: usize, left: usize, choice: Choice) -> Option<Choice>
    requires kind { kind < 34 }
    requires few { choice.triplets + choice.runs < 512 }
    ensures { result ≡ begins kind left choice.triplets choice.runs choice.choices }
{
    let kind = Kind::at(kind as u8);
    if left < choice.triplets + choice.runs || choice.runs > 0 && !kind.begins_run() {
        None
    } else {
        Some(choice)
    }
}

/// Whether both kinds above one have three tiles or more: three runs might begin at the kind.
pub(crate) fn may_have_runs(counts: &[u8; 34], kind: usize) -> bool
    requires { kind < 34 }
    ensures { result ≡ may_have_runs (drop (kind + 1) counts.now) }
{
    kind < 32 && counts[kind + 1] >= 3 && counts[kind + 2] >= 3
}

/// What begins at a kind, where `below` of its tiles belong to runs begun below. Three free tiles are
/// a triplet, but where three runs might begin the next of the choices' bits says whether they are.
fn choose(
    counts: &[u8; 34],
    kind: usize,
    below: usize,
    left: usize,
    choices: usize,
) -> Option<Choice>
    requires { kind < 34 }
    ensures { result
        ≡ choice_of kind (slice_index counts.now kind) (may_have_runs (drop
        (kind + 1) counts.now)) below left choices }
{
    let count = counts[kind] as usize;
    if count < below {
        return None;
    }
    let free = count - below;
    if free < 3 {
        let choice = Choice {
            triplets: 0,
            runs: free,
            choices,
        };
        return begins(kind, left, choice);
    }
    let (triplets, choices) = if may_have_runs(counts, kind) {
        (choices % 2, choices / 2)
    } else {
        (1, choices)
    };
    let choice = Choice {
        triplets,
        runs: free - 3 * triplets,
        choices,
    };
    begins(kind, left, choice)
}

fn begin(sets: &mut Sets, kind: Kind, choice: Choice)
    requires { length sets.old + choice.triplets + choice.runs ≤ 4 }
    ensures { sets.new ≡ sets.old ++ begun kind choice }
{
    for triplet in 0..choice.triplets {
        sets.push(Block::Triplet(kind));
    }
    for run in 0..choice.runs {
        sets.push(Block::Run(kind));
    }
}

/// The sets that use up the counts, as the choices say. No kind is held but those of `held`.
pub(crate) fn cut(counts: &[u8; 34], held: KindSet, wanted: usize, choices: usize) -> Option<Sets>
    requires wanted { wanted ≤ 4 }
    requires held { HoldsAtMost counts.now held }
    ensures { result ≡ cut_from 0 counts.now 0 0 wanted choices }
{
    let mut sets = Sets::new();
    let (mut one, mut two, mut left, mut choices) = (0, 0, wanted, choices);
    let mut index = held.first_from(0);
    while index < 34 {
        let choice = choose(counts, index, one + two, left, choices)?;
        begin(&mut sets, Kind::at(index as u8), choice);
        two = one;
        one = choice.runs;
        left -= choice.triplets + choice.runs;
        choices = choice.choices;
        index += 1;
        if one == 0 && two == 0 {
            index = held.first_from(index);
        }
    }
    if one == 0 && two == 0 && left == 0 && choices == 0 {
        Some(sets)
    } else {
        None
    }
}
