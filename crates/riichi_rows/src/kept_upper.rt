//! The ranks from the fifth on with what they were made of.
ghost use Rattle.std.specs.Prelude.{ℕ, ◌≡◌, ◌<◌, ◌≤◌, IfSome, length, slice_index};
ghost use Rattle.riichi_rows.specs.Ranks.{AreRanks};

use crate::open::Open;
use crate::ranks::upper_ranks;
use crate::row_key::RowKey;
use std::marker::Model;

/// The upper ranks of a key whose lower ones are 0: suits that are alike from the fifth rank on have it in common.
#[derive(Clone, Copy)]
pub struct KeptUpper {
    key: RowKey,
    upper: Open,
}

impl Model for KeptUpper {
    ghost use Rattle.riichi_rows.specs.declared.open.Open.{Open};
    ghost use Rattle.riichi_rows.specs.declared.row_key.RowKey.{RowKey};
    ghost use Rattle.riichi_rows.specs.Ranks.{AreRanks};

    ghost Value = { RowKey × Open };

    ghost view = { λ kept. (kept.key, kept.upper) };

    ghost invariant = { λ kept. AreRanks kept.key.runs 4 kept.key.counts kept.key.caps kept.upper };

    ghost inverse = { λ pair. record { key = pair.0; upper = pair.1 } };
}

impl KeptUpper {
    /// They are made here.
    fn new(key: RowKey) -> KeptUpper
        requires { (r : ℕ) → r < 9 → slice_index key.caps r ≤ 4 }
        ensures { result.0 ≡ key }
    {
        KeptUpper {
            key,
            upper: upper_ranks(&key.counts, &key.caps, key.runs),
        }
    }

    /// Those of no tiles of which none may be held: what stands in a place before others.
    pub fn of_nothing() -> KeptUpper {
        KeptUpper::new(RowKey::new(&[0; 9], &[0; 9], false))
    }

    /// They, if they are those of this key.
    fn upper_of(&self, key: &RowKey) -> Option<Open>
        ensures { IfSome result (AreRanks key.now.runs 4 key.now.counts key.now.caps) }
    {
        if self.key.is(key) {
            Some(self.upper)
        } else {
            None
        }
    }
}

/// The upper ranks of a key: those at its place, or new ones, to which the others give way.
pub(crate) fn upper_at(places: &mut [KeptUpper], key: &RowKey) -> Open
    requires some { 0 < length places.old }
    requires caps { (r : ℕ) → r < 9 → slice_index key.now.caps r ≤ 4 }
    ensures upper { AreRanks key.now.runs 4 key.now.counts key.now.caps result }
    ensures places { length places.new ≡ length places.old }
{
    let own = key.upper();
    let place = own.spread(places.len());
    if let Some(upper) = places[place].upper_of(&own) {
        return upper;
    }
    let made = KeptUpper::new(own);
    places[place] = made;
    made.upper
}
