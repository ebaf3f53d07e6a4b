//! A discard as it is kept.
ghost use Rattle.std.specs.Prelude.{ℕ, ◌≡◌, ◌<◌, ◌≤◌, ◌^◌, slice_index};
ghost use Rattle.riichi_shape.specs.KeptDiscards.{accepted_kinds, no_discard, told};

use crate::discard::Discard;
use crate::live_copies::copies_among;
use crate::live_list::LiveList;
use riichi_tiles::{Kind, KindSet};

/// A discard without the live copies of the kinds that it accepts, which stand once for all discards of a hand.
#[derive(Clone, Copy, Debug, PartialEq, Eq)]
pub(crate) struct KeptDiscard {
    /// A bit for each kind of the suits with numbers that it accepts. It stands first, so that a discard takes eight bytes.
    numbers: u32,
    /// A bit for each honour.
    honours: u8,
    pub(crate) kind: Kind,
    /// How many tiles it accepts in all.
    pub(crate) live: u8,
}

/// The bit of the first honour in a set of kinds.
const FIRST_HONOUR: u64 = 1 << 27;

impl KeptDiscard {
    pub(crate) fn new(kind: Kind, live: u8, accepted: KindSet) -> KeptDiscard
        ensures kind { result.kind ≡ kind }
        ensures live { result.live ≡ live }
        ensures accepted { accepted_kinds result ≡ accepted }
        ensures numbers { result.numbers < 2 ^ 27 }
        ensures honours { result.honours < 2 ^ 7 }
    {
        let bits = accepted.bits();
        KeptDiscard {
            numbers: (bits % FIRST_HONOUR) as u32,
            honours: (bits / FIRST_HONOUR) as u8,
            kind,
            live,
        }
    }

    /// What stands in a place without a discard.
    pub(crate) fn none() -> KeptDiscard
        ensures { result ≡ no_discard }
    {
        KeptDiscard {
            numbers: 0,
            honours: 0,
            kind: Kind::at(0),
            live: 0,
        }
    }

    /// The kinds that it accepts.
    pub(crate) fn accepted(&self) -> KindSet
        requires { accepted_kinds self.now < 2 ^ 34 }
        ensures { result ≡ accepted_kinds self.now }
    {
        KindSet::from_bits(self.honours as u64 * FIRST_HONOUR + self.numbers as u64)
    }

    /// The discard, beside these live copies.
    #[tactic(auto, using(crate::proofs::KeptLemmas::told_is, crate::proofs::KindLemmas::few_among))]
    pub(crate) fn told(&self, copies: &[u8; 34]) -> Discard
        requires kinds { accepted_kinds self.now < 2 ^ 34 }
        requires few { (kind : ℕ) → slice_index copies.now kind ≤ 4 }
        ensures { result ≡ told copies.now self.now }
    {
        Discard {
            kind: self.kind,
            accepted: LiveList::new(copies_among(copies, self.accepted())),
        }
    }
}
