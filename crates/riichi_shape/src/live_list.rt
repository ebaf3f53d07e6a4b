//! The kinds that a hand accepts.
ghost use Rattle.std.specs.Prelude.{ℕ, ◌≡◌, ◌≤◌, ◌↔◌, IsTrue, [], length, slice_index};
ghost use Rattle.std.specs.Cmp.{decided, partial_equiv_from_equiv};
ghost use Rattle.riichi_shape.specs.Equality.{live_decides, live_eq};
ghost use Rattle.riichi_shape.specs.LiveCopies.{copies_in, live_in, pairs_of};

use riichi_tiles::Kind;
use std::marker::Model;

/// How many copies are live of each kind, none of most; seen as the list of the kinds that have
/// live copies, ascending, each with their number.
#[derive(Clone, Copy, Debug)]
pub struct LiveList {
    copies: [u8; 34],
}

impl Model for LiveList {
    ghost use Rattle.std.specs.Prelude.{ℕ, List};
    ghost use Rattle.riichi_shape.specs.LiveCopies.{AreLive, copies_from, pairs_of};

    ghost Value = { List (ℕ × ℕ) };

    ghost view = { λ l. pairs_of l.copies };

    ghost invariant = { λ l. AreLive l.copies };

    ghost inverse = { λ p. record { copies = copies_from p } };
}

impl PartialEq for LiveList {
    ghost eq = { live_eq };

    ghost laws = { partial_equiv_from_equiv (decided live_eq live_decides) };

    fn eq(&self, other: &LiveList) -> bool {
        self.copies == other.copies
    }
}

impl Eq for LiveList {
    ghost laws = { decided live_eq live_decides };
}

impl LiveList {
    /// The list of these live copies.
    #[tactic(auto, using(crate::proofs::LiveLemmas::are_live))]
    pub(crate) fn new(copies: [u8; 34]) -> LiveList
        requires { (kind : ℕ) → slice_index copies kind ≤ 4 }
        ensures { result ≡ pairs_of copies }
    {
        LiveList { copies }
    }

    /// How many copies of a kind are live.
    #[tactic(auto, using(crate::proofs::LiveLemmas::told_at))]
    pub fn get(&self, kind: Kind) -> u8
        ensures value { result ≡ copies_in self.now kind }
        ensures most { result ≤ 4 }
    {
        self.copies[kind.index()]
    }

    /// How many tiles are live in all.
    pub fn live(&self) -> u32
        ensures value { result ≡ live_in self.now }
        ensures most { result ≤ 136 }
        ensures none { result ≡ 0 → self.now ≡ [] }
    {
        let mut live = 0u8;
        for copies in &self.copies {
            live += *copies;
        }
        live as u32
    }

    /// No kind has live copies.
    pub fn is_empty(&self) -> bool
        ensures { IsTrue result ↔ (self.now ≡ []) }
    {
        self.live() == 0
    }

    /// The live copies of every kind, lent.
    pub fn copies(&self) -> &[u8; 34]
        ensures value { self.now ≡ pairs_of result.now }
        ensures kinds { length result.now ≡ 34 }
        ensures most { (kind : ℕ) → slice_index result.now kind ≤ 4 }
    {
        &self.copies
    }
}
