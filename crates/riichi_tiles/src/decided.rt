//! Equality of what callers see.
ghost use Rattle.std.specs.Prelude.{◌≡◌, ◌↔◌, IsTrue};
ghost use Rattle.std.specs.Bool.{Decides};
ghost use Rattle.std.proofs.Common.{refl, rules};
ghost use Rattle.std.proofs.lemmas.Slice.Eq.{slice_eq-Decides};
ghost use Rattle.riichi_tiles.specs.Equality.{vec_decides};

use crate::block::Block;
use crate::by_suit::BySuit;
use crate::counts::Counts;
use crate::kind::Kind;
use crate::kind_set::KindSet;
use crate::meld::Meld;
use crate::melds::Melds;
use crate::notation::{NotationCode, NotationFault};
use crate::reds::Reds;
use crate::suit::Suit;
use arrayvec::ArrayVec;

/// A type whose `==` says whether two values are one, as callers see them: it forgets no part and sees no more.
pub trait Decided: PartialEq {
    ghost decides: { (a b : Self) → Decides (Self.eq a b) (a ≡ b) };
}

/// Whether two values are one: what `==` answers.
pub fn is_same<T: Decided>(a: &T, b: &T) -> bool
    ensures { IsTrue result ↔ (a.now ≡ b.now) }
{
    *a == *b
}

impl Decided for Kind {
    ghost decides = { λ a b. Prim.search rules };
}

impl Decided for Suit {
    ghost decides = { λ a b. Prim.search rules };
}

impl<T: Decided> Decided for BySuit<T> {
    ghost decides = { λ a b. Prim.search (rules, T.decides) };
}

impl Decided for Counts {
    ghost decides = { λ a b. Prim.search rules };
}

impl Decided for KindSet {
    ghost decides = { λ a b. Prim.search rules };
}

impl Decided for Meld {
    ghost decides = { λ a b. Prim.search rules };
}

impl Decided for Melds {
    ghost decides = { λ a b. slice_eq-Decides (λ x y. Prim.search rules) a b (Self.eq a b) refl };
}

impl Decided for Block {
    ghost decides = { λ a b. Prim.search rules };
}

impl Decided for Reds {
    ghost decides = { λ a b. Prim.search rules };
}

impl Decided for NotationCode {
    ghost decides = { λ a b. Prim.search rules };
}

impl Decided for NotationFault {
    ghost decides = { λ a b. Prim.search rules };
}

impl<T: Decided, const N: usize> Decided for ArrayVec<T, N> {
    ghost decides = { vec_decides T.decides };
}
