//! Sets of yaku.
ghost use Rattle.std.specs.Prelude.{◌≡◌, ◌+◌, ◌*◌, ◌<◌, ◌≤◌, ◌^◌, ◌==◌, ◌++◌, length, if◌then◌else◌};
ghost use Rattle.std.specs.Iterator.{YieldsFirst, item_count};
ghost use Rattle.riichi_yaku.specs.Table.{number};
ghost use Rattle.riichi_yaku.specs.YakuSets as spec;

use crate::Yaku;
use arrayvec::ArrayString;
use std::iter::FusedIterator;
use std::marker::Model;

/// A set of yaku, seen as the number whose bit n says that the yaku with number n is in it.
#[derive(Clone, Copy, Debug, PartialEq, Eq)]
pub struct YakuSet {
    bits: u64,
}

impl Model for YakuSet {
    ghost use Rattle.std.specs.Prelude.{ℕ, ◌<◌, ◌^◌};
    ghost use Rattle.riichi_yaku.specs.declared.table.TheConstants.Yaku.{COUNT};

    ghost Value = { ℕ };

    ghost view = { λ s. s.bits };

    ghost invariant = { λ s. s.bits < 2 ^ COUNT };

    ghost inverse = { λ n. record { bits = n } };
}

impl YakuSet {
    pub(crate) fn none() -> YakuSet
        ensures { result ≡ 0 }
    {
        YakuSet { bits: 0 }
    }

    /// The set with one more yaku, if it holds. Yaku come in the order of the table.
    #[inline(always)]
    pub(crate) fn with(self, yaku: Yaku, holds: bool) -> YakuSet
        requires { self < 2 ^ number yaku }
        ensures value { result ≡ self + 2 ^ number yaku * (if holds then 1 else 0) }
        ensures below { result < 2 ^ (number yaku + 1) }
    {
        if holds {
            YakuSet {
                bits: self.bits + (1 << yaku.number()),
            }
        } else {
            self
        }
    }

    /// Whether the yaku is in the set.
    pub fn contains(self, yaku: Yaku) -> bool
        ensures { result ≡ spec.contains self yaku }
    {
        (self.bits >> yaku.number()) & 1 == 1
    }

    /// Whether no yaku is in the set.
    pub fn is_empty(self) -> bool
        ensures { result ≡ (self == 0) }
    {
        self.bits == 0
    }

    /// Whether a yakuman is in the set, and so nothing but yakuman.
    pub fn is_yakuman(self) -> bool
        ensures { result ≡ spec.is_yakuman self }
    {
        self.bits >= 1 << 29
    }

    /// The number itself.
    pub fn bits(self) -> u64
        ensures value { result ≡ self }
        ensures below { self < 2 ^ Yaku.COUNT }
    {
        self.bits
    }

    /// Its yaku, in the order of the table.
    #[tactic(auto, using(crate::proofs::InOrder::yaku_in_most))]
    pub fn iter(self) -> YakuIter
        ensures value { result ≡ spec.yaku_in self }
        ensures most { length (spec.yaku_in self) ≤ Yaku.COUNT }
    {
        YakuIter { rest: self.bits }
    }

    /// The han of its yaku together.
    #[tactic(auto, unfolding(crate::specs::YakuSets::han_of))]
    pub fn han(self, concealed: bool) -> u8
        ensures value { result ≡ spec.han_of self concealed }
        ensures most { result ≤ 60 }
    {
        let mut sum = 0;
        for yaku in self.iter() {
            sum += yaku.han(concealed);
        }
        sum
    }
}

/// The yaku of a set, seen as the list of those that are left.
#[derive(Drop)]
pub struct YakuIter {
    rest: u64,
}

impl Model for YakuIter {
    ghost use Rattle.std.specs.Prelude.{List, ◌<◌, ◌^◌};
    ghost use Rattle.riichi_yaku.specs.declared.table.TheConstants.Yaku.{COUNT};
    ghost use Rattle.riichi_yaku.specs.declared.table.Yaku.{Yaku};
    ghost use Rattle.riichi_yaku.specs.YakuSets.{yaku_in};

    ghost Value = { List Yaku };

    ghost view = { λ i. yaku_in i.rest };

    ghost invariant = { λ i. i.rest < 2 ^ COUNT };
}

impl Iterator for YakuIter {
    type Item = Yaku;

    ghost next_gives = { YieldsFirst (λ left. left) };

    ghost remaining = { item_count (λ left. left) };

    #[tactic(auto, using(crate::proofs::InOrder::next_facts))]
    fn next(&mut self) -> Option<Yaku> {
        if self.rest == 0 {
            return None;
        }
        let number = self.rest.trailing_zeros();
        self.rest &= !(1 << number);
        Some(Yaku::at(number as u8))
    }
}

impl FusedIterator for YakuIter {}

/// Writes the words of a set behind a text, in the order of the table, each after a space.
#[tactic(auto, unfolding(crate::specs::YakuSets::yaku_words))]
pub fn push_words<const ROOM: usize>(text: &mut ArrayString<ROOM>, set: YakuSet)
    requires { length text.old.bytes + Yaku.MOST_WORDS ≤ ROOM }
    ensures value { text.new.bytes ≡ text.old.bytes ++ spec.yaku_words set }
    ensures most { length text.new.bytes ≤ length text.old.bytes + Yaku.MOST_WORDS }
{
    for yaku in set.iter() {
        text.push_str(" ");
        text.push_str(yaku.word());
    }
}
