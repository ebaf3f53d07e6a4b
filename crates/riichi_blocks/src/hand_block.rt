//! A block of a whole hand.
ghost use Rattle.std.specs.Prelude.{◌≡◌, ◌≤◌};
ghost use Rattle.riichi_blocks.specs.HandBlocks as spec;
ghost use Rattle.riichi_blocks.specs.Tally.{kind_of, set_fu};

use crate::kinds::orphans;
use riichi_hand::{By, is_ron};
use riichi_tiles::{Block, Kind, Meld};

/// A block of a standard reading or a meld. A triplet in hand that the winning tile completes by ron is open.
#[derive(Clone, Copy, Debug, PartialEq, Eq)]
pub enum HandBlock {
    /// Named by its lowest kind.
    Run(Kind),
    Triplet { kind: Kind, concealed: bool },
    Kong { kind: Kind, concealed: bool },
    Pair(Kind),
}

/// What fills the places of a list that no block has taken.
impl Default for HandBlock {
    ghost use Rattle.riichi_blocks.specs.declared.hand_block.HandBlock.TheVariants.{Pair};

    ghost is_default = { λ block. block ≡ Pair 0 };

    fn default() -> Self {
        HandBlock::Pair(Kind::at(0))
    }
}

/// What is tallied of a block. None of these is a jump, so that blocks can come in any order.
impl HandBlock {
    /// The kind that it is named by.
    #[inline(always)]
    pub(crate) fn kind(&self) -> Kind
        ensures { result ≡ kind_of self.now }
    {
        match *self {
            HandBlock::Run(kind)
            | HandBlock::Triplet { kind, .. }
            | HandBlock::Kong { kind, .. }
            | HandBlock::Pair(kind) => kind,
        }
    }

    #[inline(always)]
    pub(crate) fn is_run(&self) -> bool
        ensures { result ≡ spec.is_run self.now }
    {
        matches!(self, HandBlock::Run(_))
    }

    /// Whether it is a triplet or a kong.
    #[inline(always)]
    pub(crate) fn is_triplet(&self) -> bool
        ensures { result ≡ spec.is_triplet_or_kong self.now }
    {
        matches!(self, HandBlock::Triplet { .. } | HandBlock::Kong { .. })
    }

    /// Whether it is a concealed triplet or a concealed kong.
    #[inline(always)]
    pub(crate) fn is_concealed(&self) -> bool
        ensures { result ≡ spec.is_concealed_triplet self.now }
    {
        match *self {
            HandBlock::Triplet { concealed, .. } | HandBlock::Kong { concealed, .. } => concealed,
            _ => false,
        }
    }

    #[inline(always)]
    pub(crate) fn is_kong(&self) -> bool
        ensures { result ≡ spec.is_kong_block self.now }
    {
        matches!(self, HandBlock::Kong { .. })
    }

    /// What it earns if it is no pair: 2 for a triplet, doubled for each thing that makes it worth more, and twice for a kong.
    #[inline(always)]
    #[tactic(auto, using(crate::proofs::Tally::doubled, riichi_tiles::proofs::KindSets::where_at))]
    pub(crate) fn set_fu(&self) -> u16
        ensures value { result ≡ set_fu self.now }
        ensures most { result ≤ 32 }
    {
        let is_orphan = orphans().has(self.kind().index());
        let more = u16::from(self.is_concealed())
            + u16::from(is_orphan)
            + 2 * u16::from(self.is_kong());
        u16::from(self.is_triplet()) << (1 + more)
    }
}

pub(crate) fn of_set(by: By, done: &Block, set: &Block) -> HandBlock
    ensures { result ≡ spec.of_set by done.now set.now }
{
    match *set {
        Block::Run(low) => HandBlock::Run(low),
        Block::Triplet(kind) => {
            let claimed = is_ron(by) & is_this_triplet(kind, done);
            HandBlock::Triplet {
                kind,
                concealed: !claimed,
            }
        }
        Block::Pair(kind) => HandBlock::Pair(kind),
    }
}

fn is_this_triplet(kind: Kind, block: &Block) -> bool
    ensures { result ≡ spec.is_this_triplet kind block.now }
{
    match block {
        Block::Triplet(held) => *held == kind,
        _ => false,
    }
}

pub(crate) fn of_meld(meld: &Meld) -> HandBlock
    ensures { result ≡ spec.of_meld meld.now }
{
    match *meld {
        Meld::Chi(low) => HandBlock::Run(low),
        Meld::Pon(kind) => HandBlock::Triplet {
            kind,
            concealed: false,
        },
        Meld::Kan(kind) => HandBlock::Kong {
            kind,
            concealed: false,
        },
        Meld::Ankan(kind) => HandBlock::Kong {
            kind,
            concealed: true,
        },
    }
}
