//! The blocks of a hand, and words on them. A triplet is a triplet or a kong.
ghost use Rattle.std.specs.Prelude.{◌≡◌, ◌*◌, ◌<◌, ◌≤◌, [], ◌∷◌, ◌++◌, length, count_by, nat_le};
ghost use Rattle.std.specs.List.{list_all, list_any, sum_by};
ghost use Rattle.riichi_blocks.specs.BlockKinds.{has_honour, has_orphan, has_terminal};
ghost use Rattle.riichi_blocks.specs.HandBlocks as spec;
ghost use Rattle.riichi_blocks.specs.Tally.{set_fu};

use crate::HandBlock;
use crate::block_kinds::{has_honour, has_orphan};
use arrayvec::ArrayVec;
use riichi_tiles::{Kind, KindSet};
use std::marker::Model;

/// The blocks of a whole hand, seen as their list. What conditions ask of them again and again is tallied as they are pushed.
#[derive(Drop)]
pub struct Blocks {
    list: ArrayVec<HandBlock, 9>,
    // The kinds with which runs begin, and those with which two or more do.
    runs_from: KindSet,
    runs_again: KindSet,
    // Those of triplets and kongs.
    triplets_of: KindSet,
    runs: u8,
    triplets: u8,
    concealed: u8,
    kongs: u8,
    // Whether each block has a terminal or an honour, and whether some block is of honours.
    outer: bool,
    honours: bool,
    // What the sets earn.
    fu: u16,
}

impl Model for Blocks {
    ghost use Rattle.std.specs.Prelude.{List};
    ghost use Rattle.riichi_blocks.specs.declared.hand_block.HandBlock.{HandBlock};
    ghost use Rattle.riichi_blocks.specs.Tally.{IsTally};

    ghost Value = { List HandBlock };

    ghost view = { λ b. b.list.items };

    ghost invariant = { λ b. IsTally b.list.items b.runs_from b.runs_again b.triplets_of b.runs b.triplets b.concealed b.kongs b.outer b.honours b.fu };
}

impl Blocks {
    /// No blocks.
    pub fn new() -> Blocks
        ensures { result ≡ [] }
    {
        Blocks {
            list: ArrayVec::new(),
            runs_from: KindSet::new(),
            runs_again: KindSet::new(),
            triplets_of: KindSet::new(),
            runs: 0,
            triplets: 0,
            concealed: 0,
            kongs: 0,
            outer: true,
            honours: false,
            fu: 0,
        }
    }

    /// The blocks, in their order.
    pub fn as_slice(&self) -> &[HandBlock]
        ensures value { result.now ≡ self.now }
        ensures most { length result.now ≤ 9 }
    {
        self.list.as_slice()
    }

    /// One more block, where there are fewer than nine.
    #[inline(always)]
    pub fn push(&mut self, block: HandBlock)
        requires { length self.old < 9 }
        ensures { self.new ≡ self.old ++ block ∷ [] }
    {
        let kind = block.kind();
        let (is_run, is_triplet) = (block.is_run(), block.is_triplet());
        let comes_again = is_run & self.runs_from.has(kind.index());
        self.list.push(block);
        self.runs_again.insert_if(kind, comes_again);
        self.runs_from.insert_if(kind, is_run);
        self.triplets_of.insert_if(kind, is_triplet);
        self.runs += u8::from(is_run);
        self.triplets += u8::from(is_triplet);
        self.concealed += u8::from(block.is_concealed());
        self.kongs += u8::from(block.is_kong());
        self.outer = self.outer & has_orphan(&block);
        self.honours = self.honours | has_honour(&block);
        self.fu += block.set_fu();
    }

    /// Whether some block is the run from this kind on.
    pub fn has_run(&self, low: usize) -> bool
        requires { low < 34 }
        ensures { result ≡ spec.has_run self.now low }
    {
        self.runs_from.has(low)
    }

    /// Whether some block is a triplet or a kong of this kind.
    pub fn has_triplet(&self, kind: usize) -> bool
        requires { kind < 34 }
        ensures { result ≡ spec.has_triplet self.now kind }
    {
        self.triplets_of.has(kind)
    }

    /// How many blocks are the run that this one is. None where it is no run.
    pub fn runs_equal_to(&self, block: &HandBlock) -> usize
        ensures { result ≡ spec.runs_equal_to self.now block.now }
    {
        match block {
            HandBlock::Run(low) => {
                let runs = self.as_slice().iter();
                runs.filter(|held| is_run_from(*low, held)).count()
            }
            _ => 0,
        }
    }

    /// Whether two blocks are one run.
    pub fn has_equal_runs(&self) -> bool
        ensures { result
            ≡ list_any (λ block. nat_le 2 (spec.runs_equal_to self.now block)) self.now }
    {
        !self.runs_again.is_empty()
    }

    /// Whether each block has a terminal or an honour.
    pub fn all_have_orphans(&self) -> bool
        ensures { result ≡ list_all has_orphan self.now }
    {
        self.outer
    }

    /// Whether each block has a terminal.
    #[tactic(auto, using(crate::proofs::Tally::all_terminals))]
    pub fn all_have_terminals(&self) -> bool
        ensures { result ≡ list_all has_terminal self.now }
    {
        self.outer & !self.honours
    }

    /// Whether some block is of winds or dragons.
    pub fn some_has_honour(&self) -> bool
        ensures { result ≡ list_any has_honour self.now }
    {
        self.honours
    }

    /// How many blocks are runs.
    pub fn runs(&self) -> usize
        ensures { result ≡ count_by spec.is_run self.now }
    {
        self.runs as usize
    }

    /// Whether some block is a run.
    #[tactic(auto, using(crate::proofs::Tally::counted_any))]
    pub fn has_runs(&self) -> bool
        ensures { result ≡ list_any spec.is_run self.now }
    {
        self.runs > 0
    }

    /// How many blocks are triplets or kongs.
    pub fn triplets(&self) -> usize
        ensures { result ≡ count_by spec.is_triplet_or_kong self.now }
    {
        self.triplets as usize
    }

    /// How many blocks are concealed triplets or concealed kongs.
    pub fn concealed_triplets(&self) -> usize
        ensures { result ≡ count_by spec.is_concealed_triplet self.now }
    {
        self.concealed as usize
    }

    /// How many blocks are kongs.
    pub fn kongs(&self) -> usize
        ensures { result ≡ count_by spec.is_kong_block self.now }
    {
        self.kongs as usize
    }

    /// The fu of the sets.
    pub fn sets_fu(&self) -> u16
        ensures value { result ≡ sum_by set_fu self.now }
        ensures most { result ≤ 32 * length self.now }
    {
        self.fu
    }
}

fn is_run_from(low: Kind, block: &HandBlock) -> bool
    ensures { result ≡ spec.is_run_from low block.now }
{
    match block {
        HandBlock::Run(held) => *held == low,
        _ => false,
    }
}
