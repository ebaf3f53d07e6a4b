//! Why a hand waits for a kind.
ghost use Rattle.std.specs.Prelude.{◌≡◌, ◌+◌, ◌<◌, ◌≤◌, ◌++◌, length, IsTrue};
ghost use Rattle.std.specs.List.{flat_map};
ghost use Rattle.riichi_hand.specs.Hand.{copies_held};
ghost use Rattle.riichi_split.specs.Waits.{waits_of, is_wait, with_one};
ghost use Rattle.riichi_split.specs.ReadingsOf.{readings_of};
ghost use Rattle.riichi_tiles.specs.Tiles.{IsCounts};
ghost use Rattle.riichi_tiles.specs.declared.block.Block.TheVariants.{Run};
ghost use Rattle.riichi_explain.specs.Waits as spec;

use arrayvec::ArrayVec;
use riichi_blocks::{is_closed_wait, is_edge_wait};
use riichi_hand::HandRecord;
use riichi_split::{Reading, Readings, waits};
use riichi_tiles::{Block, Counts, Kind, KindSet, Melds};

/// The sorts of wait that the readings of a hand make: several, where it is read in several ways.
#[derive(Clone, Copy, Debug, PartialEq, Eq)]
pub struct WaitSorts {
    /// A run that two kinds complete.
    pub two_sided: bool,
    /// The middle of a run.
    pub closed: bool,
    /// The 3 of 123 or the 7 of 789.
    pub edge: bool,
    /// The second tile of the pair, of seven pairs too.
    pub pair: bool,
    /// The third tile of one of two pairs.
    pub two_pairs: bool,
    /// The last of the thirteen orphans.
    pub orphans: bool,
}

/// A kind that a hand waits for.
#[derive(Clone, Copy, Debug, PartialEq, Eq)]
pub struct KindWait {
    pub kind: Kind,
    /// The copies that neither hand nor melds hold.
    pub left: u8,
    pub sorts: WaitSorts,
}

/// What fills the places of a list that no wait has taken.
impl Default for KindWait {
    ghost use Rattle.riichi_explain.specs.Waits.{no_sorts};

    ghost is_default = { λ row. row ≡ record { kind = 0; left = 0; sorts = no_sorts } };

    fn default() -> Self {
        KindWait {
            kind: Kind::at(0),
            left: 0,
            sorts: WaitSorts::none(),
        }
    }
}

/// The most kinds that a hand may wait for: all.
pub const MOST_KIND_WAITS: usize = 34;

/// The kinds that a hand waits for, in their order.
pub type KindWaits = ArrayVec<KindWait, MOST_KIND_WAITS>;

/// What a hand waits for, and why.
#[derive(Drop)]
pub struct ExplainedWaits {
    pub kinds: KindSet,
    /// One of each kind.
    pub rows: KindWaits,
}

impl WaitSorts {
    ghost use Rattle.riichi_explain.specs.Waits.{no_sorts, both_sorts};

    fn none() -> WaitSorts
        ensures { result ≡ no_sorts }
    {
        WaitSorts {
            two_sided: false,
            closed: false,
            edge: false,
            pair: false,
            two_pairs: false,
            orphans: false,
        }
    }

    /// The sorts of both.
    fn and(self, other: WaitSorts) -> WaitSorts
        ensures { result ≡ both_sorts self other }
    {
        WaitSorts {
            two_sided: self.two_sided || other.two_sided,
            closed: self.closed || other.closed,
            edge: self.edge || other.edge,
            pair: self.pair || other.pair,
            two_pairs: self.two_pairs || other.two_pairs,
            orphans: self.orphans || other.orphans,
        }
    }
}

/// Each kind that a hand waits for, how many of it are left, and which sorts of wait its readings make.
#[tactic(auto, using(crate::proofs::Lists::flat_map_more))]
pub fn explain_waits(hand: &HandRecord) -> ExplainedWaits
    ensures kinds { result.kinds ≡ waits_of hand.now }
    ensures rows { result.rows.items ≡ spec.kind_waits hand.now }
{
    let kinds = waits(hand);
    let mut rows = ArrayVec::new();
    for number in 0..34 {
        push_kind_wait(&mut rows, hand, &kinds, Kind::at(number));
    }
    ExplainedWaits { kinds, rows }
}

#[tactic(auto, using(crate::proofs::WaitLemmas::push_kind_wait_facts))]
fn push_kind_wait(rows: &mut KindWaits, hand: &HandRecord, kinds: &KindSet, kind: Kind)
    requires kind { kind < 34 }
    requires kinds { kinds.now ≡ waits_of hand.now }
    requires room { length rows.old.items < MOST_KIND_WAITS }
    ensures items { rows.new.items ≡ rows.old.items ++ spec.waits_at hand.now kind }
    ensures most { length rows.new.items ≤ length rows.old.items + 1 }
{
    if kinds.contains(kind) {
        rows.push(kind_wait(hand, kind));
    }
}

#[tactic(auto, unfolding(crate::specs::Waits::kind_wait))]
fn kind_wait(hand: &HandRecord, kind: Kind) -> KindWait
    requires { copies_held hand.now.concealed hand.now.melds kind < 4 }
    ensures { result ≡ spec.kind_wait hand.now kind }
{
    let mut tiles = hand.concealed();
    let melds = hand.melds();
    let left = 4 - (tiles.get(kind) + melds.tiles(kind));
    tiles.add(kind);
    let sorts = sorts_of(&tiles, &melds, kind);
    KindWait { kind, left, sorts }
}

/// The sorts of wait over all readings of some tiles, the winning one among them.
#[tactic(auto, using(crate::proofs::WaitLemmas::sorts_of_facts))]
fn sorts_of(tiles: &Counts, melds: &Melds, winning: Kind) -> WaitSorts
    requires { IsCounts tiles.now }
    ensures { result ≡ spec.sorts_in winning (readings_of tiles.now (length melds.now) winning) }
{
    let _told = melds.count();
    let mut sorts = WaitSorts::none();
    for reading in Readings::new(tiles, melds, winning) {
        sorts = sorts.and(sorts_by(winning, &reading));
    }
    sorts
}

fn sorts_by(winning: Kind, reading: &Reading) -> WaitSorts
    ensures { result ≡ spec.sorts_by winning reading.now }
{
    match reading {
        Reading::Standard { done, .. } => block_sorts(winning, done),
        Reading::SevenPairs => WaitSorts {
            pair: true,
            ..WaitSorts::none()
        },
        Reading::Orphans => WaitSorts {
            orphans: true,
            ..WaitSorts::none()
        },
    }
}

/// The sort that a completed block makes.
fn block_sorts(winning: Kind, done: &Block) -> WaitSorts
    ensures { result ≡ spec.block_sorts winning done.now }
{
    match done {
        Block::Run(low) => run_sorts(low.index(), winning.index()),
        Block::Triplet(_) => WaitSorts {
            two_pairs: true,
            ..WaitSorts::none()
        },
        Block::Pair(_) => WaitSorts {
            pair: true,
            ..WaitSorts::none()
        },
    }
}

fn run_sorts(low: usize, winning: usize) -> WaitSorts
    requires { low ≤ 33 }
    ensures { result ≡ spec.block_sorts winning (Run low) }
{
    let closed = is_closed_wait(low, winning);
    let edge = is_edge_wait(low, winning);
    WaitSorts {
        two_sided: !(closed || edge),
        closed,
        edge,
        ..WaitSorts::none()
    }
}
