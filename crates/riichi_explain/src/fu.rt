//! The rows of a hand's fu.
ghost use Rattle.std.specs.Prelude.{◌≡◌, ◌+◌, ◌≤◌, ◌<◌, ◌++◌, [], length, if◌then◌else◌};
ghost use Rattle.std.specs.List.{flat_map};
ghost use Rattle.riichi_score.specs.Fu.{HasFourSets, fu_of};
ghost use Rattle.riichi_explain.specs.Fu as spec;

use arrayvec::ArrayVec;
use riichi_blocks::{
    Blocks, HandBlock, WHITE, blocks_of, has_prevalent_fu, is_closed_wait, is_edge_wait,
};
use riichi_hand::WinRecord;
use riichi_score::{block_fu, open_fu, ron_fu, self_draw_fu};
use riichi_split::Reading;
use riichi_tiles::{Block, Kind};

/// What earns fu.
#[derive(Clone, Copy, Debug, PartialEq, Eq)]
pub enum FuPart {
    /// Every hand of sets and a pair.
    Base,
    /// A concealed hand won by ron.
    ConcealedRon,
    SelfDraw,
    Triplet { kind: Kind, concealed: bool },
    Kong { kind: Kind, concealed: bool },
    DragonPair(Kind),
    SeatWindPair(Kind),
    PrevalentWindPair(Kind),
    ClosedWait,
    EdgeWait,
    PairWait,
    /// An open hand won by ron whose other rows are 20.
    OpenRon,
    SevenPairs,
}

/// A row of the fu: what earns it, and how many.
#[derive(Clone, Copy, Debug, PartialEq, Eq)]
pub struct FuRow {
    pub part: FuPart,
    pub fu: u8,
}

/// What fills the places of a list that no row has taken.
impl Default for FuRow {
    ghost use Rattle.riichi_explain.specs.declared.fu.FuPart.TheVariants.{Base};

    ghost is_default = { λ row. row ≡ record { part = Base; fu = 0 } };

    fn default() -> Self {
        FuRow {
            part: FuPart::Base,
            fu: 0,
        }
    }
}

/// The rows of fu that there is room for: three of the whole hand, three of each block, two of the wait, and one of an open hand
/// won by ron. A hand has at most eleven.
pub const MOST_FU_ROWS: usize = MOST_PLAIN_ROWS + 1;

const MOST_PLAIN_ROWS: usize = 3 + MOST_BLOCK_ROWS + 2;

const MOST_BLOCK_ROWS: usize = 5 * 3;

/// Rows of fu, in the order of the table.
pub type FuRows = ArrayVec<FuRow, MOST_FU_ROWS>;

/// The rows of a reading, whose sets and melds are four. Their sum is the fu before it is rounded.
#[tactic(auto, using(crate::proofs::FuLemmas::rows_give_fu), unfolding(crate::specs::Fu::fu_rows))]
pub fn fu_rows(reading: &Reading, win: &WinRecord) -> FuRows
    requires { HasFourSets reading.now win.now }
    ensures value { result.items ≡ spec.fu_rows reading.now win.now }
    ensures adds_up { spec.fu_from_rows reading.now result.items ≡ fu_of reading.now win.now }
{
    rows_from(&blocks_of(reading, win), reading, win)
}

fn rows_from(blocks: &Blocks, reading: &Reading, win: &WinRecord) -> FuRows
    requires { length blocks.now ≤ 5 }
    ensures { result.items ≡ spec.rows_from blocks.now reading.now win.now }
{
    let mut rows = ArrayVec::new();
    match reading {
        Reading::Standard { done, .. } => push_standard(&mut rows, blocks, reading, done, win),
        Reading::SevenPairs => push_earned(&mut rows, FuPart::SevenPairs, 25),
        Reading::Orphans => {}
    }
    rows
}

#[tactic(auto, using(crate::proofs::FuLemmas::total_plain))]
fn push_standard(
    rows: &mut FuRows,
    blocks: &Blocks,
    reading: &Reading,
    done: &Block,
    win: &WinRecord,
)
    requires empty { rows.old.items ≡ [] }
    requires few { length blocks.now ≤ 5 }
    ensures { rows.new.items ≡ spec.standard_rows blocks.now reading.now done.now win.now }
{
    push_plain(rows, blocks, reading, done, win);
    let sum = fu_total(rows.as_slice());
    push_earned(
        rows,
        FuPart::OpenRon,
        open_fu(win.melds().concealed(), win, sum),
    );
}

fn push_plain(rows: &mut FuRows, blocks: &Blocks, reading: &Reading, done: &Block, win: &WinRecord)
    requires empty { rows.old.items ≡ [] }
    requires few { length blocks.now ≤ 5 }
    ensures items { rows.new.items ≡ spec.plain_rows blocks.now reading.now done.now win.now }
    ensures most { length rows.new.items ≤ MOST_PLAIN_ROWS }
{
    push_earned(rows, FuPart::Base, 20);
    push_earned(
        rows,
        FuPart::ConcealedRon,
        ron_fu(win.melds().concealed(), win),
    );
    push_earned(rows, FuPart::SelfDraw, self_draw_fu(blocks, reading, win));
    push_block_rows(rows, blocks, win);
    push_wait_rows(rows, win.winning(), done);
}

/// A row, where the part earns any fu.
fn push_earned(rows: &mut FuRows, part: FuPart, fu: u8)
    requires { length rows.old.items < MOST_FU_ROWS }
    ensures items { rows.new.items ≡ rows.old.items ++ spec.earned part fu }
    ensures most { length rows.new.items ≤ length rows.old.items + 1 }
{
    if fu > 0 {
        rows.push(FuRow { part, fu });
    }
}

fn push_block_rows(rows: &mut FuRows, blocks: &Blocks, win: &WinRecord)
    requires few { length blocks.now ≤ 5 }
    requires room { length rows.old.items ≤ 3 }
    ensures items { rows.new.items ≡ rows.old.items ++ spec.block_rows win.now blocks.now }
    ensures most { length rows.new.items ≤ length rows.old.items + MOST_BLOCK_ROWS }
{
    push_set_rows(rows, blocks, win);
    push_rows_of_pair(rows, blocks, win);
}

fn push_set_rows(rows: &mut FuRows, blocks: &Blocks, win: &WinRecord)
    requires few { length blocks.now ≤ 5 }
    requires room { length rows.old.items ≤ 3 }
    ensures items { rows.new.items
        ≡ rows.old.items ++ flat_map (spec.set_rows win.now) blocks.now }
    ensures most { length rows.new.items ≤ length rows.old.items + 5 }
{
    for block in blocks.as_slice() {
        push_set_row(rows, block, win);
    }
}

fn push_set_row(rows: &mut FuRows, block: &HandBlock, win: &WinRecord)
    requires { length rows.old.items < MOST_FU_ROWS }
    ensures items { rows.new.items ≡ rows.old.items ++ spec.set_rows win.now block.now }
    ensures most { length rows.new.items ≤ length rows.old.items + 1 }
{
    let fu = block_fu(win, block);
    match *block {
        HandBlock::Triplet { kind, concealed } => {
            push_earned(rows, FuPart::Triplet { kind, concealed }, fu);
        }
        HandBlock::Kong { kind, concealed } => {
            push_earned(rows, FuPart::Kong { kind, concealed }, fu);
        }
        HandBlock::Run(_) | HandBlock::Pair(_) => {}
    }
}

fn push_rows_of_pair(rows: &mut FuRows, blocks: &Blocks, win: &WinRecord)
    requires few { length blocks.now ≤ 5 }
    requires room { length rows.old.items ≤ 8 }
    ensures items { rows.new.items
        ≡ rows.old.items ++ flat_map (spec.rows_if_pair win.now) blocks.now }
    ensures most { length rows.new.items ≤ length rows.old.items + 10 }
{
    for block in blocks.as_slice() {
        push_rows_if_pair(rows, block, win);
    }
}

fn push_rows_if_pair(rows: &mut FuRows, block: &HandBlock, win: &WinRecord)
    requires { length rows.old.items + 2 < MOST_FU_ROWS }
    ensures items { rows.new.items ≡ rows.old.items ++ spec.rows_if_pair win.now block.now }
    ensures most { length rows.new.items ≤ length rows.old.items + 2 }
{
    match *block {
        HandBlock::Pair(kind) => push_pair_rows(rows, kind, win),
        HandBlock::Run(_) | HandBlock::Triplet { .. } | HandBlock::Kong { .. } => {}
    }
}

/// No kind is both a dragon and a wind.
#[tactic(auto, using(crate::proofs::FuLemmas::wind_below))]
fn push_pair_rows(rows: &mut FuRows, kind: Kind, win: &WinRecord)
    requires { length rows.old.items + 2 < MOST_FU_ROWS }
    ensures items { rows.new.items ≡ rows.old.items ++ spec.pair_rows win.now kind }
    ensures most { length rows.new.items ≤ length rows.old.items + 2 }
{
    push_earned(
        rows,
        FuPart::DragonPair(kind),
        two_if(kind.index() >= WHITE),
    );
    push_earned(
        rows,
        FuPart::SeatWindPair(kind),
        two_if(kind == win.seat().kind()),
    );
    push_earned(
        rows,
        FuPart::PrevalentWindPair(kind),
        two_if(has_prevalent_fu(win, kind)),
    );
}

fn push_wait_rows(rows: &mut FuRows, winning: Kind, done: &Block)
    requires { length rows.old.items + 2 < MOST_FU_ROWS }
    ensures items { rows.new.items ≡ rows.old.items ++ spec.wait_rows winning done.now }
    ensures most { length rows.new.items ≤ length rows.old.items + 2 }
{
    match done {
        Block::Run(low) => {
            let (low, tile) = (low.index(), winning.index());
            push_earned(rows, FuPart::ClosedWait, two_if(is_closed_wait(low, tile)));
            push_earned(rows, FuPart::EdgeWait, two_if(is_edge_wait(low, tile)));
        }
        Block::Triplet(_) => {}
        Block::Pair(_) => push_earned(rows, FuPart::PairWait, 2),
    }
}

fn two_if(is_so: bool) -> u8
    ensures { result ≡ (if is_so then 2 else 0) }
{
    if is_so { 2 } else { 0 }
}

/// The sum of some rows.
pub fn fu_total(rows: &[FuRow]) -> u32
    requires { length rows.now ≤ MOST_FU_ROWS }
    ensures { result ≡ spec.fu_total rows.now }
{
    let mut sum = 0;
    for row in rows {
        sum += u32::from(row.fu);
    }
    sum
}
