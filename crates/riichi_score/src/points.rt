//! The fu of a reading.
ghost use Rattle.std.specs.Prelude.{◌≡◌, ◌≤◌, length};
ghost use Rattle.std.specs.List.{sum_by};
ghost use Rattle.riichi_tiles.specs.Melds.{are_concealed};
ghost use Rattle.riichi_blocks.specs.HandBlocks.{blocks_of};
ghost use Rattle.riichi_yaku.specs.Runs.{is_pinfu};
ghost use Rattle.riichi_score.specs.Fu as spec;

use riichi_blocks::{Blocks, HandBlock, blocks_of, pair_fu, pairs_fu, wait_fu};
use riichi_hand::{Switch, WinRecord, is_ron};
use riichi_split::Reading;
use riichi_tiles::{Block, Kind};
use riichi_yaku::is_pinfu;

/// The fu of a reading of the win, whose sets and melds are four. That of a standard reading is the sum
/// of its rows, rounded up to the next ten; seven pairs have 25, thirteen orphans none.
#[tactic(auto, unfolding(crate::specs::Fu::fu_of))]
pub fn fu(reading: &Reading, win: &WinRecord) -> u8
    requires { spec.HasFourSets reading.now win.now }
    ensures value { result ≡ spec.fu_of reading.now win.now }
    ensures most { result ≤ 200 }
{
    fu_among(
        &blocks_of(reading, win),
        reading,
        win.melds().concealed(),
        win,
    )
}

/// The fu of a reading, by its blocks and whether the hand is concealed.
#[tactic(auto, unfolding(crate::specs::Fu::fu_of))]
pub(crate) fn fu_among(blocks: &Blocks, reading: &Reading, concealed: bool, win: &WinRecord) -> u8
    requires sets { spec.HasFourSets reading.now win.now }
    requires blocks { blocks.now ≡ blocks_of reading.now win.now }
    requires concealed { concealed ≡ are_concealed win.now.melds }
    ensures value { result ≡ spec.fu_of reading.now win.now }
    ensures most { result ≤ 200 }
{
    fu_from(blocks, reading, concealed, win)
}

fn fu_from(blocks: &Blocks, reading: &Reading, concealed: bool, win: &WinRecord) -> u8
    requires few { length blocks.now ≤ 5 }
    requires concealed { concealed ≡ are_concealed win.now.melds }
    ensures value { result ≡ spec.fu_from blocks.now reading.now win.now }
    ensures most { result ≤ 200 }
{
    match reading {
        Reading::Standard { done, .. } => standard_fu(blocks, reading, done, concealed, win),
        Reading::SevenPairs => 25,
        Reading::Orphans => 0,
    }
}

fn standard_fu(
    blocks: &Blocks,
    reading: &Reading,
    done: &Block,
    concealed: bool,
    win: &WinRecord,
) -> u8
    requires few { length blocks.now ≤ 5 }
    requires concealed { concealed ≡ are_concealed win.now.melds }
    ensures value { result ≡ spec.standard_fu blocks.now reading.now done.now win.now }
    ensures most { result ≤ 200 }
{
    let drawn = self_draw_fu(blocks, reading, win);
    let ron = ron_fu(concealed, win);
    let sum = 20 + ron + drawn + blocks_fu(blocks, win) + wait_fu(win.winning(), done);
    up_to_ten(sum + open_fu(concealed, win, u32::from(sum)))
}

/// What a concealed hand won by ron earns.
pub fn ron_fu(concealed: bool, win: &WinRecord) -> u8
    requires { concealed ≡ are_concealed win.now.melds }
    ensures value { result ≡ spec.ron_fu win.now }
    ensures most { result ≤ 10 }
{
    if concealed && is_ron(win.by()) { 10 } else { 0 }
}

/// What a self-draw earns.
pub fn self_draw_fu(blocks: &Blocks, reading: &Reading, win: &WinRecord) -> u8
    ensures value { result ≡ spec.self_draw_fu (is_pinfu blocks.now reading.now win.now) win.now }
    ensures most { result ≤ 2 }
{
    if is_ron(win.by()) || is_pinfu(blocks, reading, win) || is_bare_draw(win) {
        0
    } else {
        2
    }
}

/// Whether the win is on the draw after a kong, under rules that give it no fu.
fn is_bare_draw(win: &WinRecord) -> bool
    ensures { result ≡ spec.is_bare_draw win.now }
{
    win.flags().rinshan && !win.rules().has(Switch::KongDrawFu)
}

fn blocks_fu(blocks: &Blocks, win: &WinRecord) -> u8
    requires { length blocks.now ≤ 5 }
    ensures value { result ≡ sum_by (spec.block_fu win.now) blocks.now }
    ensures most { result ≤ 160 }
{
    (blocks.sets_fu() + pairs_fu(blocks.as_slice(), win)) as u8
}

/// What a block earns.
pub fn block_fu(win: &WinRecord, block: &HandBlock) -> u8
    ensures value { result ≡ spec.block_fu win.now block.now }
    ensures most { result ≤ 32 }
{
    match *block {
        HandBlock::Run(_) => 0,
        HandBlock::Triplet { kind, concealed } => triplet_fu(kind, concealed),
        HandBlock::Kong { kind, concealed } => 4 * triplet_fu(kind, concealed),
        HandBlock::Pair(kind) => pair_fu(win, kind),
    }
}

fn triplet_fu(kind: Kind, concealed: bool) -> u8
    ensures value { result ≡ spec.triplet_fu kind concealed }
    ensures most { result ≤ 8 }
{
    let open = if kind.is_orphan() { 4 } else { 2 };
    if concealed { 2 * open } else { open }
}

/// What an open hand won by ron earns whose other rows have this sum.
pub fn open_fu(concealed: bool, win: &WinRecord, sum: u32) -> u8
    requires { concealed ≡ are_concealed win.now.melds }
    ensures value { result ≡ spec.open_fu win.now sum }
    ensures most { result ≤ 10 }
{
    if !concealed && is_ron(win.by()) && sum == 20 && win.rules().has(Switch::OpenPinfuFu) {
        10
    } else {
        0
    }
}

fn up_to_ten(sum: u8) -> u8
    requires { sum ≤ 210 }
    ensures value { result ≡ spec.up_to_ten sum }
    ensures most { result ≤ 210 }
{
    (sum + 9) / 10 * 10
}
