//! The pair, and the fu that it earns.
ghost use Rattle.std.specs.Prelude.{◌≡◌, ◌≤◌, length};
ghost use Rattle.std.specs.List.{list_any, sum_by};
ghost use Rattle.riichi_blocks.specs.Pairs as spec;

use crate::HandBlock;
use crate::kinds::WHITE;
use riichi_hand::{Switch, WinRecord};
use riichi_tiles::Kind;

/// Whether a pair of this kind has fu as one of the prevalent wind. That which is of the seat wind too has them where the
/// rules say so.
pub fn has_prevalent_fu(win: &WinRecord, kind: Kind) -> bool
    ensures { result ≡ spec.has_prevalent_fu win.now kind }
{
    kind == win.round().kind()
        && (kind != win.seat().kind() || win.rules().has(Switch::DoubleWindPair))
}

/// The fu of a pair of this kind. One that is both the seat wind and the prevalent wind earns 4, or 2 where the rules say so.
pub fn pair_fu(win: &WinRecord, kind: Kind) -> u8
    ensures value { result ≡ spec.pair_fu win.now kind }
    ensures most { result ≤ 6 }
{
    let dragon = if kind.index() >= WHITE { 2 } else { 0 };
    let seat = if kind == win.seat().kind() { 2 } else { 0 };
    let round = if has_prevalent_fu(win, kind) { 2 } else { 0 };
    dragon + seat + round
}

fn is_plain_pair(win: &WinRecord, block: &HandBlock) -> bool
    ensures { result ≡ spec.is_plain_pair win.now block.now }
{
    match block {
        HandBlock::Pair(kind) => pair_fu(win, *kind) == 0,
        _ => false,
    }
}

/// Whether the pair earns no fu. Without blocks there is no pair.
pub fn has_plain_pair(blocks: &[HandBlock], win: &WinRecord) -> bool
    ensures { result ≡ list_any (spec.is_plain_pair win.now) blocks.now }
{
    blocks.iter().any(|block| is_plain_pair(win, block))
}

fn fu_if_pair(win: &WinRecord, block: &HandBlock) -> u8
    ensures value { result ≡ spec.fu_if_pair win.now block.now }
    ensures most { result ≤ 6 }
{
    match block {
        HandBlock::Pair(kind) => pair_fu(win, *kind),
        _ => 0,
    }
}

/// The fu of the pairs among at most nine blocks.
pub fn pairs_fu(blocks: &[HandBlock], win: &WinRecord) -> u16
    requires { length blocks.now ≤ 9 }
    ensures { result ≡ sum_by (spec.fu_if_pair win.now) blocks.now }
{
    let mut sum = 0;
    for block in blocks {
        sum += u16::from(fu_if_pair(win, block));
    }
    sum
}
