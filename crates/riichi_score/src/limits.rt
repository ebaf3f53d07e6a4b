//! How many limits a yakuman pays.
ghost use Rattle.std.specs.Prelude.{◌≡◌, ◌≤◌, ◌*◌};
ghost use Rattle.std.specs.List.{list_any, sum_by};
ghost use Rattle.riichi_yaku.specs.YakuSets.{yaku_in};
ghost use Rattle.riichi_score.specs.Limits as spec;

use riichi_hand::{HandRecord, Switch, WinRecord};
use riichi_split::{Reading, waits};
use riichi_tiles::Block;
use riichi_yaku::{Yaku, YakuSet};

/// How many limits, of 8000 base points each, the yakuman of a reading pay: one, two for a double yakuman, or where the rules
/// add yakuman the sum of all.
#[tactic(auto, unfolding(crate::specs::Limits::limits_of))]
pub fn yakuman_limits(reading: &Reading, win: &WinRecord, yaku: YakuSet) -> u32
    ensures value { result ≡ spec.limits_of reading.now win.now yaku }
    ensures most { result ≤ 100 }
{
    if win.rules().has(Switch::AddYakuman) {
        all_limits(reading, win, yaku)
    } else if has_double(reading, win, yaku) {
        2
    } else {
        1
    }
}

fn all_limits(reading: &Reading, win: &WinRecord, yaku: YakuSet) -> u32
    ensures value { result ≡ sum_by (spec.limits_in reading.now win.now) (yaku_in yaku) }
    ensures most { result ≤ 100 }
{
    let mut sum = 0;
    for yaku in yaku.iter() {
        sum += limits_in(reading, win, yaku);
    }
    sum
}

fn limits_in(reading: &Reading, win: &WinRecord, yaku: Yaku) -> u32
    ensures value { result ≡ spec.limits_in reading.now win.now yaku }
    ensures most { result ≤ 2 }
{
    if is_double(reading, win, yaku) { 2 } else { 1 }
}

fn has_double(reading: &Reading, win: &WinRecord, yaku: YakuSet) -> bool
    ensures { result ≡ list_any (spec.is_double reading.now win.now) (yaku_in yaku) }
{
    let mut found = false;
    for yaku in yaku.iter() {
        found = found | is_double(reading, win, yaku);
    }
    found
}

fn is_double(reading: &Reading, win: &WinRecord, yaku: Yaku) -> bool
    ensures { result ≡ spec.is_double reading.now win.now yaku }
{
    win.rules().has(Switch::DoubleYakuman) && is_rare(reading, win, yaku)
}

/// Whether it is big four winds, or one of three yakuman in a rarer form.
fn is_rare(reading: &Reading, win: &WinRecord, yaku: Yaku) -> bool
    ensures { result ≡ spec.is_rare reading.now win.now yaku }
{
    match yaku {
        Yaku::BigFourWinds => true,
        Yaku::FourConcealedPungs => is_completed_in_pair(reading),
        Yaku::ThirteenOrphans => waits_on(13, win),
        Yaku::NineGates => waits_on(9, win),
        _ => false,
    }
}

fn is_completed_in_pair(reading: &Reading) -> bool
    ensures { result ≡ spec.is_completed_in_pair reading.now }
{
    match reading {
        Reading::Standard {
            done: Block::Pair(_),
            ..
        } => true,
        _ => false,
    }
}

/// Whether the hand waits for so many kinds before the winning tile.
#[tactic(auto, using(crate::proofs::HandBefore::hand_before))]
fn waits_on(kinds: usize, win: &WinRecord) -> bool
    ensures { result ≡ spec.waits_on kinds win.now }
{
    let parts = win.parts();
    match HandRecord::new(parts.concealed, parts.melds) {
        Ok(hand) => waits(&hand).len() == kinds,
        Err(_) => false,
    }
}
