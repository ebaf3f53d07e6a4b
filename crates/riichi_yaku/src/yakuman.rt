//! The yakuman.
ghost use Rattle.std.specs.Prelude.{◌≡◌, ◌==◌, length};
ghost use Rattle.std.specs.List.{list_any};
ghost use Rattle.riichi_tiles.specs.Kinds.{number_suits};
ghost use Rattle.riichi_yaku.specs.Yakuman as spec;

use crate::honours::{has_dragon_triplets, has_wind_triplets, is_last_wind};
use riichi_blocks::{AllTiles, Blocks, EAST, KINDS, is_standard, is_thirteen_orphans};
use riichi_hand::{WinRecord, is_ron};
use riichi_split::Reading;
use riichi_tiles::{Kind, KindSet, Suit};

/// How many of a kind nine gates has at least.
#[tactic(auto, using(riichi_tiles::proofs::KindSets::where_at))]
fn gate_copies(suit: Suit, kind: Kind) -> u8
    ensures { result ≡ spec.gate_copies suit kind }
{
    if !KindSet::of_suit(suit).contains(kind) {
        0
    } else if kind.is_terminal() {
        3
    } else {
        1
    }
}

fn has_gates(counts: &[u8; 34], suit: Suit) -> bool
    ensures { result ≡ spec.has_gates counts.now suit }
{
    (0..KINDS).all(|kind| counts[kind] >= gate_copies(suit, Kind::at(kind as u8)))
}

fn has_suit_with_gates(tiles: &AllTiles, suit: Suit) -> bool
    ensures { result ≡ spec.has_suit_with_gates tiles.now suit }
{
    tiles.are_of_suit(suit) && has_gates(tiles.counts(), suit)
}

fn has_all_gates(tiles: &AllTiles) -> bool
    ensures { result ≡ list_any (spec.has_suit_with_gates tiles.now) number_suits }
{
    Suit::NUMBERED
        .iter()
        .any(|suit| has_suit_with_gates(tiles, *suit))
}

fn has_no_meld(win: &WinRecord) -> bool
    ensures { result ≡ (length win.now.melds == 0) }
{
    win.melds().count() == 0
}

pub(crate) fn is_nine_gates(reading: &Reading, tiles: &AllTiles, win: &WinRecord) -> bool
    ensures { result ≡ spec.is_nine_gates reading.now tiles.now win.now }
{
    is_standard(reading) && has_no_meld(win) && has_all_gates(tiles)
}

pub(crate) fn is_four_concealed_pungs(blocks: &Blocks) -> bool
    ensures { result ≡ spec.is_four_concealed_pungs blocks.now }
{
    blocks.concealed_triplets() == 4
}

pub(crate) fn is_big_three_dragons(blocks: &Blocks) -> bool
    ensures { result ≡ spec.is_big_three_dragons blocks.now }
{
    has_dragon_triplets(blocks)
}

pub(crate) fn is_little_four_winds(blocks: &Blocks) -> bool
    ensures { result ≡ spec.is_little_four_winds blocks.now }
{
    // Most hands have neither a triplet of East nor one of South.
    (blocks.has_triplet(EAST) || blocks.has_triplet(EAST + 1))
        && blocks
            .as_slice()
            .iter()
            .any(|block| is_last_wind(blocks, block))
}

pub(crate) fn is_big_four_winds(blocks: &Blocks) -> bool
    ensures { result ≡ spec.is_big_four_winds blocks.now }
{
    has_wind_triplets(blocks)
}

pub(crate) fn is_all_honours(reading: &Reading, tiles: &AllTiles) -> bool
    ensures { result ≡ spec.is_all_honours reading.now tiles.now }
{
    !is_thirteen_orphans(reading) && tiles.are_honours()
}

pub(crate) fn is_all_terminals(reading: &Reading, tiles: &AllTiles) -> bool
    ensures { result ≡ spec.is_all_terminals reading.now tiles.now }
{
    is_standard(reading) && tiles.are_terminals()
}

pub(crate) fn is_all_green(reading: &Reading, tiles: &AllTiles) -> bool
    ensures { result ≡ spec.is_all_green reading.now tiles.now }
{
    is_standard(reading) && tiles.are_green()
}

pub(crate) fn is_four_kongs(blocks: &Blocks) -> bool
    ensures { result ≡ spec.is_four_kongs blocks.now }
{
    blocks.kongs() == 4
}

pub(crate) fn is_blessing_of_heaven(win: &WinRecord) -> bool
    ensures { result ≡ spec.is_blessing_of_heaven win.now }
{
    win.flags().first && win.seat().is_dealer()
}

pub(crate) fn is_blessing_of_earth(win: &WinRecord) -> bool
    ensures { result ≡ spec.is_blessing_of_earth win.now }
{
    win.flags().first && !win.seat().is_dealer() && !is_ron(win.by())
}

pub(crate) fn is_blessing_of_man(win: &WinRecord) -> bool
    ensures { result ≡ spec.is_blessing_of_man win.now }
{
    win.flags().first && is_ron(win.by())
}
