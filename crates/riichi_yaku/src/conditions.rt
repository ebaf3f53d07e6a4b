//! The yaku that hold of a reading.
ghost use Rattle.std.specs.Prelude.{◌≡◌, ◌<◌, ◌^◌, IsTrue, false};
ghost use Rattle.riichi_blocks.specs.HandBlocks.{blocks_of};
ghost use Rattle.riichi_blocks.specs.Held.{all_tiles};
ghost use Rattle.riichi_yaku.specs.declared.table.Yaku.{Yaku};
ghost use Rattle.riichi_yaku.specs.Conditions as spec;
ghost use Rattle.riichi_yaku.specs.Table.{yaku_is_yakuman};
ghost use Rattle.riichi_yaku.specs.YakuSets.{contains, is_yakuman, set_of};

use crate::honours::{
    is_green_dragon, is_little_three_dragons, is_prevalent_wind, is_red_dragon, is_seat_wind,
    is_white_dragon,
};
use crate::luck::{
    is_after_a_kong, is_double_riichi, is_fully_concealed, is_ippatsu, is_last_tile, is_riichi,
    is_robbing_the_kong,
};
use crate::outside::{is_outside_hand, is_terminals_in_all_sets};
use crate::runs::{
    is_mixed_triple_chow, is_pinfu, is_pure_double_chow, is_pure_straight,
    is_twice_pure_double_chow,
};
use crate::tiles::{is_all_simples, is_all_terminals_and_honours, is_full_flush, is_half_flush};
use crate::triplets::{is_all_pungs, is_three_concealed_pungs, is_three_kongs, is_triple_pung};
use crate::yakuman::{
    is_all_green, is_all_honours, is_all_terminals, is_big_four_winds, is_big_three_dragons,
    is_blessing_of_earth, is_blessing_of_heaven, is_blessing_of_man, is_four_concealed_pungs,
    is_four_kongs, is_little_four_winds, is_nine_gates,
};
use crate::{Yaku, YakuSet};
use riichi_blocks::{AllTiles, Blocks, all_tiles, blocks_of, is_seven_pairs, is_thirteen_orphans};
use riichi_hand::WinRecord;
use riichi_split::Reading;

/// The yaku that hold of a reading of the win. Where the conditions of yakuman are met, the set has these alone.
pub fn yaku_of(reading: &Reading, win: &WinRecord) -> YakuSet
    ensures value { result ≡ spec.yaku_of reading.now win.now }
    ensures each { (yaku : Yaku) → contains result yaku ≡ spec.holds reading.now win.now yaku }
    ensures alone { IsTrue (is_yakuman result) → (yaku : Yaku) → yaku_is_yakuman yaku ≡ false
        → contains result yaku ≡ false }
{
    yaku_among(&blocks_of(reading, win), reading, &all_tiles(win), win)
}

/// The same, for a caller that has the blocks of the reading and every tile of the win.
pub fn yaku_among(blocks: &Blocks, reading: &Reading, tiles: &AllTiles, win: &WinRecord) -> YakuSet
    requires blocks { blocks.now ≡ blocks_of reading.now win.now }
    requires tiles { tiles.now ≡ all_tiles win.now }
    ensures { result ≡ spec.yaku_of reading.now win.now }
{
    let yakuman = yakuman_among(blocks, reading, tiles, win);
    if yakuman.is_empty() {
        others_among(blocks, reading, tiles, win)
    } else {
        yakuman
    }
}

/// The yaku but for the yakuman.
#[inline(always)]
fn others_among(blocks: &Blocks, reading: &Reading, tiles: &AllTiles, win: &WinRecord) -> YakuSet
    ensures { result
        ≡ set_of (spec.is_other_met (spec.condition blocks.now reading.now tiles.now win.now)) }
{
    YakuSet::none()
        .with(Yaku::Riichi, is_riichi(win))
        .with(Yaku::DoubleRiichi, is_double_riichi(win))
        .with(Yaku::Ippatsu, is_ippatsu(win))
        .with(Yaku::FullyConcealed, is_fully_concealed(win))
        .with(Yaku::Pinfu, is_pinfu(blocks, reading, win))
        .with(Yaku::PureDoubleChow, is_pure_double_chow(blocks, win))
        .with(Yaku::AllSimples, is_all_simples(reading, tiles, win))
        .with(Yaku::WhiteDragon, is_white_dragon(blocks))
        .with(Yaku::GreenDragon, is_green_dragon(blocks))
        .with(Yaku::RedDragon, is_red_dragon(blocks))
        .with(Yaku::SeatWind, is_seat_wind(blocks, win))
        .with(Yaku::PrevalentWind, is_prevalent_wind(blocks, win))
        .with(Yaku::AfterAKong, is_after_a_kong(win))
        .with(Yaku::RobbingTheKong, is_robbing_the_kong(win))
        .with(Yaku::LastTile, is_last_tile(win))
        .with(Yaku::MixedTripleChow, is_mixed_triple_chow(blocks))
        .with(Yaku::PureStraight, is_pure_straight(blocks))
        .with(Yaku::OutsideHand, is_outside_hand(blocks))
        .with(Yaku::SevenPairs, is_seven_pairs(reading))
        .with(Yaku::TriplePung, is_triple_pung(blocks))
        .with(Yaku::ThreeKongs, is_three_kongs(blocks))
        .with(Yaku::AllPungs, is_all_pungs(blocks))
        .with(Yaku::ThreeConcealedPungs, is_three_concealed_pungs(blocks))
        .with(Yaku::LittleThreeDragons, is_little_three_dragons(blocks))
        .with(
            Yaku::AllTerminalsAndHonours,
            is_all_terminals_and_honours(reading, tiles),
        )
        .with(Yaku::HalfFlush, is_half_flush(reading, tiles))
        .with(Yaku::TerminalsInAllSets, is_terminals_in_all_sets(blocks))
        .with(
            Yaku::TwicePureDoubleChow,
            is_twice_pure_double_chow(blocks, win),
        )
        .with(Yaku::FullFlush, is_full_flush(reading, tiles))
}

/// The yakuman.
#[inline(always)]
fn yakuman_among(blocks: &Blocks, reading: &Reading, tiles: &AllTiles, win: &WinRecord) -> YakuSet
    ensures { result
        ≡ set_of (spec.is_yakuman_met (spec.condition blocks.now reading.now tiles.now win.now)) }
{
    YakuSet::none()
        .with(Yaku::ThirteenOrphans, is_thirteen_orphans(reading))
        .with(Yaku::NineGates, is_nine_gates(reading, tiles, win))
        .with(Yaku::FourConcealedPungs, is_four_concealed_pungs(blocks))
        .with(Yaku::BigThreeDragons, is_big_three_dragons(blocks))
        .with(Yaku::LittleFourWinds, is_little_four_winds(blocks))
        .with(Yaku::BigFourWinds, is_big_four_winds(blocks))
        .with(Yaku::AllHonours, is_all_honours(reading, tiles))
        .with(Yaku::AllTerminals, is_all_terminals(reading, tiles))
        .with(Yaku::AllGreen, is_all_green(reading, tiles))
        .with(Yaku::FourKongs, is_four_kongs(blocks))
        .with(Yaku::BlessingOfHeaven, is_blessing_of_heaven(win))
        .with(Yaku::BlessingOfEarth, is_blessing_of_earth(win))
        .with(Yaku::BlessingOfMan, is_blessing_of_man(win))
}
