//! The Japanese names by which players know the yaku.
//!
//! [`japanese`] gives the name in ASCII letters, as `tanyao` for the printed word `all-simples`; [`push_named`] writes the printed
//! word with that name beside it. [`condition_words`] says when a yaku holds.
#![tactic(auto)]

ghost use Rattle.std.specs.Prelude.{◌≡◌, ◌+◌, ◌≤◌, ◌++◌, length, true};
ghost use Rattle.arrayvec.specs.ArrayString.{array_string_len};
ghost use Rattle.riichi_yaku.specs.Table.{yaku_is_yakuman};
ghost use Rattle.riichi_names.specs.Names as spec;

use arrayvec::ArrayString;
use riichi_yaku::Yaku;

/// The bytes of the longest Japanese name.
pub const MOST_JAPANESE: usize = "haitei or houtei".len();

/// The bytes of the longest name beside a word.
const MOST_BESIDE: usize = " (".len() + MOST_JAPANESE + ")".len();

/// The bytes of the longest word with the name beside it.
pub const MOST_NAMED: usize = Yaku::MOST_WORD + MOST_BESIDE;

/// The Japanese name of a yaku. The last tile has two: haitei by self-draw, houtei by ron.
pub fn japanese(yaku: Yaku) -> &'static str
    ensures value { result.now ≡ spec.japanese yaku }
    ensures short { length result.now ≤ MOST_JAPANESE }
{
    match yaku {
        Yaku::Riichi => "riichi",
        Yaku::DoubleRiichi => "double riichi",
        Yaku::Ippatsu => "ippatsu",
        Yaku::FullyConcealed => "menzen tsumo",
        Yaku::Pinfu => "pinfu",
        Yaku::PureDoubleChow => "iipeiko",
        Yaku::AllSimples => "tanyao",
        Yaku::WhiteDragon => "yakuhai haku",
        Yaku::GreenDragon => "yakuhai hatsu",
        Yaku::RedDragon => "yakuhai chun",
        Yaku::SeatWind => "yakuhai jikaze",
        Yaku::PrevalentWind => "yakuhai bakaze",
        Yaku::AfterAKong => "rinshan kaiho",
        Yaku::RobbingTheKong => "chankan",
        Yaku::LastTile => "haitei or houtei",
        Yaku::MixedTripleChow => "sanshoku doujun",
        Yaku::PureStraight => "ittsu",
        Yaku::OutsideHand => "chanta",
        Yaku::SevenPairs => "chiitoitsu",
        Yaku::TriplePung => "sanshoku doukou",
        Yaku::ThreeKongs => "sankantsu",
        Yaku::AllPungs => "toitoi",
        Yaku::ThreeConcealedPungs => "sanankou",
        Yaku::LittleThreeDragons => "shousangen",
        Yaku::AllTerminalsAndHonours => "honroutou",
        Yaku::HalfFlush => "honitsu",
        Yaku::TerminalsInAllSets => "junchan",
        Yaku::TwicePureDoubleChow => "ryanpeikou",
        Yaku::FullFlush => "chinitsu",
        yakuman => japanese_of_yakuman(yakuman),
    }
}

fn japanese_of_yakuman(yaku: Yaku) -> &'static str
    ensures value { yaku_is_yakuman yaku ≡ true → result.now ≡ spec.japanese yaku }
    ensures short { length result.now ≤ MOST_JAPANESE }
{
    match yaku {
        Yaku::ThirteenOrphans => "kokushi musou",
        Yaku::NineGates => "chuuren poutou",
        Yaku::FourConcealedPungs => "suuankou",
        Yaku::BigThreeDragons => "daisangen",
        Yaku::LittleFourWinds => "shousuushii",
        Yaku::BigFourWinds => "daisuushii",
        Yaku::AllHonours => "tsuuiisou",
        Yaku::AllTerminals => "chinroutou",
        Yaku::AllGreen => "ryuuiisou",
        Yaku::FourKongs => "suukantsu",
        Yaku::BlessingOfHeaven => "tenhou",
        Yaku::BlessingOfEarth => "chiihou",
        Yaku::BlessingOfMan => "renhou",
        _ => "",
    }
}

/// When a yaku holds, in words for a table of them. docs/RULES.md has the same.
pub fn condition_words(yaku: Yaku) -> &'static str
    ensures { length result.now ≤ 140 }
{
    match yaku {
        Yaku::Riichi => "riichi was declared",
        Yaku::DoubleRiichi => "riichi with the first discard; in place of number 0",
        Yaku::Ippatsu => "the flag ippatsu: won within a round of the declaration",
        Yaku::FullyConcealed => "a self-draw",
        Yaku::Pinfu => "four runs, a pair that earns no fu, and a two-sided wait",
        Yaku::PureDoubleChow => "two equal runs, and not number 27",
        Yaku::AllSimples => "every tile is a simple",
        Yaku::WhiteDragon => "a triplet of White",
        Yaku::GreenDragon => "a triplet of Green",
        Yaku::RedDragon => "a triplet of Red",
        Yaku::SeatWind => "a triplet of the seat wind",
        Yaku::PrevalentWind => "a triplet of the round's wind",
        Yaku::AfterAKong => "the flag rinshan: won on the tile drawn after a kong",
        Yaku::RobbingTheKong => "the flag chankan: won on the tile that was added to a triplet",
        Yaku::LastTile => "the flag last: won on the last tile or the last discard",
        Yaku::MixedTripleChow => "runs of the same numbers in all three suits",
        Yaku::PureStraight => "runs 123, 456 and 789 of one suit",
        Yaku::OutsideHand =>
            "each set and the pair has a terminal or honour; at least one run; at least one honour",
        Yaku::SevenPairs => "the hand is seven pairs",
        Yaku::TriplePung => "triplets of the same number in all three suits",
        Yaku::ThreeKongs => "at least three kongs",
        Yaku::AllPungs => "four triplets",
        Yaku::ThreeConcealedPungs => "at least three concealed triplets or concealed kongs",
        Yaku::LittleThreeDragons =>
            "triplets of two dragons and a pair of the third (the two triplets count besides)",
        Yaku::AllTerminalsAndHonours => "every tile is a terminal or honour",
        Yaku::HalfFlush => "suit tiles of one suit, at least one; at least one honour",
        Yaku::TerminalsInAllSets =>
            "each set and the pair has a terminal; no honour; at least one run",
        Yaku::TwicePureDoubleChow => "the four sets are runs that make two pairs of equal runs",
        Yaku::FullFlush => "every tile is of one suit",
        yakuman => condition_of_yakuman(yakuman),
    }
}

fn condition_of_yakuman(yaku: Yaku) -> &'static str
    ensures { length result.now ≤ 140 }
{
    match yaku {
        Yaku::ThirteenOrphans => "the hand is thirteen orphans",
        Yaku::NineGates =>
            "no meld, not even a concealed kong; every tile of one suit; at least three 1, three 9 and one of each 2 to 8",
        Yaku::FourConcealedPungs =>
            "four concealed triplets or concealed kongs, so by ron only where the pair is completed",
        Yaku::BigThreeDragons => "triplets of all three dragons",
        Yaku::LittleFourWinds => "triplets of three winds and a pair of the fourth",
        Yaku::BigFourWinds => "triplets of all four winds",
        Yaku::AllHonours => "every tile is an honour; a standard hand or seven pairs",
        Yaku::AllTerminals => "every tile is a terminal; a standard hand",
        Yaku::AllGreen => "every tile is a 2s, 3s, 4s, 6s, 8s or Green; a standard hand",
        Yaku::FourKongs => "four kongs",
        Yaku::BlessingOfHeaven => "the dealer wins on the first draw (the flag first); any hand",
        Yaku::BlessingOfEarth => "another seat wins on its first draw (the flag first); any hand",
        Yaku::BlessingOfMan =>
            "under the rule blessing-of-man: another seat wins by ron before its first draw (the flag first); any hand",
        _ => "",
    }
}

/// Whether the printed word is the Japanese name.
fn is_japanese(yaku: Yaku) -> bool
    ensures { result ≡ spec.is_japanese yaku }
{
    matches!(
        yaku,
        Yaku::Riichi | Yaku::DoubleRiichi | Yaku::Ippatsu | Yaku::Pinfu
    )
}

/// Writes the printed word of a yaku, and beside it in brackets the Japanese name where that is another.
#[tactic(auto, unfolding(crate::specs::Names::named))]
pub fn push_named<const ROOM: usize>(text: &mut ArrayString<ROOM>, yaku: Yaku)
    requires { array_string_len text.old + MOST_NAMED ≤ ROOM }
    ensures bytes { text.new.bytes ≡ text.old.bytes ++ spec.named yaku }
    ensures len { array_string_len text.new ≤ array_string_len text.old + MOST_NAMED }
{
    text.push_str(yaku.word());
    if !is_japanese(yaku) {
        push_name_beside(text, yaku);
    }
}

#[tactic(auto, unfolding(crate::specs::Names::name_beside))]
fn push_name_beside<const ROOM: usize>(text: &mut ArrayString<ROOM>, yaku: Yaku)
    requires { array_string_len text.old + MOST_BESIDE ≤ ROOM }
    ensures bytes { text.new.bytes ≡ text.old.bytes ++ spec.name_beside yaku }
    ensures len { array_string_len text.new ≤ array_string_len text.old + MOST_BESIDE }
{
    text.push_str(" (");
    text.push_str(japanese(yaku));
    text.push_str(")");
}
