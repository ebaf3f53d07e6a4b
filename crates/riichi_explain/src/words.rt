//! The words of what earns dora and fu and of who pays, and the Japanese names beside them.
ghost use Rattle.std.specs.Prelude.{◌≡◌, ◌≤◌, length};
ghost use Rattle.riichi_explain.specs.Words as spec;

use crate::dora::DoraPart;
use crate::fu::FuPart;
use crate::payers::Payer;

/// The bytes of the longest words of dora.
pub const MOST_DORA_WORDS: usize = "red fives".len();

/// The bytes of the longest Japanese name of dora.
pub const MOST_DORA_JAPANESE: usize = "ura".len();

/// The bytes of the longest words of fu.
pub const MOST_FU_WORDS: usize = "pair of the prevalent wind".len();

/// The bytes of the longest Japanese name of fu.
pub const MOST_FU_JAPANESE: usize = "menzen kafu".len();

/// The bytes of the longest words of who pays.
pub const MOST_PAYER: usize = "three others".len();

/// Where dora come from, in words.
#[tactic(auto, unfolding(crate::specs::Words::dora_words))]
pub fn dora_words(part: DoraPart) -> &'static str
    ensures value { result.now ≡ spec.dora_words part }
    ensures short { length result.now ≤ MOST_DORA_WORDS }
{
    match part {
        DoraPart::Indicated => "indicated",
        DoraPart::Below => "below",
        DoraPart::RedFives => "red fives",
    }
}

/// Its Japanese name, or nothing.
#[tactic(auto, unfolding(crate::specs::Words::dora_japanese))]
pub fn dora_japanese(part: DoraPart) -> &'static str
    ensures value { result.now ≡ spec.dora_japanese part }
    ensures short { length result.now ≤ MOST_DORA_JAPANESE }
{
    match part {
        DoraPart::Below => "ura",
        DoraPart::Indicated | DoraPart::RedFives => "",
    }
}

/// What earns fu, in words.
#[tactic(auto, unfolding(crate::specs::Words::fu_words))]
pub fn fu_words(part: &FuPart) -> &'static str
    ensures value { result.now ≡ spec.fu_words part.now }
    ensures short { length result.now ≤ MOST_FU_WORDS }
{
    match *part {
        FuPart::Base => "base",
        FuPart::ConcealedRon => "concealed ron",
        FuPart::SelfDraw => "self-draw",
        FuPart::Triplet { concealed, .. } => {
            if concealed {
                "concealed triplet"
            } else {
                "open triplet"
            }
        }
        FuPart::Kong { concealed, .. } => {
            if concealed {
                "concealed kong"
            } else {
                "open kong"
            }
        }
        FuPart::DragonPair(_) => "pair of dragons",
        FuPart::SeatWindPair(_) => "pair of the seat wind",
        FuPart::PrevalentWindPair(_) => "pair of the prevalent wind",
        FuPart::ClosedWait => "closed wait",
        FuPart::EdgeWait => "edge wait",
        FuPart::PairWait => "pair wait",
        FuPart::OpenRon => "open ron of 20",
        FuPart::SevenPairs => "seven pairs",
    }
}

/// Its Japanese name, or nothing.
#[tactic(auto, unfolding(crate::specs::Words::fu_japanese))]
pub fn fu_japanese(part: &FuPart) -> &'static str
    ensures value { result.now ≡ spec.fu_japanese part.now }
    ensures short { length result.now ≤ MOST_FU_JAPANESE }
{
    match *part {
        FuPart::ConcealedRon => "menzen kafu",
        FuPart::SelfDraw => "tsumo",
        FuPart::Triplet { concealed, .. } => if concealed { "ankou" } else { "minkou" },
        FuPart::Kong { concealed, .. } => if concealed { "ankan" } else { "minkan" },
        FuPart::ClosedWait => "kanchan",
        FuPart::EdgeWait => "penchan",
        FuPart::PairWait => "tanki",
        _ => "",
    }
}

/// Who pays, in words.
#[tactic(auto, unfolding(crate::specs::Words::payer_words))]
pub fn payer_words(payer: Payer) -> &'static str
    ensures value { result.now ≡ spec.payer_words payer }
    ensures short { length result.now ≤ MOST_PAYER }
{
    match payer {
        Payer::Discarder => "discarder",
        Payer::Dealer => "dealer",
        Payer::TwoOthers => "two others",
        Payer::ThreeOthers => "three others",
    }
}
