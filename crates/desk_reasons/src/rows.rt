//! The rows of han, dora, fu and payments.
ghost use Rattle.std.specs.Prelude.{◌≡◌, ◌≤◌, ◌+◌, ◌++◌, length};
ghost use Rattle.arrayvec.specs.ArrayString.{array_string_len};
ghost use Rattle.desk_reasons.specs.Parts as spec;
ghost use Rattle.desk_reasons.specs.Rows.{han_part_words, han_japanese, fu_kind};

use crate::counts::{push_count, push_small};
use crate::part::{MOST_PART, push_part};
use crate::values::Value;
use desk_json::{JSON_ROOM, JsonText};
use riichi_explain::{
    DoraRow, FuPart, FuRow, HanPart, HanRow, MOST_DORA_JAPANESE, MOST_DORA_WORDS, MOST_FU_JAPANESE,
    MOST_FU_WORDS, MOST_PAYER, PayRow, Payer, dora_japanese, dora_words, fu_japanese, fu_words,
    payer_words,
};
use riichi_names::{MOST_JAPANESE, japanese};
use riichi_text::{MOST_U8, MOST_U32, push_kind};
use riichi_tiles::Kind;
use riichi_yaku::Yaku;

/// The bytes of the longest row of han.
pub(crate) const MOST_HAN_ROW: usize = MOST_PART
    + Yaku::MOST_WORD
    + MOST_JAPANESE
    + MOST_HAN
    + "}".len();

const MOST_HAN: usize = ",\"han\":".len() + MOST_U8;

/// The bytes of the longest row of dora.
pub(crate) const MOST_DORA_ROW: usize = MOST_PART
    + MOST_DORA_WORDS
    + MOST_DORA_JAPANESE
    + ",\"han\":".len()
    + MOST_U32
    + "}".len();

/// The bytes of the longest row of fu.
pub(crate) const MOST_FU_ROW: usize = MOST_PART
    + MOST_FU_WORDS
    + MOST_FU_JAPANESE
    + MOST_KIND
    + ",\"fu\":".len()
    + MOST_U8
    + "}".len();

const MOST_KIND: usize = ",\"kind\":\"1m\"".len();

/// The bytes of the longest row of who pays.
pub(crate) const MOST_PAY_ROW: usize = MOST_PAYER_MEMBER
    + ",\"points\":".len()
    + MOST_U32
    + ",\"counters\":".len()
    + MOST_U32
    + "}".len();

const MOST_PAYER_MEMBER: usize = "{\"payer\":\"".len() + MOST_PAYER + "\"".len();

impl Value for HanRow {
    ghost use Rattle.desk_reasons.specs.declared.rows.TheConstants.{MOST_HAN_ROW};
    ghost use Rattle.desk_reasons.specs.Parts.{han_row_json};

    ghost value_text = { han_row_json };

    ghost most = { MOST_HAN_ROW };

    #[tactic(auto, unfolding(crate::specs::Parts::han_row_json))]
    fn push(&self, text: &mut JsonText) {
        push_part(text, han_words(&self.part), han_japanese(&self.part));
        push_han(text, &self.part, self.han);
        text.push_str("}");
    }
}

/// The printed word of a yaku, or that of the dora.
#[tactic(auto, unfolding(crate::specs::Rows::han_part_words))]
fn han_words(part: &HanPart) -> &'static str
    ensures value { result.now ≡ han_part_words part.now }
    ensures short { length result.now ≤ Yaku.MOST_WORD }
{
    match part {
        HanPart::Yaku(yaku) | HanPart::Yakuman(yaku) => yaku.word(),
        HanPart::Dora => "dora",
    }
}

/// The Japanese name of a yaku.
#[tactic(auto, unfolding(crate::specs::Rows::han_japanese))]
fn han_japanese(part: &HanPart) -> &'static str
    ensures value { result.now ≡ han_japanese part.now }
    ensures short { length result.now ≤ MOST_JAPANESE }
{
    match part {
        HanPart::Yaku(yaku) | HanPart::Yakuman(yaku) => japanese(*yaku),
        HanPart::Dora => "",
    }
}

/// A yakuman has no number of han.
#[tactic(auto, unfolding(crate::specs::Parts::han_number_json))]
fn push_han(text: &mut JsonText, part: &HanPart, han: u8)
    requires { array_string_len text.old + MOST_HAN ≤ JSON_ROOM }
    ensures bytes { text.new.bytes ≡ text.old.bytes ++ spec.han_number_json part.now han }
    ensures len { array_string_len text.new ≤ array_string_len text.old + MOST_HAN }
{
    match part {
        HanPart::Yakuman(_) => {}
        HanPart::Yaku(_) | HanPart::Dora => push_small(text, ",\"han\":", han),
    }
}

impl Value for DoraRow {
    ghost use Rattle.desk_reasons.specs.declared.rows.TheConstants.{MOST_DORA_ROW};
    ghost use Rattle.desk_reasons.specs.Parts.{dora_row_json};

    ghost value_text = { dora_row_json };

    ghost most = { MOST_DORA_ROW };

    #[tactic(auto, unfolding(crate::specs::Parts::dora_row_json))]
    fn push(&self, text: &mut JsonText) {
        push_part(text, dora_words(self.part), dora_japanese(self.part));
        push_count(text, ",\"han\":", self.han);
        text.push_str("}");
    }
}

impl Value for FuRow {
    ghost use Rattle.desk_reasons.specs.declared.rows.TheConstants.{MOST_FU_ROW};
    ghost use Rattle.desk_reasons.specs.Parts.{fu_row_json};

    ghost value_text = { fu_row_json };

    ghost most = { MOST_FU_ROW };

    #[tactic(auto, unfolding(crate::specs::Parts::fu_row_json))]
    fn push(&self, text: &mut JsonText) {
        push_part(text, fu_words(&self.part), fu_japanese(&self.part));
        push_kind_if(text, fu_kind(&self.part));
        push_small(text, ",\"fu\":", self.fu);
        text.push_str("}");
    }
}

/// The kind of the tiles that earn fu, where these are of one.
#[tactic(auto, unfolding(crate::specs::Rows::fu_kind))]
fn fu_kind(part: &FuPart) -> Option<Kind>
    ensures { result ≡ fu_kind part.now }
{
    match *part {
        FuPart::Triplet { kind, .. } | FuPart::Kong { kind, .. } => Some(kind),
        FuPart::DragonPair(kind) | FuPart::SeatWindPair(kind) | FuPart::PrevalentWindPair(kind) => {
            Some(kind)
        }
        _ => None,
    }
}

#[tactic(auto, unfolding(crate::specs::Parts::kind_if))]
fn push_kind_if(text: &mut JsonText, kind: Option<Kind>)
    requires { array_string_len text.old + MOST_KIND ≤ JSON_ROOM }
    ensures bytes { text.new.bytes ≡ text.old.bytes ++ spec.kind_if kind }
    ensures len { array_string_len text.new ≤ array_string_len text.old + MOST_KIND }
{
    if let Some(kind) = kind {
        text.push_str(",\"kind\":\"");
        push_kind(text, kind);
        text.push_str("\"");
    }
}

impl Value for PayRow {
    ghost use Rattle.desk_reasons.specs.declared.rows.TheConstants.{MOST_PAY_ROW};
    ghost use Rattle.desk_reasons.specs.Parts.{pay_row_json};

    ghost value_text = { pay_row_json };

    ghost most = { MOST_PAY_ROW };

    #[tactic(auto, unfolding(crate::specs::Parts::pay_row_json))]
    fn push(&self, text: &mut JsonText) {
        push_payer(text, self.payer);
        push_count(text, ",\"points\":", self.points);
        push_count(text, ",\"counters\":", self.counters);
        text.push_str("}");
    }
}

#[tactic(auto, unfolding(crate::specs::Parts::payer_json))]
fn push_payer(text: &mut JsonText, payer: Payer)
    requires { array_string_len text.old + MOST_PAYER_MEMBER ≤ JSON_ROOM }
    ensures bytes { text.new.bytes ≡ text.old.bytes ++ spec.payer_json payer }
    ensures len { array_string_len text.new ≤ array_string_len text.old + MOST_PAYER_MEMBER }
{
    text.push_str("{\"payer\":\"");
    text.push_str(payer_words(payer));
    text.push_str("\"");
}
