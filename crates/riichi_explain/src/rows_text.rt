//! The lines of the rows of han and of fu.
ghost use Rattle.std.specs.Prelude.{◌≡◌, ◌+◌, ◌≤◌, ◌++◌, length};
ghost use Rattle.arrayvec.specs.ArrayString.{array_string_len};
ghost use Rattle.riichi_explain.specs.Text as spec;

use crate::dora::{DoraPart, DoraRow, MOST_DORA_ROWS, dora_total};
use crate::fu::{FuPart, FuRow, MOST_FU_ROWS, fu_total};
use crate::han::{HanPart, HanRow, MOST_HAN_ROWS};
use crate::room::{REASONS_ROOM, ReasonsText};
use crate::words::{
    MOST_DORA_JAPANESE, MOST_DORA_WORDS, MOST_FU_JAPANESE, MOST_FU_WORDS, dora_japanese,
    dora_words, fu_japanese, fu_words,
};
use riichi_names::{MOST_NAMED, push_named};
use riichi_text::{
    ListItem, MOST_U8, MOST_U32, MOST_U64, push_four, push_list, push_number, push_three, push_two,
};

/// The bytes of the longest line of han, of a hand that has every yaku.
pub(crate) const MOST_HAN_LINE: usize = MOST_HAN_LABEL
    + MOST_HAN_ROWS * (", ".len() + MOST_HAN_ROW)
    + MOST_SUM
    + "\n".len();

const MOST_HAN_LABEL: usize = "  yakuman ".len();

const MOST_HAN_ROW: usize = MOST_HAN_PART + MOST_HAN_NUMBER;

const MOST_HAN_PART: usize = MOST_NAMED;

const MOST_HAN_NUMBER: usize = " ".len() + MOST_U8;

const MOST_SUM: usize = ": ".len() + MOST_U32;

/// The bytes of the longest line of dora.
pub(crate) const MOST_DORA_LINE: usize = "  dora    ".len()
    + MOST_U64
    + ": ".len()
    + MOST_DORA_ROWS * (", ".len() + MOST_DORA_ROW)
    + "\n".len();

const MOST_DORA_ROW: usize = MOST_U32 + MOST_DORA_PART;

const MOST_DORA_PART: usize = " ".len() + MOST_DORA_WORDS + MOST_BRACKETS + MOST_DORA_JAPANESE;

const MOST_BRACKETS: usize = " (".len() + ")".len();

/// The bytes of the longest line of fu.
pub(crate) const MOST_FU_LINE: usize = "  fu      ".len()
    + MOST_FU_ROWS * (", ".len() + MOST_FU_ROW)
    + MOST_SUM
    + MOST_ROUNDED
    + "\n".len();

const MOST_ROUNDED: usize = ", rounded to ".len() + MOST_U8;

const MOST_FU_ROW: usize = MOST_U8 + " ".len() + MOST_FU_PART;

const MOST_FU_PART: usize = MOST_FU_WORDS + MOST_FU_TILES + MOST_BRACKETS + MOST_FU_JAPANESE;

const MOST_FU_TILES: usize = " 1111m".len();

/// Writes the line of the rows of han. That of a yakuman has its names alone.
#[tactic(auto, unfolding(crate::specs::Text::han_line))]
pub(crate) fn push_han_line(text: &mut ReasonsText, yakuman: bool, han: u8, rows: &[HanRow])
    requires few { length rows.now ≤ MOST_HAN_ROWS }
    requires room { array_string_len text.old + MOST_HAN_LINE ≤ REASONS_ROOM }
    ensures bytes { text.new.bytes ≡ text.old.bytes ++ spec.han_line yakuman han rows.now }
    ensures len { array_string_len text.new ≤ array_string_len text.old + MOST_HAN_LINE }
{
    push_han_label(text, yakuman);
    push_list(text, ", ", rows);
    push_han_sum(text, yakuman, rows.len(), han);
    text.push_str("\n");
}

#[tactic(auto, unfolding(crate::specs::Text::han_label))]
fn push_han_label(text: &mut ReasonsText, yakuman: bool)
    requires { array_string_len text.old + MOST_HAN_LABEL ≤ REASONS_ROOM }
    ensures bytes { text.new.bytes ≡ text.old.bytes ++ spec.han_label yakuman }
    ensures len { array_string_len text.new ≤ array_string_len text.old + MOST_HAN_LABEL }
{
    if yakuman {
        text.push_str("  yakuman ");
    } else {
        text.push_str("  han     ");
    }
}

#[tactic(auto, unfolding(crate::specs::Text::han_sum))]
fn push_han_sum(text: &mut ReasonsText, yakuman: bool, rows: usize, han: u8)
    requires { array_string_len text.old + MOST_SUM ≤ REASONS_ROOM }
    ensures bytes { text.new.bytes ≡ text.old.bytes ++ spec.han_sum yakuman rows han }
    ensures len { array_string_len text.new ≤ array_string_len text.old + MOST_SUM }
{
    if !yakuman {
        push_sum_of(text, rows, u32::from(han));
    }
}

/// Two or more rows are followed by their sum.
#[tactic(auto, unfolding(crate::specs::Text::sum_text))]
fn push_sum_of(text: &mut ReasonsText, rows: usize, sum: u32)
    requires { array_string_len text.old + MOST_SUM ≤ REASONS_ROOM }
    ensures bytes { text.new.bytes ≡ text.old.bytes ++ spec.sum_text rows sum }
    ensures len { array_string_len text.new ≤ array_string_len text.old + MOST_SUM }
{
    if rows > 1 {
        text.push_str(": ");
        push_number(text, sum);
    }
}

impl ListItem<REASONS_ROOM> for HanRow {
    ghost use Rattle.riichi_explain.specs.declared.rows_text.TheConstants.{MOST_HAN_ROW};
    ghost use Rattle.riichi_explain.specs.Text.{han_row_text};

    ghost item_text = { han_row_text };

    ghost most = { MOST_HAN_ROW };

    #[tactic(auto, unfolding(crate::specs::Text::han_row_text))]
    fn push(&self, text: &mut ReasonsText) {
        push_han_part(text, &self.part);
        push_han_number(text, &self.part, self.han);
    }
}

#[tactic(auto, unfolding(crate::specs::Text::han_part_text))]
fn push_han_part(text: &mut ReasonsText, part: &HanPart)
    requires { array_string_len text.old + MOST_HAN_PART ≤ REASONS_ROOM }
    ensures bytes { text.new.bytes ≡ text.old.bytes ++ spec.han_part_text part.now }
    ensures len { array_string_len text.new ≤ array_string_len text.old + MOST_HAN_PART }
{
    match part {
        HanPart::Yaku(yaku) | HanPart::Yakuman(yaku) => push_named(text, *yaku),
        HanPart::Dora => text.push_str("dora"),
    }
}

/// A yakuman has no number of han.
#[tactic(auto, unfolding(crate::specs::Text::han_number))]
fn push_han_number(text: &mut ReasonsText, part: &HanPart, han: u8)
    requires { array_string_len text.old + MOST_HAN_NUMBER ≤ REASONS_ROOM }
    ensures bytes { text.new.bytes ≡ text.old.bytes ++ spec.han_number part.now han }
    ensures len { array_string_len text.new ≤ array_string_len text.old + MOST_HAN_NUMBER }
{
    match part {
        HanPart::Yakuman(_) => {}
        HanPart::Yaku(_) | HanPart::Dora => {
            text.push_str(" ");
            push_number(text, han);
        }
    }
}

/// Writes the line of the dora, where there are any: how many, and where they come from.
#[tactic(auto, unfolding(crate::specs::Text::dora_line_if))]
pub(crate) fn push_dora_line_if(text: &mut ReasonsText, rows: &[DoraRow])
    requires few { length rows.now ≤ MOST_DORA_ROWS }
    requires room { array_string_len text.old + MOST_DORA_LINE ≤ REASONS_ROOM }
    ensures bytes { text.new.bytes ≡ text.old.bytes ++ spec.dora_line_if rows.now }
    ensures len { array_string_len text.new ≤ array_string_len text.old + MOST_DORA_LINE }
{
    if !rows.is_empty() {
        push_dora_line(text, rows);
    }
}

#[tactic(auto, unfolding(crate::specs::Text::dora_line))]
fn push_dora_line(text: &mut ReasonsText, rows: &[DoraRow])
    requires few { length rows.now ≤ MOST_DORA_ROWS }
    requires room { array_string_len text.old + MOST_DORA_LINE ≤ REASONS_ROOM }
    ensures bytes { text.new.bytes ≡ text.old.bytes ++ spec.dora_line rows.now }
    ensures len { array_string_len text.new ≤ array_string_len text.old + MOST_DORA_LINE }
{
    let total = dora_total(rows);
    text.push_str("  dora    ");
    push_number(text, total);
    text.push_str(": ");
    push_list(text, ", ", rows);
    text.push_str("\n");
}

impl ListItem<REASONS_ROOM> for DoraRow {
    ghost use Rattle.riichi_explain.specs.declared.rows_text.TheConstants.{MOST_DORA_ROW};
    ghost use Rattle.riichi_explain.specs.Text.{dora_row_text};

    ghost item_text = { dora_row_text };

    ghost most = { MOST_DORA_ROW };

    #[tactic(auto, unfolding(crate::specs::Text::dora_row_text))]
    fn push(&self, text: &mut ReasonsText) {
        push_number(text, self.han);
        push_dora_part(text, self.part, self.han);
    }
}

#[tactic(auto, unfolding(crate::specs::Text::dora_part_text))]
fn push_dora_part(text: &mut ReasonsText, part: DoraPart, han: u32)
    requires { array_string_len text.old + MOST_DORA_PART ≤ REASONS_ROOM }
    ensures bytes { text.new.bytes ≡ text.old.bytes ++ spec.dora_part_text part han }
    ensures len { array_string_len text.new ≤ array_string_len text.old + MOST_DORA_PART }
{
    match part {
        DoraPart::RedFives if han == 1 => text.push_str(" red five"),
        _ => push_dora_words(text, part),
    }
}

#[tactic(auto, unfolding(crate::specs::Text::dora_part_words))]
fn push_dora_words(text: &mut ReasonsText, part: DoraPart)
    requires { array_string_len text.old + MOST_DORA_PART ≤ REASONS_ROOM }
    ensures bytes { text.new.bytes ≡ text.old.bytes ++ spec.dora_part_words part }
    ensures len { array_string_len text.new ≤ array_string_len text.old + MOST_DORA_PART }
{
    text.push_str(" ");
    text.push_str(dora_words(part));
    push_beside(text, dora_japanese(part));
}

/// A Japanese name in brackets, where there is one.
#[tactic(auto, unfolding(crate::specs::Text::beside))]
fn push_beside(text: &mut ReasonsText, name: &str)
    requires { array_string_len text.old + MOST_BRACKETS + length name.now ≤ REASONS_ROOM }
    ensures bytes { text.new.bytes ≡ text.old.bytes ++ spec.beside name.now }
    ensures len { array_string_len text.new
        ≤ array_string_len text.old + MOST_BRACKETS + length name.now }
{
    if !name.is_empty() {
        text.push_str(" (");
        text.push_str(name);
        text.push_str(")");
    }
}

/// Writes the line of the rows of fu, with their sum and what it is rounded to.
#[tactic(auto, unfolding(crate::specs::Text::fu_line))]
pub(crate) fn push_fu_line(text: &mut ReasonsText, rows: &[FuRow], fu: u8)
    requires few { length rows.now ≤ MOST_FU_ROWS }
    requires room { array_string_len text.old + MOST_FU_LINE ≤ REASONS_ROOM }
    ensures bytes { text.new.bytes ≡ text.old.bytes ++ spec.fu_line rows.now fu }
    ensures len { array_string_len text.new ≤ array_string_len text.old + MOST_FU_LINE }
{
    let sum = fu_total(rows);
    text.push_str("  fu      ");
    push_list(text, ", ", rows);
    push_sum_of(text, rows.len(), sum);
    push_rounded(text, sum, fu);
    text.push_str("\n");
}

#[tactic(auto, unfolding(crate::specs::Text::rounded_text))]
fn push_rounded(text: &mut ReasonsText, sum: u32, fu: u8)
    requires { array_string_len text.old + MOST_ROUNDED ≤ REASONS_ROOM }
    ensures bytes { text.new.bytes ≡ text.old.bytes ++ spec.rounded_text sum fu }
    ensures len { array_string_len text.new ≤ array_string_len text.old + MOST_ROUNDED }
{
    if sum != u32::from(fu) {
        push_rounded_to(text, fu);
    }
}

#[tactic(auto, unfolding(crate::specs::Text::rounded_to))]
fn push_rounded_to(text: &mut ReasonsText, fu: u8)
    requires { array_string_len text.old + MOST_ROUNDED ≤ REASONS_ROOM }
    ensures bytes { text.new.bytes ≡ text.old.bytes ++ spec.rounded_to fu }
    ensures len { array_string_len text.new ≤ array_string_len text.old + MOST_ROUNDED }
{
    text.push_str(", rounded to ");
    push_number(text, fu);
}

impl ListItem<REASONS_ROOM> for FuRow {
    ghost use Rattle.riichi_explain.specs.declared.rows_text.TheConstants.{MOST_FU_ROW};
    ghost use Rattle.riichi_explain.specs.Text.{fu_row_text};

    ghost item_text = { fu_row_text };

    ghost most = { MOST_FU_ROW };

    #[tactic(auto, unfolding(crate::specs::Text::fu_row_text))]
    fn push(&self, text: &mut ReasonsText) {
        push_number(text, self.fu);
        text.push_str(" ");
        push_fu_part(text, &self.part);
    }
}

#[tactic(auto, unfolding(crate::specs::Text::fu_part_text))]
fn push_fu_part(text: &mut ReasonsText, part: &FuPart)
    requires { array_string_len text.old + MOST_FU_PART ≤ REASONS_ROOM }
    ensures bytes { text.new.bytes ≡ text.old.bytes ++ spec.fu_part_text part.now }
    ensures len { array_string_len text.new ≤ array_string_len text.old + MOST_FU_PART }
{
    text.push_str(fu_words(part));
    push_fu_tiles(text, part);
    push_beside(text, fu_japanese(part));
}

/// The tiles of what earns fu, where these are of one kind.
#[tactic(auto, unfolding(crate::specs::Text::fu_tiles))]
fn push_fu_tiles(text: &mut ReasonsText, part: &FuPart)
    requires { array_string_len text.old + MOST_FU_TILES ≤ REASONS_ROOM }
    ensures bytes { text.new.bytes ≡ text.old.bytes ++ spec.fu_tiles part.now }
    ensures len { array_string_len text.new ≤ array_string_len text.old + MOST_FU_TILES }
{
    match *part {
        FuPart::Triplet { kind, .. } => {
            text.push_str(" ");
            push_three(text, kind);
        }
        FuPart::Kong { kind, .. } => {
            text.push_str(" ");
            push_four(text, kind);
        }
        FuPart::DragonPair(kind) | FuPart::SeatWindPair(kind) | FuPart::PrevalentWindPair(kind) => {
            text.push_str(" ");
            push_two(text, kind);
        }
        _ => {}
    }
}
