//! The lines of the base points, of who pays, and of the gain.
ghost use Rattle.std.specs.Prelude.{◌≡◌, ◌+◌, ◌≤◌, ◌++◌, length};
ghost use Rattle.arrayvec.specs.ArrayString.{array_string_len};
ghost use Rattle.riichi_explain.specs.Base.{limit_points};
ghost use Rattle.riichi_explain.specs.Text as spec;

use crate::base::{BaseRule, Limit};
use crate::payers::{MOST_PAY_ROWS, PayRow, Payer};
use crate::room::{REASONS_ROOM, ReasonsText};
use crate::words::{MOST_PAYER, payer_words};
use riichi_text::{ListItem, MOST_U8, MOST_U32, MOST_U64, push_list, push_number};

/// The bytes of the longest line of the base points.
pub(crate) const MOST_BASE_LINE: usize = "  base    ".len() + MOST_BASE + "\n".len();

/// Those of a hand that is raised.
const MOST_BASE: usize = MOST_PRODUCT + ", raised to mangan 2000 (kiriage)".len();

const MOST_PRODUCT: usize = MOST_U8 + " x 2^".len() + MOST_U32 + " = ".len() + MOST_U32;

const MOST_LIMITS: usize = MOST_U32 + " x ".len() + "yakuman ".len() + MOST_U64;

const MOST_HAN_WORDS: usize = MOST_U8 + " han, ".len();

const MOST_LIMIT: usize = MOST_LIMIT_NAME + " ".len() + MOST_U32;

const MOST_LIMIT_NAME: usize = "sanbaiman".len();

/// The bytes of the longest line of who pays.
pub(crate) const MOST_PAY_LINE: usize = "  pays    ".len()
    + MOST_PAY_ROWS * (", ".len() + MOST_PAY_ROW)
    + "\n".len();

const MOST_PAY_ROW: usize = MOST_PAYER_NAME + MOST_ADDED + MOST_EACH;

const MOST_PAYER_NAME: usize = MOST_PAYER + " ".len();

const MOST_EACH: usize = " each".len();

const MOST_ADDED: usize = MOST_U32 + " + ".len() + MOST_U32 + MOST_WHAT + MOST_U64;

const MOST_WHAT: usize = " for counters = ".len();

/// The bytes of the longest line of the gain.
pub(crate) const MOST_GAIN_LINE: usize = "  gain    ".len() + MOST_ADDED + "\n".len();

/// Writes the line of the base points.
#[tactic(auto, unfolding(crate::specs::Text::base_line))]
pub(crate) fn push_base_line(text: &mut ReasonsText, rule: &BaseRule, han: u8, fu: u8)
    requires { array_string_len text.old + MOST_BASE_LINE ≤ REASONS_ROOM }
    ensures bytes { text.new.bytes ≡ text.old.bytes ++ spec.base_line rule.now han fu }
    ensures len { array_string_len text.new ≤ array_string_len text.old + MOST_BASE_LINE }
{
    text.push_str("  base    ");
    push_base(text, rule, han, fu);
    text.push_str("\n");
}

#[tactic(auto, unfolding(crate::specs::Text::base_text))]
fn push_base(text: &mut ReasonsText, rule: &BaseRule, han: u8, fu: u8)
    requires { array_string_len text.old + MOST_BASE ≤ REASONS_ROOM }
    ensures bytes { text.new.bytes ≡ text.old.bytes ++ spec.base_text rule.now han fu }
    ensures len { array_string_len text.new ≤ array_string_len text.old + MOST_BASE }
{
    match rule {
        BaseRule::Product { product } => push_product(text, han, fu, *product),
        BaseRule::Capped { product } => {
            push_product(text, han, fu, *product);
            text.push_str(", mangan 2000");
        }
        BaseRule::Raised { product } => {
            push_product(text, han, fu, *product);
            text.push_str(", raised to mangan 2000 (kiriage)");
        }
        BaseRule::Limited(limit) => {
            push_han_words(text, han);
            push_limit(text, *limit);
        }
        BaseRule::OfYakuman { limits } => push_limits(text, *limits),
    }
}

/// How often the limit of a yakuman is paid, and the points.
#[tactic(auto, unfolding(crate::specs::Text::limits_text))]
fn push_limits(text: &mut ReasonsText, limits: u32)
    requires { array_string_len text.old + MOST_LIMITS ≤ REASONS_ROOM }
    ensures bytes { text.new.bytes ≡ text.old.bytes ++ spec.limits_text limits }
    ensures len { array_string_len text.new ≤ array_string_len text.old + MOST_LIMITS }
{
    if limits != 1 {
        push_number(text, limits);
        text.push_str(" x ");
    }
    text.push_str("yakuman ");
    push_number(text, 8000 * u64::from(limits));
}

#[tactic(auto, unfolding(crate::specs::Text::product_text))]
fn push_product(text: &mut ReasonsText, han: u8, fu: u8, product: u32)
    requires { array_string_len text.old + MOST_PRODUCT ≤ REASONS_ROOM }
    ensures bytes { text.new.bytes ≡ text.old.bytes ++ spec.product_text han fu product }
    ensures len { array_string_len text.new ≤ array_string_len text.old + MOST_PRODUCT }
{
    push_number(text, fu);
    text.push_str(" x 2^");
    push_number(text, u32::from(han) + 2);
    text.push_str(" = ");
    push_number(text, product);
}

/// A yakuman has no number of han.
#[tactic(auto, unfolding(crate::specs::Text::han_count_text))]
fn push_han_words(text: &mut ReasonsText, han: u8)
    requires { array_string_len text.old + MOST_HAN_WORDS ≤ REASONS_ROOM }
    ensures bytes { text.new.bytes ≡ text.old.bytes ++ spec.han_count_text han }
    ensures len { array_string_len text.new ≤ array_string_len text.old + MOST_HAN_WORDS }
{
    if han > 0 {
        push_number(text, han);
        text.push_str(" han, ");
    }
}

#[tactic(auto, unfolding(crate::specs::Text::limit_text))]
fn push_limit(text: &mut ReasonsText, limit: Limit)
    requires { array_string_len text.old + MOST_LIMIT ≤ REASONS_ROOM }
    ensures bytes { text.new.bytes ≡ text.old.bytes ++ spec.limit_text limit }
    ensures len { array_string_len text.new ≤ array_string_len text.old + MOST_LIMIT }
{
    push_limit_name(text, limit);
    text.push_str(" ");
    push_number(text, limit_points(limit));
}

#[tactic(auto, unfolding(crate::specs::Text::limit_name))]
fn push_limit_name(text: &mut ReasonsText, limit: Limit)
    requires { array_string_len text.old + MOST_LIMIT_NAME ≤ REASONS_ROOM }
    ensures bytes { text.new.bytes ≡ text.old.bytes ++ spec.limit_name limit }
    ensures len { array_string_len text.new ≤ array_string_len text.old + MOST_LIMIT_NAME }
{
    match limit {
        Limit::Mangan => text.push_str("mangan"),
        Limit::Haneman => text.push_str("haneman"),
        Limit::Baiman => text.push_str("baiman"),
        Limit::Sanbaiman => text.push_str("sanbaiman"),
        Limit::Yakuman => text.push_str("yakuman"),
    }
}

fn limit_points(limit: Limit) -> u32
    ensures { result ≡ limit_points limit }
{
    match limit {
        Limit::Mangan => 2000,
        Limit::Haneman => 3000,
        Limit::Baiman => 4000,
        Limit::Sanbaiman => 6000,
        Limit::Yakuman => 8000,
    }
}

/// Writes the line of who pays what.
#[tactic(auto, unfolding(crate::specs::Text::pay_line))]
pub(crate) fn push_pay_line(text: &mut ReasonsText, rows: &[PayRow])
    requires few { length rows.now ≤ MOST_PAY_ROWS }
    requires room { array_string_len text.old + MOST_PAY_LINE ≤ REASONS_ROOM }
    ensures bytes { text.new.bytes ≡ text.old.bytes ++ spec.pay_line rows.now }
    ensures len { array_string_len text.new ≤ array_string_len text.old + MOST_PAY_LINE }
{
    text.push_str("  pays    ");
    push_list(text, ", ", rows);
    text.push_str("\n");
}

impl ListItem<REASONS_ROOM> for PayRow {
    ghost use Rattle.riichi_explain.specs.declared.points_text.TheConstants.{MOST_PAY_ROW};
    ghost use Rattle.riichi_explain.specs.Text.{pay_row_text};

    ghost item_text = { pay_row_text };

    ghost most = { MOST_PAY_ROW };

    #[tactic(auto, unfolding(crate::specs::Text::pay_row_text))]
    fn push(&self, text: &mut ReasonsText) {
        push_payer(text, self.payer);
        push_added(text, " for counters = ", self.points, self.counters);
        push_each(text, self.payer);
    }
}

#[tactic(auto, unfolding(crate::specs::Text::payer_name))]
fn push_payer(text: &mut ReasonsText, payer: Payer)
    requires { array_string_len text.old + MOST_PAYER_NAME ≤ REASONS_ROOM }
    ensures bytes { text.new.bytes ≡ text.old.bytes ++ spec.payer_name payer }
    ensures len { array_string_len text.new ≤ array_string_len text.old + MOST_PAYER_NAME }
{
    text.push_str(payer_words(payer));
    text.push_str(" ");
}

#[tactic(auto, unfolding(crate::specs::Text::each_text))]
fn push_each(text: &mut ReasonsText, payer: Payer)
    requires { array_string_len text.old + MOST_EACH ≤ REASONS_ROOM }
    ensures bytes { text.new.bytes ≡ text.old.bytes ++ spec.each_text payer }
    ensures len { array_string_len text.new ≤ array_string_len text.old + MOST_EACH }
{
    match payer {
        Payer::Discarder | Payer::Dealer => {}
        Payer::TwoOthers | Payer::ThreeOthers => text.push_str(" each"),
    }
}

/// An amount, and what is added to it.
#[tactic(auto, unfolding(crate::specs::Text::added_text))]
fn push_added(text: &mut ReasonsText, what: &str, points: u32, more: u32)
    requires few { length what.now ≤ MOST_WHAT }
    requires room { array_string_len text.old + MOST_ADDED ≤ REASONS_ROOM }
    ensures bytes { text.new.bytes ≡ text.old.bytes ++ spec.added_text what.now points more }
    ensures len { array_string_len text.new ≤ array_string_len text.old + MOST_ADDED }
{
    if more == 0 {
        push_number(text, points);
    } else {
        push_sum_of_two(text, what, points, more);
    }
}

#[tactic(auto, unfolding(crate::specs::Text::sum_of_two))]
fn push_sum_of_two(text: &mut ReasonsText, what: &str, points: u32, more: u32)
    requires few { length what.now ≤ MOST_WHAT }
    requires room { array_string_len text.old + MOST_ADDED ≤ REASONS_ROOM }
    ensures bytes { text.new.bytes ≡ text.old.bytes ++ spec.sum_of_two what.now points more }
    ensures len { array_string_len text.new ≤ array_string_len text.old + MOST_ADDED }
{
    push_number(text, points);
    text.push_str(" + ");
    push_number(text, more);
    text.push_str(what);
    push_number(text, u64::from(points) + u64::from(more));
}

/// Writes the line of the gain: what is paid, and the riichi sticks.
#[tactic(auto, unfolding(crate::specs::Text::gain_line))]
pub(crate) fn push_gain_line(text: &mut ReasonsText, gain: u32, sticks: u8)
    requires { array_string_len text.old + MOST_GAIN_LINE ≤ REASONS_ROOM }
    ensures bytes { text.new.bytes ≡ text.old.bytes ++ spec.gain_line gain sticks }
    ensures len { array_string_len text.new ≤ array_string_len text.old + MOST_GAIN_LINE }
{
    let more = 1000 * u32::from(sticks);
    text.push_str("  gain    ");
    push_added(text, " for sticks = ", gain.saturating_sub(more), more);
    text.push_str("\n");
}
