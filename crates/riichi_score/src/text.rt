//! The text of an answer.
ghost use Rattle.std.specs.Prelude.{◌≡◌, ◌≤◌, ◌++◌, ◌+◌};
ghost use Rattle.arrayvec.specs.ArrayString.{array_string_len};
ghost use Rattle.riichi_score.specs.Text as spec;

use crate::{Payment, Score, WinAnswer};
use riichi_text::{ANSWER_ROOM, AnswerText, MOST_U8, MOST_U32, push_number};
use riichi_yaku::{Yaku, push_words};

/// The bytes of the longest answer, of a hand that has every yaku.
pub const MOST_WIN: usize = "won ".len()
    + MOST_WORTH
    + MOST_PAYMENT
    + " gain ".len()
    + MOST_U32
    + Yaku::MOST_WORDS
    + MOST_DORA;

const MOST_WORTH: usize = MOST_U8 + " han ".len() + MOST_U8 + " fu ".len();

const MOST_PAYMENT: usize = MOST_U32 + "/".len() + MOST_U32;

const MOST_DORA: usize = " dora ".len() + MOST_U8;

/// The text of an answer, without the line's end.
pub fn win_text(answer: &WinAnswer) -> AnswerText
    ensures { result.bytes ≡ spec.win_text answer.now }
{
    let mut text = AnswerText::new();
    push_win(&mut text, answer);
    text
}

/// Writes the answer behind a text, without the line's end. A text that is kept need not be made anew for each answer.
#[tactic(auto, unfolding(crate::specs::Text::win_text))]
pub fn push_win(text: &mut AnswerText, answer: &WinAnswer)
    requires { array_string_len text.old + MOST_WIN ≤ ANSWER_ROOM }
    ensures { text.new.bytes ≡ text.old.bytes ++ spec.win_text answer.now }
{
    match answer {
        WinAnswer::NoWin => text.push_str("no win"),
        WinAnswer::NoYaku => text.push_str("no yaku"),
        WinAnswer::Won(score) => push_score(text, score),
    }
}

fn push_score(text: &mut AnswerText, score: &Score)
    requires { array_string_len text.old + MOST_WIN ≤ ANSWER_ROOM }
    ensures { text.new.bytes ≡ text.old.bytes ++ spec.score_text score.now }
{
    text.push_str("won ");
    push_worth(text, score);
    push_payment(text, &score.payment);
    text.push_str(" gain ");
    push_number(text, score.gain);
    push_words(text, score.yaku);
    push_dora(text, score.dora);
}

fn push_worth(text: &mut AnswerText, score: &Score)
    requires { array_string_len text.old + MOST_WORTH ≤ ANSWER_ROOM }
    ensures bytes { text.new.bytes ≡ text.old.bytes ++ spec.worth_text score.now }
    ensures len { array_string_len text.new ≤ array_string_len text.old + MOST_WORTH }
{
    if score.yaku.is_yakuman() {
        text.push_str("yakuman ");
    } else {
        push_number(text, score.han);
        text.push_str(" han ");
        push_number(text, score.fu);
        text.push_str(" fu ");
    }
}

fn push_payment(text: &mut AnswerText, payment: &Payment)
    requires { array_string_len text.old + MOST_PAYMENT ≤ ANSWER_ROOM }
    ensures bytes { text.new.bytes ≡ text.old.bytes ++ spec.payment_text payment.now }
    ensures len { array_string_len text.new ≤ array_string_len text.old + MOST_PAYMENT }
{
    match payment {
        Payment::Ron { points } => push_number(text, *points),
        Payment::Tsumo { other, dealer } => {
            push_number(text, *other);
            text.push_str("/");
            push_number(text, *dealer);
        }
        Payment::DealerTsumo { each } => {
            push_number(text, *each);
            text.push_str(" all");
        }
    }
}

fn push_dora(text: &mut AnswerText, dora: u8)
    requires { array_string_len text.old + MOST_DORA ≤ ANSWER_ROOM }
    ensures { text.new.bytes ≡ text.old.bytes ++ spec.dora_text dora }
{
    if dora > 0 {
        text.push_str(" dora ");
        push_number(text, dora);
    }
}
