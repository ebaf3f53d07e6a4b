//! What a win is worth.
ghost use Rattle.std.specs.Prelude.{◌≡◌, ◌≤◌, ◌+◌, ◌++◌, codes, length};
ghost use Rattle.arrayvec.specs.ArrayString.{array_string_len};
ghost use Rattle.desk_core.specs.declared.answer.Answer.TheVariants.{Win};
ghost use Rattle.desk_json.specs.Parts as spec;
ghost use Rattle.desk_json.specs.Text.{answer_json};

use crate::number::push_after;
use crate::text::{JSON_ROOM, JsonText};
use crate::yaku::{MOST_YAKU, push_yaku};
use riichi_hand::{MOST_RULES_WORDS, Rules, push_house_words};
use riichi_score::{Payment, Score, WinAnswer};
use riichi_text::MOST_U32;

/// The bytes of the longest object of a win, without the brace that ends it.
pub const MOST_OPEN_WIN: usize = MOST_SCORE + ",\"rules\":\"".len() + MOST_RULES_WORDS + "\"".len();

const MOST_WIN: usize = MOST_OPEN_WIN + "}".len();

const MOST_SCORE: usize = MOST_WORTH + MOST_POINTS + ",\"yaku\":[".len() + MOST_YAKU + "]".len();

const MOST_WORTH: usize = "{\"answer\":\"won\",\"yakuman\":".len()
    + MOST_TRUTH
    + ",\"han\":".len()
    + MOST_U32
    + ",\"fu\":".len()
    + MOST_U32
    + ",\"dora\":".len()
    + MOST_U32;

const MOST_TRUTH: usize = "false".len();

const MOST_POINTS: usize = ",\"base\":".len()
    + MOST_U32
    + ",\"limit\":".len()
    + MOST_LIMIT
    + ",\"payment\":".len()
    + MOST_PAYMENT
    + ",\"gain\":".len()
    + MOST_U32;

const MOST_LIMIT: usize = "\"sanbaiman\"".len();

const MOST_PAYMENT: usize = "{\"dealer\":".len()
    + MOST_U32
    + ",\"each_other\":".len()
    + MOST_U32
    + "}".len();

#[tactic(auto, using(crate::proofs::Pieces::win_written))]
pub(crate) fn push_win(text: &mut JsonText, rules: Rules, answer: &WinAnswer)
    requires { array_string_len text.old + MOST_WIN ≤ JSON_ROOM }
    ensures { text.new.bytes ≡ text.old.bytes ++ answer_json rules (Win answer.now) }
{
    push_open_win(text, rules, answer);
    text.push_str("}");
}

/// Writes the object of a win's answer under these rules behind a text, without the brace that ends it, so that more members may
/// stand there.
pub fn push_open_win(text: &mut JsonText, rules: Rules, answer: &WinAnswer)
    requires { array_string_len text.old + MOST_OPEN_WIN ≤ JSON_ROOM }
    ensures bytes { text.new.bytes ++ codes "}"
        ≡ text.old.bytes ++ answer_json rules (Win answer.now) }
    ensures len { array_string_len text.new ≤ array_string_len text.old + MOST_OPEN_WIN }
{
    push_members(text, rules, answer);
}

#[tactic(auto, unfolding(crate::specs::Parts::open_win_json))]
fn push_members(text: &mut JsonText, rules: Rules, answer: &WinAnswer)
    requires { array_string_len text.old + MOST_OPEN_WIN ≤ JSON_ROOM }
    ensures bytes { text.new.bytes ≡ text.old.bytes ++ spec.open_win_json rules answer.now }
    ensures len { array_string_len text.new ≤ array_string_len text.old + MOST_OPEN_WIN }
{
    push_worth_members(text, answer);
    push_house_words(text, ",\"rules\":\"", rules, "\"");
}

#[tactic(auto, unfolding(crate::specs::Parts::worth_members_json))]
fn push_worth_members(text: &mut JsonText, answer: &WinAnswer)
    requires { array_string_len text.old + MOST_SCORE ≤ JSON_ROOM }
    ensures bytes { text.new.bytes ≡ text.old.bytes ++ spec.worth_members_json answer.now }
    ensures len { array_string_len text.new ≤ array_string_len text.old + MOST_SCORE }
{
    match answer {
        WinAnswer::Won(score) => push_score(text, score),
        WinAnswer::NoYaku => text.push_str("{\"answer\":\"no yaku\""),
        WinAnswer::NoWin => text.push_str("{\"answer\":\"no win\""),
    }
}

#[tactic(auto, unfolding(crate::specs::Parts::score_json))]
fn push_score(text: &mut JsonText, score: &Score)
    requires { array_string_len text.old + MOST_SCORE ≤ JSON_ROOM }
    ensures bytes { text.new.bytes ≡ text.old.bytes ++ spec.score_json score.now }
    ensures len { array_string_len text.new ≤ array_string_len text.old + MOST_SCORE }
{
    push_worth(text, score);
    push_points(text, score);
    text.push_str(",\"yaku\":[");
    push_yaku(text, score.yaku);
    text.push_str("]");
}

/// The han with the fu and the dora.
#[tactic(auto, unfolding(crate::specs::Parts::worth_json))]
fn push_worth(text: &mut JsonText, score: &Score)
    requires { array_string_len text.old + MOST_WORTH ≤ JSON_ROOM }
    ensures bytes { text.new.bytes ≡ text.old.bytes ++ spec.worth_json score.now }
    ensures len { array_string_len text.new ≤ array_string_len text.old + MOST_WORTH }
{
    text.push_str("{\"answer\":\"won\",\"yakuman\":");
    text.push_str(truth_text(score.yaku.is_yakuman()));
    push_after(text, ",\"han\":", u32::from(score.han));
    push_after(text, ",\"fu\":", u32::from(score.fu));
    push_after(text, ",\"dora\":", u32::from(score.dora));
}

/// The base points, and what is paid for them.
#[tactic(auto, unfolding(crate::specs::Parts::points_json))]
fn push_points(text: &mut JsonText, score: &Score)
    requires { array_string_len text.old + MOST_POINTS ≤ JSON_ROOM }
    ensures bytes { text.new.bytes ≡ text.old.bytes ++ spec.points_json score.now }
    ensures len { array_string_len text.new ≤ array_string_len text.old + MOST_POINTS }
{
    push_after(text, ",\"base\":", score.base);
    text.push_str(",\"limit\":");
    text.push_str(limit_text(score.base));
    text.push_str(",\"payment\":");
    push_payment(text, &score.payment);
    push_after(text, ",\"gain\":", score.gain);
}

#[tactic(auto, using(crate::proofs::Behind::five))]
fn push_payment(text: &mut JsonText, payment: &Payment)
    requires { array_string_len text.old + MOST_PAYMENT ≤ JSON_ROOM }
    ensures bytes { text.new.bytes ≡ text.old.bytes ++ spec.payment_json payment.now }
    ensures len { array_string_len text.new ≤ array_string_len text.old + MOST_PAYMENT }
{
    match payment {
        Payment::Ron { points } => {
            push_after(text, "{\"discarder\":", *points);
            text.push_str("}");
        }
        Payment::Tsumo { other, dealer } => {
            push_after(text, "{\"dealer\":", *dealer);
            push_after(text, ",\"each_other\":", *other);
            text.push_str("}");
        }
        Payment::DealerTsumo { each } => {
            push_after(text, "{\"each\":", *each);
            text.push_str("}");
        }
    }
}

fn truth_text(truth: bool) -> &'static str
    ensures value { result.now ≡ spec.truth_json truth }
    ensures short { length result.now ≤ MOST_TRUTH }
{
    if truth { "true" } else { "false" }
}

/// The name of the limit of these base points, in its quotes; `null` where they are below each.
fn limit_text(base: u32) -> &'static str
    ensures value { result.now ≡ spec.limit_json base }
    ensures short { length result.now ≤ MOST_LIMIT }
{
    match base {
        2000 => "\"mangan\"",
        3000 => "\"haneman\"",
        4000 => "\"baiman\"",
        6000 => "\"sanbaiman\"",
        8000.. => "\"yakuman\"",
        _ => "null",
    }
}
