//! The object of a win, with the reasons at its end.
ghost use Rattle.std.specs.Prelude.{◌≡◌, ◌≤◌, ◌+◌, ◌++◌, ℕ, List, length};
ghost use Rattle.arrayvec.specs.ArrayString.{array_string_len};
ghost use Rattle.desk_json.specs.Text.{json_text};
ghost use Rattle.desk_reasons.specs.Parts as spec;
ghost use Rattle.desk_reasons.specs.Reasons.{IsExplainedWin};
ghost use Rattle.desk_reasons.specs.Trees.{why_tree};

use crate::missed::push_missed;
use crate::others::{MOST_OTHER, others_of};
use crate::reading::{MOST_READING, push_reading};
use crate::rows::{MOST_DORA_ROW, MOST_FU_ROW, MOST_HAN_ROW, MOST_PAY_ROW};
use crate::values::push_rows;
use desk_json::{JSON_ROOM, JsonText, MOST_OPEN_WIN, push_open_win};
use riichi_explain::{
    MOST_DORA_ROWS, MOST_FU_ROWS, MOST_HAN_ROWS, MOST_PAY_ROWS, MOST_READINGS, RankedReading,
    WinExplanation, WonHand, explain_ranked, ranked_readings,
};
use riichi_hand::WinRecord;
use riichi_shape::RowSource;

/// The bytes of the longest object of a win with its reasons.
pub const MOST_EXPLAINED_WIN: usize = MOST_OPEN_WIN + ",\"why\":".len() + MOST_WHY + "}".len();

const MOST_WHY: usize = MOST_EARNED + MOST_PAID;

const MOST_EARNED: usize = "{\"reading\":".len()
    + MOST_READING
    + ",\"han\":[".len()
    + MOST_HAN_ROWS * (",".len() + MOST_HAN_ROW)
    + "],\"dora\":[".len()
    + MOST_DORA_ROWS * (",".len() + MOST_DORA_ROW);

const MOST_PAID: usize = "],\"fu\":[".len()
    + MOST_FU_ROWS * (",".len() + MOST_FU_ROW)
    + "],\"payments\":[".len()
    + MOST_PAY_ROWS * (",".len() + MOST_PAY_ROW)
    + "],\"others\":[".len()
    + MOST_READINGS * (",".len() + MOST_OTHER)
    + "]}".len();

const MOST_UNSCORED: usize = "{\"others\":[".len()
    + MOST_READINGS * (",".len() + MOST_OTHER)
    + "]}".len();

/// Writes the object that answers a win behind a text, with the member `why` at its end, without a line's end. Where the hand is
/// no win, the rows of a source say how far it is from each form.
pub fn push_explained_win<R: RowSource>(text: &mut JsonText, win: &WinRecord, source: &mut R)
    requires { array_string_len text.old + MOST_EXPLAINED_WIN ≤ JSON_ROOM }
    ensures { (object : List ℕ) × IsExplainedWin win.now object
        × (text.new.bytes ≡ text.old.bytes ++ object) }
{
    let ranked = ranked_readings(win);
    let explanation = explain_ranked(source, win, ranked.as_slice());
    push_open_win(text, win.rules(), &explanation.answer());
    text.push_str(",\"why\":");
    push_why(text, &explanation, ranked.as_slice());
    text.push_str("}");
}

/// Why a win is answered so.
#[tactic(auto, using(crate::proofs::Written::push_why_facts), unfolding(crate::specs::Trees::why_tree))]
fn push_why(text: &mut JsonText, explanation: &WinExplanation, ranked: &[RankedReading])
    requires few { length ranked.now ≤ MOST_READINGS }
    requires room { array_string_len text.old + MOST_WHY ≤ JSON_ROOM }
    ensures bytes { text.new.bytes
        ≡ text.old.bytes ++ json_text (why_tree explanation.now ranked.now) }
    ensures len { array_string_len text.new ≤ array_string_len text.old + MOST_WHY }
{
    match explanation {
        WinExplanation::Won(hand) => {
            push_won(text, hand, others_of(&hand.reading, ranked).as_slice());
        }
        WinExplanation::NoYaku(_) => push_readings(text, ranked),
        WinExplanation::NoWin(missed) => push_missed(text, missed),
    }
}

/// The reading that scores, its rows, and the other readings.
#[tactic(auto, unfolding(crate::specs::Parts::won_json))]
fn push_won(text: &mut JsonText, hand: &WonHand, others: &[RankedReading])
    requires few { length others.now ≤ MOST_READINGS }
    requires room { array_string_len text.old + MOST_WHY ≤ JSON_ROOM }
    ensures bytes { text.new.bytes ≡ text.old.bytes ++ spec.won_json hand.now others.now }
    ensures len { array_string_len text.new ≤ array_string_len text.old + MOST_WHY }
{
    push_earned(text, hand);
    push_paid(text, hand, others);
}

#[tactic(auto, unfolding(crate::specs::Parts::earned_json))]
fn push_earned(text: &mut JsonText, hand: &WonHand)
    requires { array_string_len text.old + MOST_EARNED ≤ JSON_ROOM }
    ensures bytes { text.new.bytes ≡ text.old.bytes ++ spec.earned_json hand.now }
    ensures len { array_string_len text.new ≤ array_string_len text.old + MOST_EARNED }
{
    text.push_str("{\"reading\":");
    push_reading(text, &hand.reading);
    push_rows(text, ",\"han\":[", hand.han.as_slice());
    push_rows(text, "],\"dora\":[", hand.dora.as_slice());
}

#[tactic(auto, unfolding(crate::specs::Parts::paid_json))]
fn push_paid(text: &mut JsonText, hand: &WonHand, others: &[RankedReading])
    requires few { length others.now ≤ MOST_READINGS }
    requires room { array_string_len text.old + MOST_PAID ≤ JSON_ROOM }
    ensures bytes { text.new.bytes ≡ text.old.bytes ++ spec.paid_json hand.now others.now }
    ensures len { array_string_len text.new ≤ array_string_len text.old + MOST_PAID }
{
    push_rows(text, "],\"fu\":[", hand.fu.as_slice());
    push_rows(text, "],\"payments\":[", hand.payers.as_slice());
    push_rows(text, "],\"others\":[", others);
    text.push_str("]}");
}

/// The readings of a hand without yaku.
#[tactic(auto, unfolding(crate::specs::Parts::readings_json))]
fn push_readings(text: &mut JsonText, ranked: &[RankedReading])
    requires few { length ranked.now ≤ MOST_READINGS }
    requires room { array_string_len text.old + MOST_UNSCORED ≤ JSON_ROOM }
    ensures bytes { text.new.bytes ≡ text.old.bytes ++ spec.readings_json ranked.now }
    ensures len { array_string_len text.new ≤ array_string_len text.old + MOST_UNSCORED }
{
    push_rows(text, "{\"others\":[", ranked);
    text.push_str("]}");
}
