//! What a hand waits for that is no win, and how far it is from each form.
ghost use Rattle.std.specs.Prelude.{◌≡◌, ◌≤◌, ◌+◌, ◌++◌, length};
ghost use Rattle.arrayvec.specs.ArrayString.{array_string_len};
ghost use Rattle.desk_reasons.specs.Parts as spec;

use crate::values::{Value, push_rows};
use desk_json::{JSON_ROOM, JsonText};
use riichi_explain::{KindWait, MOST_KIND_WAITS, MissedWin};
use riichi_shape::FormDistances;
use riichi_text::{MOST_U8, push_kind, push_number};

/// The bytes of the longest object of a hand that is no win.
pub(crate) const MOST_MISSED: usize = "{\"waits\":[".len()
    + MOST_KIND_WAITS * (",".len() + MOST_WAIT)
    + "],\"shanten\":".len()
    + MOST_FORMS
    + "}".len();

const MOST_FORMS: usize = "{\"standard\":".len()
    + MOST_U8
    + ",\"seven_pairs\":".len()
    + MOST_U8
    + ",\"thirteen_orphans\":".len()
    + MOST_U8
    + "}".len();

const MOST_WAIT: usize = "\"1m\"".len();

#[tactic(auto, using(riichi_text::proofs::Pieces::pushed_four), unfolding(crate::specs::Parts::missed_json))]
pub(crate) fn push_missed(text: &mut JsonText, missed: &MissedWin)
    requires { array_string_len text.old + MOST_MISSED ≤ JSON_ROOM }
    ensures bytes { text.new.bytes ≡ text.old.bytes ++ spec.missed_json missed.now }
    ensures len { array_string_len text.new ≤ array_string_len text.old + MOST_MISSED }
{
    push_rows(text, "{\"waits\":[", missed.waits.as_slice());
    text.push_str("],\"shanten\":");
    push_forms(text, &missed.forms);
    text.push_str("}");
}

/// How far the hand is from each form that it may have.
#[tactic(auto, unfolding(crate::specs::Parts::forms_json))]
fn push_forms(text: &mut JsonText, forms: &FormDistances)
    requires { array_string_len text.old + MOST_FORMS ≤ JSON_ROOM }
    ensures bytes { text.new.bytes ≡ text.old.bytes ++ spec.forms_json forms.now }
    ensures len { array_string_len text.new ≤ array_string_len text.old + MOST_FORMS }
{
    push_shanten(text, "{\"standard\":", forms.sets_and_pair);
    push_shanten_if(text, ",\"seven_pairs\":", forms.seven_pairs);
    push_shanten_if(text, ",\"thirteen_orphans\":", forms.thirteen_orphans);
    text.push_str("}");
}

/// One less than the tiles that are lacking.
#[tactic(auto, unfolding(crate::specs::Parts::shanten_json, riichi_explain::specs::Forms::shanten_text))]
fn push_shanten(text: &mut JsonText, before: &str, lack: u8)
    requires { array_string_len text.old + length before.now + MOST_U8 ≤ JSON_ROOM }
    ensures bytes { text.new.bytes ≡ text.old.bytes ++ spec.shanten_json before.now lack }
    ensures len { array_string_len text.new
        ≤ array_string_len text.old + length before.now + MOST_U8 }
{
    text.push_str(before);
    if lack == 0 {
        text.push_str("-1");
    } else {
        push_number(text, lack - 1);
    }
}

/// A form that stands beside no meld.
#[tactic(auto, unfolding(crate::specs::Parts::shanten_if))]
fn push_shanten_if(text: &mut JsonText, before: &str, lack: Option<u8>)
    requires { array_string_len text.old + length before.now + MOST_U8 ≤ JSON_ROOM }
    ensures bytes { text.new.bytes ≡ text.old.bytes ++ spec.shanten_if before.now lack }
    ensures len { array_string_len text.new
        ≤ array_string_len text.old + length before.now + MOST_U8 }
{
    if let Some(lack) = lack {
        push_shanten(text, before, lack);
    }
}

impl Value for KindWait {
    ghost use Rattle.desk_reasons.specs.declared.missed.TheConstants.{MOST_WAIT};
    ghost use Rattle.desk_reasons.specs.Parts.{wait_json};

    ghost value_text = { wait_json };

    ghost most = { MOST_WAIT };

    #[tactic(auto, unfolding(crate::specs::Parts::wait_json))]
    fn push(&self, text: &mut JsonText) {
        text.push_str("\"");
        push_kind(text, self.kind);
        text.push_str("\"");
    }
}
