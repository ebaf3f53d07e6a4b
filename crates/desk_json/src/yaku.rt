//! The yaku of a win.
ghost use Rattle.std.specs.Prelude.{◌≡◌, ◌≤◌, ◌+◌, ◌++◌, length};
ghost use Rattle.arrayvec.specs.ArrayString.{array_string_len};
ghost use Rattle.desk_json.specs.Parts as spec;

use crate::number::{push_after, push_comma_if};
use crate::text::{JSON_ROOM, JsonText};
use riichi_names::{MOST_JAPANESE, japanese};
use riichi_text::MOST_U32;
use riichi_yaku::{Yaku, YakuSet};

/// The bytes of every yaku.
pub(crate) const MOST_YAKU: usize = Yaku::COUNT * MOST_ONE;

const MOST_ONE: usize = ",{\"number\":".len() + MOST_U32 + MOST_NAMES;

const MOST_NAMES: usize = ",\"word\":\"".len()
    + Yaku::MOST_WORD
    + "\",\"japanese\":\"".len()
    + MOST_JAPANESE
    + "\"}".len();

/// The yaku of a set in the order of their numbers, each as an object.
#[tactic(auto, using(crate::proofs::Lists::begun_one_more, crate::proofs::Chosen::listed_more))]
pub(crate) fn push_yaku(text: &mut JsonText, set: YakuSet)
    requires { array_string_len text.old + MOST_YAKU ≤ JSON_ROOM }
    ensures bytes { text.new.bytes ≡ text.old.bytes ++ spec.yaku_list_json set }
    ensures len { array_string_len text.new ≤ array_string_len text.old + MOST_YAKU }
{
    let mut later = false;
    for yaku in set.iter() {
        push_one(text, later, yaku);
        later = true;
    }
}

/// One yaku, behind a comma where it is not the first.
#[tactic(auto, unfolding(crate::specs::Parts::yaku_json))]
fn push_one(text: &mut JsonText, later: bool, yaku: Yaku)
    requires { array_string_len text.old + MOST_ONE ≤ JSON_ROOM }
    ensures bytes { text.new.bytes ≡ text.old.bytes ++ spec.comma_if later ++ spec.yaku_json yaku }
    ensures len { array_string_len text.new ≤ array_string_len text.old + MOST_ONE }
{
    push_comma_if(text, later);
    push_after(text, "{\"number\":", u32::from(yaku.number()));
    push_names(text, yaku);
}

/// The printed word and the Japanese name, with the brace that ends the object.
#[tactic(auto, unfolding(crate::specs::Parts::names_json))]
fn push_names(text: &mut JsonText, yaku: Yaku)
    requires { array_string_len text.old + MOST_NAMES ≤ JSON_ROOM }
    ensures bytes { text.new.bytes ≡ text.old.bytes ++ spec.names_json yaku }
    ensures len { array_string_len text.new ≤ array_string_len text.old + MOST_NAMES }
{
    text.push_str(",\"word\":\"");
    text.push_str(yaku.word());
    text.push_str("\",\"japanese\":\"");
    text.push_str(japanese(yaku));
    text.push_str("\"}");
}
