//! How a hand is read.
ghost use Rattle.std.specs.Prelude.{◌≡◌, ◌≤◌, ◌+◌, ◌++◌};
ghost use Rattle.arrayvec.specs.ArrayString.{array_string_len};
ghost use Rattle.desk_reasons.specs.Parts as spec;

use crate::values::{Value, push_rows};
use desk_json::{JSON_ROOM, JsonText};
use riichi_split::{Reading, Sets};
use riichi_text::{MOST_BLOCK, push_block, push_two};
use riichi_tiles::{Block, Kind};

/// The bytes of the longest object of a reading.
pub(crate) const MOST_READING: usize = "{\"form\":\"standard\",\"sets\":[".len()
    + 4 * (",".len() + MOST_QUOTED_BLOCK)
    + MOST_PAIR
    + MOST_QUOTED_BLOCK
    + "}".len();

const MOST_PAIR: usize = "],\"pair\":\"11m\",\"completed\":".len();

const MOST_QUOTED_BLOCK: usize = "\"".len() + MOST_BLOCK + "\"".len();

#[tactic(auto, unfolding(crate::specs::Parts::reading_json))]
pub(crate) fn push_reading(text: &mut JsonText, reading: &Reading)
    requires { array_string_len text.old + MOST_READING ≤ JSON_ROOM }
    ensures bytes { text.new.bytes ≡ text.old.bytes ++ spec.reading_json reading.now }
    ensures len { array_string_len text.new ≤ array_string_len text.old + MOST_READING }
{
    match reading {
        Reading::Standard { sets, pair, done } => push_standard(text, sets, *pair, done),
        Reading::SevenPairs => text.push_str("{\"form\":\"seven pairs\"}"),
        Reading::Orphans => text.push_str("{\"form\":\"thirteen orphans\"}"),
    }
}

/// The sets in hand, the pair, and the block that the winning tile completes.
#[tactic(auto, unfolding(crate::specs::Parts::standard_json))]
fn push_standard(text: &mut JsonText, sets: &Sets, pair: Kind, done: &Block)
    requires { array_string_len text.old + MOST_READING ≤ JSON_ROOM }
    ensures bytes { text.new.bytes
        ≡ text.old.bytes ++ spec.standard_json sets.now pair done.now }
    ensures len { array_string_len text.new ≤ array_string_len text.old + MOST_READING }
{
    push_rows(text, "{\"form\":\"standard\",\"sets\":[", sets.as_slice());
    push_pair(text, pair);
    done.push(text);
    text.push_str("}");
}

#[tactic(auto, unfolding(crate::specs::Parts::pair_json))]
fn push_pair(text: &mut JsonText, pair: Kind)
    requires { array_string_len text.old + MOST_PAIR ≤ JSON_ROOM }
    ensures bytes { text.new.bytes ≡ text.old.bytes ++ spec.pair_json pair }
    ensures len { array_string_len text.new ≤ array_string_len text.old + MOST_PAIR }
{
    text.push_str("],\"pair\":\"");
    push_two(text, pair);
    text.push_str("\",\"completed\":");
}

impl Value for Block {
    ghost use Rattle.desk_reasons.specs.declared.reading.TheConstants.{MOST_QUOTED_BLOCK};
    ghost use Rattle.desk_reasons.specs.Parts.{quoted_block};

    ghost value_text = { quoted_block };

    ghost most = { MOST_QUOTED_BLOCK };

    #[tactic(auto, unfolding(crate::specs::Parts::quoted_block))]
    fn push(&self, text: &mut JsonText) {
        text.push_str("\"");
        push_block(text, self);
        text.push_str("\"");
    }
}
