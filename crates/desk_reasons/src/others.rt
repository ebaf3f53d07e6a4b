//! The readings beside the one that scores, and what each is worth.
ghost use Rattle.std.specs.Prelude.{◌≡◌, ◌≤◌, ◌+◌, ◌++◌, length};
ghost use Rattle.arrayvec.specs.ArrayString.{array_string_len};
ghost use Rattle.desk_reasons.specs.Parts as spec;
ghost use Rattle.desk_reasons.specs.Trees.{others_of};

use crate::counts::{push_count, push_small};
use crate::reading::{MOST_READING, push_reading};
use crate::values::Value;
use arrayvec::ArrayVec;
use desk_json::{JSON_ROOM, JsonText};
use riichi_explain::{MOST_READINGS, RankedReading, Ranking};
use riichi_score::Score;
use riichi_split::Reading;
use riichi_text::{MOST_U8, MOST_U32};

/// The bytes of the longest object of a reading beside the one that scores.
pub(crate) const MOST_OTHER: usize = "{\"reading\":".len() + MOST_READING + MOST_WORTH + "}".len();

const MOST_WORTH: usize = ",\"han\":".len()
    + MOST_U8
    + ",\"fu\":".len()
    + MOST_U8
    + ",\"gain\":".len()
    + MOST_U32;

/// The readings but the one that is shown.
pub(crate) fn others_of(shown: &Reading, ranked: &[RankedReading]) -> Ranking
    requires { length ranked.now ≤ MOST_READINGS }
    ensures { result.items ≡ others_of shown.now ranked.now }
{
    let mut others = ArrayVec::new();
    for one in ranked {
        if one.reading != *shown {
            others.push(*one);
        }
    }
    others
}

impl Value for RankedReading {
    ghost use Rattle.desk_reasons.specs.declared.others.TheConstants.{MOST_OTHER};
    ghost use Rattle.desk_reasons.specs.Parts.{other_reading_json};

    ghost value_text = { other_reading_json };

    ghost most = { MOST_OTHER };

    #[tactic(auto, unfolding(crate::specs::Parts::other_reading_json))]
    fn push(&self, text: &mut JsonText) {
        text.push_str("{\"reading\":");
        push_reading(text, &self.reading);
        push_worth_if(text, &self.score);
        text.push_str("}");
    }
}

/// What a reading is worth that has a yaku.
#[tactic(auto, unfolding(crate::specs::Parts::worth_if_json))]
fn push_worth_if(text: &mut JsonText, score: &Option<Score>)
    requires { array_string_len text.old + MOST_WORTH ≤ JSON_ROOM }
    ensures bytes { text.new.bytes ≡ text.old.bytes ++ spec.worth_if_json score.now }
    ensures len { array_string_len text.new ≤ array_string_len text.old + MOST_WORTH }
{
    if let Some(score) = score {
        push_small(text, ",\"han\":", score.han);
        push_small(text, ",\"fu\":", score.fu);
        push_count(text, ",\"gain\":", score.gain);
    }
}
