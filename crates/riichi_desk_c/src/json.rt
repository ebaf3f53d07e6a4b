//! The answer to a line as JSON.
ghost use Rattle.std.specs.Prelude.{◌≡◌, ◌≤◌, ◌<◌, ◌++◌, length, drop};
ghost use Rattle.riichi_desk_c.specs.JsonReplies.{json_reply_to};

use crate::placing::place;
use crate::rules_numbered;
use desk_core::judge;
use desk_json::{JsonText, push_answer, push_refusal};
use riichi_hand::{Rules, read_placed};

/// Answers one line as `riichi_answer` does, but as one object of JSON, which docs/NOTATION.md and
/// docs/answer.schema.json have: the bytes that it takes, 0 where the line is no record. They are
/// put at the start of the room if all of them fit there. Under a number that is no profile's the
/// answer is `{"answer":"refused","code":"rules"}`.
#[tactic(auto, unfolding(crate::specs::JsonReplies::json_reply_to, desk_lines::specs::JsonLine::json_of))]
#[unsafe(no_mangle)]
pub extern "C" fn riichi_json(rules: u32, line: &[u8], room: &mut [u8]) -> usize
    ensures needed { result ≡ length (json_reply_to rules line.now) }
    ensures fits { length (json_reply_to rules line.now) ≤ length room.old
        → room.new ≡ json_reply_to rules line.now
        ++ drop (length (json_reply_to rules line.now)) room.old }
    ensures untouched { length room.old < length (json_reply_to rules line.now)
        → room.new ≡ room.old }
{
    let Some(rules) = rules_numbered(rules) else {
        return place(b"{\"answer\":\"refused\",\"code\":\"rules\"}", room);
    };
    let mut text = JsonText::new();
    match read_placed(rules, line) {
        Ok(None) => {}
        Ok(Some(job)) => push_answer(&mut text, rules, &judge(&job)),
        Err(refusal) => push_refusal(&mut text, line, &refusal),
    }
    place(text.as_str().as_bytes(), room)
}
