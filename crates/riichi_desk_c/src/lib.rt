//! The desk for programs in other languages: a static library, whose calls `include/riichi_desk.h` declares for C.
//!
//! No call keeps anything or takes memory, so any thread may make any of them at any time. What a call is lent has to be
//! what C says of it: `line_len` bytes to be read at `line`, `room_len` bytes to be written at `room`, neither pointer null,
//! and no byte in both.
#![tactic(auto)]

ghost use Rattle.std.specs.Prelude.{◌≡◌, ◌≤◌, ◌<◌, ◌++◌, length, drop, codes};
ghost use Rattle.riichi_desk_c.specs.Replies.{reply_to};

mod arrays;
mod game_hands;
mod game_lines;
mod game_rows;
mod games;
mod hall;
mod json;
mod json_reasons;
mod lines;
mod placing;
mod reasons;
mod rows;
mod rules;
mod study;
mod wins;

pub use arrays::{riichi_discards, riichi_shantens, riichi_shapes, riichi_waits_of};
use desk_core::{answer_text, judge};
pub use game_hands::{riichi_game_base, riichi_game_needs, riichi_game_worth};
pub use game_lines::riichi_game_lines;
pub use games::{
    riichi_game_after, riichi_game_finals, riichi_game_first, riichi_game_moves, riichi_game_table,
    riichi_game_table_fault,
};
pub use hall::{riichi_hall_hand_in, riichi_hall_withdraw};
pub use json::riichi_json;
pub use json_reasons::riichi_explain_json;
pub use lines::{
    riichi_answer_lines, riichi_explain_json_lines, riichi_explain_lines, riichi_json_lines,
};
use placing::place;
pub use reasons::riichi_explain;
use riichi_hand::{fault_text, read_line};
pub use rows::riichi_answer_rows;
pub use rules::riichi_rules;
use rules::rules_numbered;
pub use study::riichi_study;
pub use wins::riichi_wins;

/// Answers one line, without its line feed and a carriage return before that, under the rules of this number: the bytes that the answer takes, 0
/// where the line is no record. They are put at the start of the room if all of them fit there. Under a number that is none of any rules the
/// answer is `refused rules`.
#[tactic(auto, unfolding(crate::specs::Replies::reply_to, desk_lines::specs::LineAnswer::answer_of))]
#[unsafe(no_mangle)]
pub extern "C" fn riichi_answer(rules: u32, line: &[u8], room: &mut [u8]) -> usize
    ensures needed { result ≡ length (reply_to rules line.now) }
    ensures fits { length (reply_to rules line.now) ≤ length room.old
        → room.new ≡ reply_to rules line.now ++ drop (length (reply_to rules line.now)) room.old }
    ensures untouched { length room.old < length (reply_to rules line.now) → room.new ≡ room.old }
{
    let Some(rules) = rules_numbered(rules) else {
        return place(b"refused rules", room);
    };
    match read_line(rules, line) {
        Ok(None) => place(b"", room),
        Ok(Some(job)) => place(answer_text(&judge(&job)).as_str().as_bytes(), room),
        Err(fault) => place(fault_text(&fault).as_str().as_bytes(), room),
    }
}

/// The name and version, such as `riichi_desk 0.1.0`: the bytes that it takes. They are put at the start of the room if all
/// of them fit there.
#[unsafe(no_mangle)]
pub extern "C" fn riichi_version(room: &mut [u8]) -> usize
    ensures needed { result ≡ length (codes "riichi_desk 0.1.0") }
    ensures fits { length (codes "riichi_desk 0.1.0") ≤ length room.old
        → room.new ≡ codes "riichi_desk 0.1.0" ++ drop (length (codes "riichi_desk 0.1.0")) room.old }
    ensures untouched { length room.old < length (codes "riichi_desk 0.1.0") → room.new ≡ room.old }
{
    place(b"riichi_desk 0.1.0", room)
}
