//! The answers of the desk as JSON: one object on one line, for programs.
//!
//! [`push_answer`] writes an [`desk_core::Answer`] behind a text, [`push_refusal`] why a line is
//! refused, and [`answer_text`] and [`refusal_text`] are these texts alone. Each text is that of a
//! value of JSON, the tree of the answer, which `specs/Trees.antt` has; docs/NOTATION.md says each
//! member, and docs/answer.schema.json has them as a JSON Schema. There are no spaces between the
//! members and no line's end. No call takes memory.
//!
//! ```text
//! {"answer":"won","yakuman":false,"han":1,"fu":30,"dora":0,"base":240,"limit":null,..}
//! {"answer":"waits","kinds":["2p","5p"]}
//! {"answer":"shape","shanten":1,"accepts":[{"kind":"2p","live":4}],"live":4}
//! {"answer":"refused","code":"H4","key":"seat","at":45,"length":6,"words":"a seat is E, S, W or N"}
//! ```
#![tactic(auto)]

pub mod laws;
mod number;
mod refusal;
mod shape;
mod text;
mod waits;
mod win;
mod yaku;

pub use refusal::{MOST_CODE, MOST_REFUSAL, push_code, push_refusal, refusal_text};
pub use shape::{MOST_ACCEPTED, push_accepted};
pub use text::{JSON_ROOM, JsonText, MOST_ANSWER, answer_text, push_answer};
pub use win::{MOST_OPEN_WIN, push_open_win};
