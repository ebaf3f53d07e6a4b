//! Why a win is answered as it is, as JSON.
//!
//! [`push_explained_win`] writes the object that answers a win, with one member more at its end, `why`: of a hand that scores the
//! reading, the rows of its han, dora, fu and payments, and what each other reading is worth; of a hand without yaku its readings;
//! of a hand that is no win what it waits for and how far it is from each form. `specs/Trees.antt` has the values of these
//! members; docs/NOTATION.md says each, and docs/answer.schema.json has them as a JSON Schema. No call takes memory.
//!
//! ```text
//! {"answer":"won",..,"why":{"reading":{"form":"standard","sets":["444p","567s","789m"],"pair":"22s","completed":"999m"},
//! "han":[{"part":"riichi","japanese":"riichi","han":1}],"dora":[],"fu":[{"part":"base","fu":20},..],"payments":[..],"others":[]}}
//! ```
#![tactic(auto)]

mod counts;
mod missed;
mod others;
mod part;
mod reading;
mod rows;
mod values;
mod why;

pub use why::{MOST_EXPLAINED_WIN, push_explained_win};
