//! Questions of a player or a trainer, a line each, and what their answers are made of.
//!
//! [`read_study`] reads a line: a [`Study`], nothing, or the line's first fault. A shape is asked with the [`Order`] of its best
//! discards, calls with the tile that another player has thrown, as a [`CallRecord`], chances with the [`Turns`] that are to come, and what a hand is worth with these and what a win is valued by, as
//! a [`WorthRecord`].
//!
//! [`prospects`] are the best discards of fourteen tiles in an order, each with what stands beyond it; the rest of an answer
//! `riichi_shape` and `riichi_deeper` find. It is written in pieces, each behind what a text holds: [`push_shanten`] and
//! [`push_hand`] or [`push_prospect`] of a shape, [`push_calls`], [`push_call`] and [`push_kong`] of calls. The same in words are
//! [`push_hand_reason`] and its neighbours, lines that begin with two spaces. [`push_chances_front`] and [`push_after`] are the pieces
//! of chances, and [`push_worth`] and [`push_worth_after`] those of a worth. docs/NOTATION.md has the lines and the answers.
//!
//! No call takes memory.
#![tactic(auto)]

mod call_record;
mod chance_text;
mod key;
mod name;
mod order;
mod prospect;
mod reading;
mod reasons;
mod safe_reasons;
mod safe_text;
mod study;
mod text;
mod turns;
mod values;
mod words;
mod worth_record;
mod worth_text;

pub use call_record::CallRecord;
pub use chance_text::{
    MOST_AFTER, MOST_AFTER_REASON, MOST_CHANCES_FRONT, push_after, push_after_reason,
    push_chances_front, push_hand_odds_reason,
};
pub use key::StudyKey;
pub use name::StudyName;
pub use order::Order;
pub use prospect::{MOST_PROSPECTS, Prospect, Prospects, prospects};
pub use reading::read_study;
pub use reasons::{
    MOST_CALL_REASON, MOST_KONG_REASON, MOST_NONE_REASON, MOST_REASON, push_call_reason,
    push_hand_reason, push_kong_reason, push_none_reason, push_prospect_reason,
};
pub use safe_reasons::{
    MOST_FURITEN_REASON, MOST_PASSED_REASON, MOST_RISK_REASON, push_furiten_reason,
    push_passed_reason, push_risk_reason,
};
pub use safe_text::{MOST_SAFE, has_two_sided, is_risk, push_neighbours, push_safe, state_word};
pub use study::Study;
pub use text::{
    MOST_CALL, MOST_CALLS, MOST_HAND, MOST_PROSPECT, MOST_SHANTEN, push_call, push_calls,
    push_hand, push_kong, push_prospect, push_shanten,
};
pub use turns::Turns;
pub use worth_record::WorthRecord;
pub use worth_text::{
    MOST_WORTH, MOST_WORTH_AFTER, MOST_WORTH_REASON, push_hand_worth_reason, push_worth,
    push_worth_after, push_worth_reason,
};
