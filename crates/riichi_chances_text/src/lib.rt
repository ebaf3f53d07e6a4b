//! Chances as text.
//!
//! [`push_fraction`] writes a part of a whole in lowest terms, and to four digits, as `55/5002 0.0110`. [`push_odds`] writes the
//! chances of one number of turns behind a text, to be ready and to win, each with its upper end; [`push_odds_members`] writes them as
//! members of an object of JSON, and [`push_odds_words`] in words. [`push_by_turn`] writes a member with
//! those of each number of turns. [`push_points`] writes so many whole points and a part of one more, as
//! `520+40/123 520.3252`, [`push_points_decimal`] their decimal alone, and [`push_points_members`] members of them.
//!
//! No call takes memory.
#![tactic(auto)]

mod fraction;
mod members;
mod odds;
mod points;
mod turns;
mod words;

pub use fraction::{MOST_DECIMAL, MOST_FRACTION, push_decimal, push_fraction};
pub use members::{MOST_ODDS_MEMBERS, push_odds_members};
pub use odds::{MOST_ODDS, push_odds};
pub use points::{
    MOST_POINTS, MOST_POINTS_DECIMAL, MOST_POINTS_MEMBERS, push_points, push_points_decimal,
    push_points_members,
};
pub use turns::{MOST_BY_TURN, push_by_turn};
pub use words::{MOST_ODDS_WORDS, push_odds_words};
