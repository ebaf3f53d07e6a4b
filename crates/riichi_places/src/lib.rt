//! Places, bonuses and final points of a game of four.
//!
//! A [`place`] is one more than are ahead. [`points_at_end`] are the points with the riichi sticks that lie at the end, and
//! [`final_points`] what each player has then: the place, its bonus, the penalties and the total.
//!
//! All points are points, not thousands, and may be negative. All of these are plain values: no call takes memory.
#![tactic(auto)]

mod bonus;
mod finals;
pub mod laws;
mod places;

pub use finals::{FinalPoints, final_points, points_at_end};
pub use places::{is_ahead, place};
