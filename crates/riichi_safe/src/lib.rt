//! Furiten and safe tiles, as facts of the rules and no odds.
//!
//! A [`SafeRecord`] is a hand, what its player has thrown, what a threatening player has thrown, and what all others have thrown
//! since that player's riichi. [`cannot_win`] are the kinds of the hand on which that player can't win by ron: those that it has
//! thrown, which is furiten, and those that were passed since the riichi, which is furiten for good. [`two_sided`] are the two-sided
//! waits on a kind, each [`WaitState::Open`] or gone, as [`WaitState::Suji`] or as [`WaitState::Wall`]. [`furiten`] are the kinds
//! for which a ready hand waits and which its own player has thrown.
//!
//! [`laws`] says what follows for every hidden hand. Nothing here speaks of waits that aren't two-sided: of a pair, of a closed or
//! an edge run, of a single tile, all of which stay possible on each kind that can be won on. No call takes memory.
//!
//! So after 1p was thrown, 4p can't be won on by a hand that waits for it with 23p, but one with 56p or 35p may still win on it.
#![tactic(auto)]

pub mod laws;
mod own_waits;
mod passed;
mod safe_record;
mod sides;

pub use own_waits::furiten;
pub use passed::cannot_win;
pub use safe_record::SafeRecord;
pub use sides::{TwoSided, WaitState, two_sided};
