//! Beyond the next step of a hand: what a drawn tile leads to, and which calls bring a hand nearer.
//!
//! [`deeper`] answers a hand of thirteen tiles that isn't ready. *Second* is the sum over the accepted kinds of their live
//! copies times the most live copies that a best discard then leaves: of all ordered pairs of unseen tiles those of which each
//! brings the hand nearer. *Good* counts the live copies of the accepted kinds after which a best discard leaves at least five.
//! [`deeper_without`] is the same after a discard of fourteen tiles.
//!
//! [`calls`] answers a hand of thirteen tiles and a tile that another player has thrown: each call for a run or a triplet after
//! which some discard leaves the hand nearer than it was, with these discards. No discard that the rule against swap calling
//! forbids is among them ([`laws::swap_calls`]), so that the answer is the same at every table. A kong brings no hand nearer
//! ([`laws::kongs`]); [`kong`] says how far the hand is after one, and what it then accepts.
//!
//! Each asks `riichi_shape::shape_with` for the shapes that it needs, by the rows of a source. No call takes memory.
//!
//! So of `234m45678p34s558s`, with 20 live copies of accepted kinds, all 20 are good and second is 165.
#![tactic(auto)]

mod after;
mod drawn;
mod gains;
pub mod laws;
mod nearer;
mod outlook;
mod thrown;

pub use drawn::{is_left, with_tile, without_tile};
pub use gains::{Call, calls, kong};
pub use outlook::{LEAST_GOOD, Outlook, deeper, deeper_without};
pub use thrown::{Claim, Thrower, Thrown};
