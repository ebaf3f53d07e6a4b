//! The yaku of a reading: `yaku_of` joins the conditions of the table, one function each, into a `YakuSet`.
//!
//! A condition looks at the blocks of the whole hand, at every tile, at how the hand was won, or at the
//! reading itself, in the words of riichi_blocks. They stand in `luck`, `honours`, `runs`, `outside`,
//! `triplets`, `tiles` and `yakuman`, by what they look at. `table` has the names, the words and the han.
//!
//! `yaku_of(&reading, &win).contains(Yaku::Pinfu)` says whether the reading is a pinfu.
#![tactic(auto)]

mod conditions;
mod decided;
mod honours;
mod luck;
mod outside;
mod runs;
mod table;
mod tiles;
mod triplets;
mod yaku_set;
mod yakuman;

pub use conditions::{yaku_among, yaku_of};
pub use runs::is_pinfu;
pub use table::Yaku;
pub use yaku_set::{YakuIter, YakuSet, push_words};
