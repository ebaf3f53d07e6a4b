//! The waits of a hand by cuts of its suits, which are kept for the next hand.
//!
//! A [`SuitCut`] says what waits need of one suit: how many pairs its tiles are beside sets, and the ranks of
//! which one more makes them sets, or sets and a pair. [`cut_of`] makes it. A [`CutSource`] is what answers for
//! cuts, and [`waits_with`] asks one: its answer is that of `riichi_split::waits`, whatever the source. It looks
//! at the tiles of the suits modulo three first, and asks for no cut where they let no tile complete sets and a
//! pair.
//!
//! [`FreshCuts`] makes each cut anew. The other sources keep what they make: they have a place for each of so
//! many cuts, and find that of some tiles by the counts. What stands there is by its type the cut of its tiles
//! ([`KeptCut`]), so a source answers as `FreshCuts` does, whatever it was asked before. None fails.
//!
//! - [`CutMemo`] has its places in memory that it asks for.
//! - [`LentCuts`] has places that the caller lends: it takes no memory.
//! - [`WaitMemo`] is a `CutMemo`, or a few places in the value itself where there is no memory for that.
//!
//! ```text
//! let mut memo = WaitMemo::new(alloc);
//! let hand = HandRecord::new(read_counts(b"1112345678999m")?, Melds::new())?;
//! waits_with(&mut memo, &hand);        // 1m to 9m; the cut of the characters is kept
//! ```
#![tactic(auto)]

mod cut_memo;
mod cut_source;
mod kept_cut;
mod lent_cuts;
mod place;
mod ranks;
mod suit_cut;
mod wait_memo;
mod waiting;

pub use cut_memo::CutMemo;
pub use cut_source::{CutSource, FreshCuts};
pub use kept_cut::KeptCut;
pub use lent_cuts::LentCuts;
pub use ranks::Ranks;
pub use suit_cut::{SuitCut, cut_of};
pub use wait_memo::WaitMemo;
pub use waiting::waits_with;
