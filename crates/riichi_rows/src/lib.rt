//! Suit rows: what one suit lacks of so many sets, with a pair and without one, and of which ranks; and
//! rows that are kept for the next hand.
//!
//! A `SuitRow` holds for up to four sets, with and without a pair, the least number of tiles that
//! a suit lacks of any choice of blocks, or none where no choice keeps within the caps; and beside
//! each such number the ranks that some choice with that lack lacks.
//! `suit_row` makes it in one pass over the nine ranks, `suit_row_over` over those from the fifth on
//! that `upper_ranks` made, and `join_rows` is the least sum of four rows with one pair in all. So the
//! row of no tiles says `row.get(2, true) == Some(8)`: two sets and a pair are eight tiles. Where one
//! row changes, `join_two` and `JoinedRows` keep the other three joined; `JoinedRows::lacked_by` says
//! which ranks of a suit are lacked by choices that take part in the least sum, as a `RankSet`. A
//! `RowSource` is what answers for rows, and `FreshRows` the one that makes each anew.
//!
//! The other sources keep what they make, and make a row anew only where they keep none of that key. Each
//! row that one keeps is by its type the row of its key, so it answers as `FreshRows` does, whatever it was
//! asked before. None fails. Each is a `CutSource` too, so that it answers waits as it answers shapes: it keeps
//! cuts beside rows, but for a `LentMemo` that is lent no places for them.
//!
//! - `RowMemo` has a place for each of so many rows, in pairs, and finds the pair of a row by its counts and
//!   caps. Where one of the two is that very row, it is the answer; else the row is made, and the older of
//!   the two gives way. Beside the rows it keeps their upper ranks (`KeptUpper`), which many suits have in
//!   common: a row that isn't there is made over them in half the time. It is the fastest.
//! - `LentMemo` is the same in arrays that the caller lends: it takes no memory.
//! - `RowCache` keeps the rows that it was asked for last, up to its capacity. A row for which there
//!   is no memory is not kept.
//! - `SuitMemo` is a `RowMemo`, or the same in the value itself where there is no memory for that.
//!
//! ```text
//! let mut memo = RowMemo::new(alloc, 16384)?;          // 16,384 places
//! let row = memo.row(&[0; 9], &[4; 9], true);          // made, and kept
//! let again = memo.row(&[0; 9], &[4; 9], true);        // found
//! ```
#![tactic(auto)]

mod added;
mod cost;
mod costs;
mod join;
mod joined;
mod kept_row;
mod kept_upper;
mod lacked;
mod lanes;
pub mod laws;
mod lent_memo;
mod marked_lanes;
mod memory;
mod open;
mod place;
mod rank_set;
mod ranks;
mod row;
mod row_cache;
mod row_key;
mod row_memo;
mod row_source;
mod suit_lanes;
mod suit_memo;

pub use joined::{JoinedRows, join_rows, join_two};
pub use kept_row::KeptRow;
pub use kept_upper::KeptUpper;
pub use lent_memo::LentMemo;
pub use memory::Memory;
pub use open::Open;
pub use rank_set::RankSet;
pub use ranks::{suit_row, suit_row_over, upper_ranks};
pub use row::SuitRow;
pub use row_cache::RowCache;
pub use row_memo::RowMemo;
pub use row_source::{FreshRows, RowSource};
pub use suit_memo::SuitMemo;
