//! Many hands as arrays, without any text.
//!
//! A hand is a row of 34 counts, one for each kind. Its melds are a row of four bytes, one for each meld, 0 where there is none:
//! the sort of the meld (0 a chow, 1 a pung, 2 an open kong, 3 a concealed kong) times 64, and one more than its kind, which of
//! a chow is the lowest. The tiles that are seen elsewhere are another row of 34 counts. Rows of melds or seen tiles that
//! aren't there stand for none. [`Hands`] are many of them; [`counts_in`] and [`melds_in`] read one row.
//!
//! Each call answers as many hands as each of the others of its arrays has places for, and says how many. A row that is no hand
//! is told by a value that no hand has ([`NO_HAND`], [`NO_WAITS`]), and the others are answered all the same. No call takes
//! memory. So of the counts of 123456789m1134p `shantens` makes 0, and `waits` and `shapes` the bits of 2p and 5p.
#![tactic(auto)]

mod call_columns;
mod discard_columns;
mod hands;
mod kept_rows;
mod outlook_columns;
mod shanten_column;
mod shape_columns;
mod waits_column;

pub use call_columns::calls;
pub use discard_columns::discards;
pub use hands::{Hands, counts_in, melds_in};
pub use outlook_columns::outlooks;
pub use shanten_column::{NO_HAND, shantens};
pub use shape_columns::shapes;
pub use waits_column::{NO_WAITS, waits};
