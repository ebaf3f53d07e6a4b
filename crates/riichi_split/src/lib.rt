//! How the tiles of a hand are read: which sets and which pair they make, and which kinds complete
//! them.
//!
//! [`Readings`] is an iterator over the readings of concealed tiles beside some melds, won by one of
//! these tiles: each once, and no other. A [`Reading`] is standard, with its concealed [`Sets`] in
//! order, the pair, and the block that the winning tile completes; or it is seven pairs, or the
//! thirteen orphans. Two readings that differ in the completed block alone are two, since their
//! waits, and so their points, may differ.
//!
//! [`is_win`] says whether tiles have a reading, which does not depend on the tile that wins.
//! [`waits`] are the kinds that would complete a hand, and [`push_waits`] writes them. [`SuitTiles`],
//! [`mark_special_waits`] and [`with_tiles_left`] are the parts of it, for what keeps suits that were cut.
//!
//! No call takes memory. [`laws`] has a law of the definitions: a collection of sets stands in order
//! in one list alone, so that equal readings are equal values.
//!
//! ```
//! let tiles = read_counts(b"999978m444p567s22s")?;
//! // The fourth 9m completes the triplet 999m, or the run 789m.
//! Readings::new(&tiles, &Melds::new(), Kind::at(8)).count();  // 2
//! let hand = HandRecord::new(read_counts(b"1112345678999m")?, Melds::new())?;
//! push_waits(&mut text, waits(&hand));                         // "waits 123456789m"
//! ```
#![tactic(auto)]

mod cutting;
mod decided;
mod done;
pub mod laws;
mod reading;
mod readings;
mod sets;
mod special;
mod special_waits;
mod split;
mod splits;
mod standard;
mod suit;
mod suit_tiles;
mod waiting;
mod winning;

pub use reading::Reading;
pub use readings::Readings;
pub use riichi_tiles::Block;
pub use sets::Sets;
pub use special_waits::mark_special_waits;
pub use suit_tiles::SuitTiles;
pub use waiting::{MOST_WAITS, push_waits, waits, with_tiles_left};
pub use winning::is_win;
