//! The hand of a win as its yaku and its fu look at it.
//!
//! A reading of a win gives the blocks of the whole hand, melds included: `blocks_of` makes the [`Blocks`], a list of
//! [`HandBlock`], each a run, a triplet, a kong or the pair. `all_tiles` gives [`AllTiles`], the count of each kind, whatever the reading. Beside these
//! stand the words that conditions are made of: of a kind (`is_terminal`), of a reading (`is_standard`), of the pair (`pair_fu`), and of the wait (`wait_fu`).
//!
//! All of these are plain values. No call takes memory.
//!
//! ```
//! let blocks = blocks_of(&reading, &win);
//! blocks.has_triplet(WHITE);    // whether a triplet or a kong is of the White dragon
//! all_tiles(&win).are_simples(); // whether every tile is a 2 to 8
//! ```
#![tactic(auto)]

mod block_kinds;
mod blocks;
mod decided;
mod hand_block;
mod held;
mod joining;
mod kinds;
mod pairs;
mod reading_shapes;
mod tiles;
mod waits;

pub use blocks::Blocks;
pub use hand_block::HandBlock;
pub use held::all_tiles;
pub use joining::{blocks_of, push_blocks};
pub use kinds::{EAST, GREEN, KINDS, RED, WHITE, is_dragon, is_wind};
pub use pairs::{has_plain_pair, has_prevalent_fu, pair_fu, pairs_fu};
pub use reading_shapes::{is_seven_pairs, is_standard, is_thirteen_orphans};
pub use tiles::AllTiles;
pub use waits::{has_two_sided_wait, is_closed_wait, is_edge_wait, wait_fu};
