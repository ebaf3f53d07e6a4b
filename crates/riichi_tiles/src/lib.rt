//! Tiles of riichi mahjong, and the text in which they are written.
//!
//! A [`Kind`] is one of the 34 kinds of tile, and belongs to a [`Suit`]; [`BySuit`] has something for each suit.
//! [`Counts`] says how many of each are held, at most four; a [`KindSet`] is a set of kinds, as the waits of a hand or
//! the kinds of which it has tiles. A [`Meld`] is a set that was called or declared, [`Melds`] the
//! melds of one hand, at most four; a [`Block`] is a run, a triplet or a pair within the concealed tiles. Each says how
//! many tiles of a kind it has, so that hands are added up kind by kind. [`Reds`] counts the red fives of a suit, and
//! [`dora_of`] is the kind that an indicator makes dora.
//!
//! [`read_counts`] reads the notation of tiles, as `123m44z`, and answers the first of its faults; [`write_counts`] and
//! [`write_kinds`] write it. [`Meld::read`] reads a meld, as `chi:340m`, and [`reds_of`] the red fives of a text, where they
//! stand as `0`; [`split_at_mark`] cuts a text where a meld's name ends. The notation itself stands in docs/NOTATION.md.
//!
//! All of these are plain values: each can be copied and compared, and `==` says whether two are one ([`Decided`]). No call
//! takes memory, and the readers take any bytes.
//!
//! ```
//! let hand = read_counts(b"5m123p044s")?;
//! hand.total();                  // 7
//! write_counts(&hand).as_str();  // "5m123p445s"
//! reds_of(b"5m123p044s").get(2); // 1, of the bamboos
//! Meld::read(b"pon:777z");       // Some(Meld::Pon(..)), of the Red dragon
//! read_counts(b"12x3m");         // Err(NotationFault { code: NotationCode::N2, place: 2 })
//! ```
#![tactic(auto)]

mod block;
mod by_suit;
mod counts;
mod cuts;
mod decided;
mod dora;
mod held_kinds;
mod kind;
mod kind_set;
mod meld;
mod melded;
mod melds;
mod notation;
mod reds;
mod suit;

pub use block::Block;
pub use by_suit::BySuit;
pub use counts::Counts;
pub use cuts::split_at_mark;
pub use decided::{Decided, is_same};
pub use dora::dora_of;
pub use kind::Kind;
pub use kind_set::KindSet;
pub use meld::Meld;
pub use melded::{add_melds, meld_tiles};
pub use melds::Melds;
pub use notation::{
    NotationCode, NotationFault, is_digit, read_counts, read_into, write_counts, write_kinds,
};
pub use reds::{Reds, reds_of};
pub use suit::Suit;
