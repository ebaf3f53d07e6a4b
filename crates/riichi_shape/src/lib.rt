//! How far a hand is from winning, and which tiles bring it nearer.
//!
//! `shape` answers a `riichi_hand::ShapeRecord` by a `ShapeAnswer`: its shanten, and what it
//! `Accepts`. Thirteen tiles accept the kinds of a `LiveList`, which lower the shanten, each with
//! its live copies. Of fourteen tiles a `DiscardList` has each `Discard` that leaves the least
//! shanten, with the list that the rest then accepts. `shanten` and `accepted` are the parts alone.
//! `shape_text` is an answer on one line, and `push_shape` writes it behind a text that is kept.
//! A hand is measured by its four suit rows, which
//! `riichi_rows` makes, and beside each the other three are joined. The marks of a row say which
//! ranks its least choices lack, so the rows of the hand alone show the kinds that bring it nearer:
//! no row of the hand with one more tile is ever made. A tile that is discarded changes one row.
//! `shape_with` is `shape` by the rows of a `RowSource`, which many hands share: a `RowMemo`, a
//! `LentMemo`, which takes no memory, or a `RowCache`.
//!
//! So `123456789m1134p` is ready: `shanten` is 0, and `accepted` has four live 2p and four 5p.
#![tactic(auto)]

mod acceptance;
mod accepts;
mod answering;
mod decided;
mod discard;
mod discard_list;
mod discard_order;
mod distance;
mod forms;
mod halves;
mod hand_caps;
mod hand_forms;
mod hand_joins;
mod hand_rows;
mod kept_discard;
mod lacked_held;
mod lacked_kinds;
pub mod laws;
mod live_copies;
mod live_list;
mod nearest_form;
mod orphans;
mod pairs;
mod removal;
mod shape_answer;
mod special;
mod suit_caps;
mod suit_of_hand;
mod suits_lacked;
mod text;

pub use acceptance::accepted;
pub use accepts::Accepts;
pub use answering::{shape, shape_with};
pub use discard::{Discard, ShortDiscard};
pub use discard_list::DiscardList;
pub use distance::{shanten, shanten_with};
pub use forms::{FormDistances, form_distances};
pub use live_list::LiveList;
pub use riichi_rows::{
    FreshRows, KeptRow, KeptUpper, LentMemo, Memory, RowCache, RowMemo, RowSource, SuitMemo,
    SuitRow, join_rows, suit_row,
};
pub use shape_answer::ShapeAnswer;
pub use text::{
    MOST_ACCEPTED, MOST_DISCARD, MOST_SHAPE, push_accepted, push_discard, push_shape, shape_text,
};
