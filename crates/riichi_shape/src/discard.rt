//! A tile to discard.
use crate::live_list::LiveList;
use riichi_tiles::{Kind, KindSet};

/// A kind to discard, and what the hand without it accepts.
#[derive(Clone, Copy, Debug, PartialEq, Eq)]
pub struct Discard {
    pub kind: Kind,
    pub accepted: LiveList,
}

/// The same in short: the kinds that are accepted, and how many copies of them are live in all.
#[derive(Clone, Copy, Debug)]
pub struct ShortDiscard {
    pub kind: Kind,
    pub accepts: KindSet,
    pub live: u8,
}
