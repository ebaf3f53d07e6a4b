//! What a hand accepts.
use crate::discard_list::DiscardList;
use crate::live_list::LiveList;

/// Thirteen tiles accept kinds, and of fourteen one is discarded first.
#[derive(Clone, Copy, Debug, PartialEq, Eq)]
pub enum Accepts {
    Thirteen(LiveList),
    Fourteen(DiscardList),
}
