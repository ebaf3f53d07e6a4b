//! What a study line asks.
use crate::call_record::CallRecord;
use crate::order::Order;
use crate::turns::Turns;
use crate::worth_record::WorthRecord;
use riichi_hand::ShapeRecord;
use riichi_safe::SafeRecord;

/// A question of a player or a trainer.
#[derive(Clone, Copy, Debug, PartialEq, Eq)]
pub enum Study {
    /// How far is this hand from a win, which tiles bring it nearer, and what stands beyond? The discards come in this order.
    Shape(ShapeRecord, Order),
    /// Which calls of this tile bring this hand nearer?
    Calls(CallRecord),
    /// On which of these tiles can't a threatening player win, which two-sided waits on the others are gone, and is the hand furiten?
    Safe(SafeRecord),
    /// How likely is this hand to be ready, and to win, by so many draws?
    Chances(ShapeRecord, Turns),
    /// What is this hand worth by so many draws?
    Worth(WorthRecord, Turns),
}
