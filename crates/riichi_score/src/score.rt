//! The score of a reading.
use crate::Payment;
use riichi_yaku::YakuSet;

/// What a reading is worth. Of a yakuman han, fu and dora are 0.
#[derive(Clone, Copy, Debug, PartialEq, Eq)]
pub struct Score {
    /// The han, with the dora; 0 for a yakuman.
    pub han: u8,
    /// The fu, rounded up; 0 for a yakuman.
    pub fu: u8,
    /// The base points.
    pub base: u32,
    /// The yaku of the reading.
    pub yaku: YakuSet,
    /// How many of the han are dora.
    pub dora: u8,
    /// What the others pay, in points.
    pub payment: Payment,
    /// All that the winner gains, in points.
    pub gain: u32,
}
