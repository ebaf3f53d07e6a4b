//! The rows of suits that are kept while a call answers its hands.

/// So many rows are kept, of 67 bytes each, in the frame of the call. They cost as much as some hands, so few hands do without.
pub(crate) const ROWS: usize = 4096;

/// So many of the upper ranks of which rows are made, of 307 bytes each.
pub(crate) const UPPERS: usize = 512;
