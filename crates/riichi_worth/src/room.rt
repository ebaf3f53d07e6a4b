//! Rows that are kept in memory.
ghost use Rattle.std.specs.Prelude.{◌≡◌, OnErr, OnOk, length};

use crate::row::WorthRow;
use std::alloc::{AllocError, Global};

/// Rows for points, to be lent for one question after another.
#[derive(Drop)]
pub struct WorthRoom {
    alloc: Global,
    pub rows: Vec<WorthRow>,
}

impl WorthRoom {
    /// None yet.
    pub fn new(alloc: Global) -> WorthRoom {
        WorthRoom {
            alloc,
            rows: Vec::new(alloc),
        }
    }

    /// Makes so many. Where there is no memory for them, those that are there stay.
    pub fn make(&mut self, most: usize) -> Result<(), AllocError>
        ensures rows { OnOk result (length self.new.rows.items ≡ most) }
        ensures stay { OnErr result (self.new ≡ self.old) }
    {
        self.rows = vec![in self.alloc; WorthRow::free(); most]?;
        Ok(())
    }
}
