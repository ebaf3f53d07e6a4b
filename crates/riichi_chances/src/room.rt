//! Places that are kept in memory.
ghost use Rattle.std.specs.Prelude.{◌≡◌, OnErr, OnOk, length};

use crate::hand_place::HandPlace;
use crate::rows::Rows;
use std::alloc::{AllocError, Global};

/// Places for hands, and rows for their numbers, to be lent for one question after another.
#[derive(Drop)]
pub struct Room {
    alloc: Global,
    pub places: Vec<HandPlace>,
    pub rows: Vec<Rows>,
}

impl Room {
    /// None yet.
    pub fn new(alloc: Global) -> Room {
        Room {
            alloc,
            places: Vec::new(alloc),
            rows: Vec::new(alloc),
        }
    }

    /// Makes so many. Where there is no memory for them, those that are there stay.
    pub fn make(&mut self, most: usize) -> Result<(), AllocError>
        ensures places { OnOk result (length self.new.places.items ≡ most) }
        ensures rows { OnOk result (length self.new.rows.items ≡ most) }
        ensures stay { OnErr result (self.new ≡ self.old) }
    {
        let places = vec![in self.alloc; HandPlace::free(); most]?;
        let rows = vec![in self.alloc; Rows::free(); most]?;
        self.places = places;
        self.rows = rows;
        Ok(())
    }
}
