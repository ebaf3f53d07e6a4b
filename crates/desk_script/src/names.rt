//! The names of the open tables.
ghost use Rattle.std.specs.Prelude.{◌≡◌, ◌<◌, ◌≤◌, ◌++◌, [], ◌∷◌, length, position, None, Some, IfOk, IfSome, MatchOption, OnErr, OnOk};
ghost use Rattle.std.specs.Str.{bytes_eq};

use indexmap::IndexSet;
use std::alloc::{AllocError, Global};
use std::marker::Model;

/// How many tables may be open.
const MOST_TABLES: usize = 64;

/// The names of the open tables, in the order in which they were opened. A table's number is the place of its name.
#[derive(Drop)]
pub(crate) struct Names {
    alloc: Global,
    names: IndexSet<Vec<u8>>,
}

impl Model for Names {
    ghost use Rattle.std.specs.Prelude.{ℕ, ◌≤◌, List, map, length};

    ghost Value = { List (List ℕ) };

    ghost view = { λ n. map (λ name. name.items) n.names.keys };

    ghost invariant = { λ n. length n.names.keys ≤ 64 };
}

impl Names {
    pub(crate) fn new(alloc: Global) -> Names
        ensures { result ≡ [] }
    {
        Names {
            alloc,
            names: IndexSet::new(alloc),
        }
    }

    /// The number of the table of this name.
    pub(crate) fn number_of(&self, name: &[u8]) -> Option<u32>
        ensures { result ≡ position (bytes_eq name.now) self.now }
    {
        match self.names.get_index_of(name) {
            None => None,
            Some(place) => Some(place as u32),
        }
    }

    /// Opens a table with a new name, and returns its number; none where as many as may be are open.
    pub(crate) fn open(&mut self, name: &[u8]) -> Result<Option<u32>, AllocError>
        requires { position (bytes_eq name.now) self.old ≡ None }
        ensures full { IfOk result (λ opened. MatchOption opened ((64 ≤ length self.old)
            × (self.new ≡ self.old))
            (λ number. (length self.old < 64) × (number ≡ length self.old) × (self.new ≡ self.old ++ name.now ∷ []))) }
        ensures err { OnErr result ((length self.old < 64) × (self.new ≡ self.old)) }
    {
        let number = self.names.len();
        if number >= MOST_TABLES {
            return Ok(None);
        }
        let name = Vec::from_slice(self.alloc, name)?;
        self.names.insert(name)?;
        Ok(Some(number as u32))
    }
}
