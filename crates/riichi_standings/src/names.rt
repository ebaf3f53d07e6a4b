//! The names of the players of a tournament.
ghost use Rattle.std.specs.Prelude.{◌≡◌, ◌++◌, [], ◌∷◌, IfOk, None, OnErr, length, map, position, string_bytes};
ghost use Rattle.std.specs.Str.{bytes_eq};

use indexmap::IndexSet;
use std::alloc::{AllocError, Global};
use std::marker::Model;

/// The names of the players, each once, in the order in which they came. The number of a player is the place of the name.
#[derive(Drop)]
pub(crate) struct PlayerNames {
    alloc: Global,
    names: IndexSet<String>,
}

impl Model for PlayerNames {
    ghost use Rattle.std.specs.Prelude.{ℕ, List, map, string_bytes};

    ghost Value = { List (List ℕ) };

    ghost view = { λ n. map string_bytes n.names.keys };
}

impl PlayerNames {
    pub(crate) fn new(alloc: Global) -> PlayerNames
        ensures { result ≡ [] }
    {
        PlayerNames {
            alloc,
            names: IndexSet::new(alloc),
        }
    }

    pub(crate) fn as_slice(&self) -> &[String]
        ensures { map string_bytes result.now ≡ self.now }
    {
        self.names.as_slice()
    }

    /// The number of the player of this name.
    pub(crate) fn number_of(&self, name: &str) -> Option<usize>
        ensures { result ≡ position (bytes_eq name.now) self.now }
    {
        self.names.get_index_of(name)
    }

    /// Takes a new name, and returns the number of its player.
    pub(crate) fn add(&mut self, name: &str) -> Result<usize, AllocError>
        requires { position (bytes_eq name.now) self.old ≡ None }
        ensures added { IfOk result (λ number. (number ≡ length self.old)
            × (self.new ≡ self.old ++ name.now ∷ [])) }
        ensures err { OnErr result (self.new ≡ self.old) }
    {
        let number = self.names.len();
        let name = String::from_str(self.alloc, name)?;
        self.names.insert(name)?;
        Ok(number)
    }
}
