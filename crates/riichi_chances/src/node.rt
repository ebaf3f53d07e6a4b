//! What a hand accepts, and where each of it leads.
ghost use Rattle.std.specs.Prelude.{◌≡◌, ◌<◌, ◌++◌, [], ◌∷◌, length};
ghost use Rattle.riichi_chances.specs.Graph.{draws_in};

use crate::rests::Rests;

/// A draw that a hand accepts: the live copies of its kind, and the places of the hands that the best discards then leave.
#[derive(Clone, Copy)]
#[repr(C)]
pub struct Draw {
    pub live: u8,
    pub rests: Rests,
}

/// At most one for each kind.
#[derive(Clone, Copy)]
#[repr(C)]
pub struct Draws {
    each: [Draw; 34],
    count: u8,
}

impl Draws {
    pub fn new() -> Draws
        ensures { draws_in result ≡ [] }
    {
        let none = Draw {
            live: 0,
            rests: Rests::new(),
        };
        Draws {
            each: [none; 34],
            count: 0,
        }
    }

    pub fn push(&mut self, draw: Draw)
        requires { length (draws_in self.old) < 34 }
        ensures { draws_in self.new ≡ draws_in self.old ++ draw ∷ [] }
    {
        self.each[self.count as usize] = draw;
        self.count += 1;
    }

    pub fn as_slice(&self) -> &[Draw]
        ensures { result.now ≡ draws_in self.now }
    {
        &self.each[..(self.count as usize).min(34)]
    }
}

/// What a hand of thirteen tiles accepts: how many live tiles, and unless it is ready where each of them leads.
#[derive(Clone, Copy)]
#[repr(C)]
pub struct Node {
    pub is_ready: bool,
    pub live: u8,
    pub draws: Draws,
}
