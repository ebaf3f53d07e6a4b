//! Where the hands stand that a hand of fourteen tiles may leave.
ghost use Rattle.std.specs.Prelude.{◌≡◌, ◌<◌, ◌++◌, [], ◌∷◌, length};
ghost use Rattle.riichi_chances.specs.Graph.{places_in};

/// Places of hands, at most fourteen, since no hand has more discards. There are no more places than a number of 16 bits tells.
#[derive(Clone, Copy)]
#[repr(C)]
pub struct Rests {
    places: [u16; 14],
    count: u8,
}

impl Rests {
    pub fn new() -> Rests
        ensures { places_in result ≡ [] }
    {
        Rests {
            places: [0; 14],
            count: 0,
        }
    }

    pub fn push(&mut self, place: u16)
        requires { length (places_in self.old) < 14 }
        ensures { places_in self.new ≡ places_in self.old ++ place ∷ [] }
    {
        self.places[self.count as usize] = place;
        self.count += 1;
    }

    pub fn as_slice(&self) -> &[u16]
        ensures { result.now ≡ places_in self.now }
    {
        &self.places[..(self.count as usize).min(14)]
    }
}
