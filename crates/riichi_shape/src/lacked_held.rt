//! What a form lacks, by how many of a kind are held.
ghost use Rattle.std.specs.Prelude.{◌≡◌, ◌||◌, not};
ghost use Rattle.riichi_shape.specs.Special.{lacks_held};

/// Whether the nearest of a form lack the kinds that are not held, and those that are held once.
/// None lacks a kind of which two are held.
#[derive(Clone, Copy)]
pub(crate) struct LackedHeld {
    pub(crate) missing: bool,
    pub(crate) single: bool,
}

/// No kind is lacked.
pub(crate) const NO_KIND: LackedHeld = LackedHeld {
    missing: false,
    single: false,
};

impl LackedHeld {
    /// Whether no kind is lacked.
    pub(crate) fn is_empty(&self) -> bool
        ensures { result ≡ not (self.now.missing || self.now.single) }
    {
        !(self.missing || self.single)
    }

    /// Whether a kind is lacked of which so many are held.
    pub(crate) fn contains(&self, held: u8) -> bool
        ensures { result ≡ lacks_held self.now held }
    {
        (held == 0) & self.missing | (held == 1) & self.single
    }
}
