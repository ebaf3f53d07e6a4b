//! How near a hand is to a form that stands beside no meld.
ghost use Rattle.std.specs.Prelude.{◌≡◌};
ghost use Rattle.riichi_shape.specs.Special as spec;

use crate::lacked_held::{LackedHeld, NO_KIND};

/// The least number of tiles that a hand lacks of a form, and the kinds that the nearest lack.
#[derive(Clone, Copy)]
pub(crate) struct NearestForm {
    pub(crate) lack: u8,
    pub(crate) lacked: LackedHeld,
}

/// A form that counts for nothing: it lacks more tiles than any hand.
pub(crate) const FAR: NearestForm = NearestForm {
    lack: u8::MAX,
    lacked: NO_KIND,
};

impl NearestForm {
    /// The kinds that are lacked, where the form lacks just so many tiles.
    pub(crate) fn lacked_at(&self, least: u8) -> LackedHeld
        ensures { result ≡ spec.lacked_at self.now least }
    {
        if self.lack == least {
            self.lacked
        } else {
            NO_KIND
        }
    }
}
