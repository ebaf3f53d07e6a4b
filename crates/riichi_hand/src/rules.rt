//! The rules by which hands are valued.
ghost use Rattle.std.specs.Prelude.{◌≡◌, ◌≢◌, ◌<◌, ◌^◌};
ghost use Rattle.riichi_hand.specs.declared.switch.Switch.{Switch};
ghost use Rattle.riichi_hand.specs.Rules as spec;

use crate::switch::Switch;
use std::marker::Model;

/// The rules by which hands are valued: which of the rules that a table may choose are on. A contract sees them as the number
/// whose bit n says that rule n of the table is on.
#[derive(Clone, Copy, Debug, PartialEq, Eq)]
pub struct Rules {
    bits: u16,
}

impl Model for Rules {
    ghost use Rattle.std.specs.Prelude.{◌<◌, ◌^◌};
    ghost use Rattle.riichi_hand.specs.declared.switch.TheConstants.Switch.{COUNT};
    ghost use Rattle.riichi_hand.specs.Rules.{Rules};

    ghost Value = { Rules };

    ghost view = { λ r. r.bits };

    ghost invariant = { λ r. r.bits < 2 ^ COUNT };

    ghost inverse = { λ n. record { bits = n } };
}

impl Rules {
    /// The first profile.
    pub const One: Rules = Rules { bits: 0x7F0 };

    /// The second profile: the first with red fives and with raised hands.
    pub const Two: Rules = Rules { bits: 0x7F3 };

    /// The rules whose bits these are: bit n is set where rule n of the table is on.
    pub fn from_bits(bits: u16) -> Rules
        requires { bits < 2 ^ Switch.COUNT }
        ensures { result ≡ bits }
    {
        Rules { bits }
    }

    /// Bit n is set where rule n of the table is on.
    pub fn bits(self) -> u16
        ensures { result ≡ self }
    {
        self.bits
    }

    /// Whether a rule is on.
    #[inline(always)]
    pub fn has(self, switch: Switch) -> bool
        ensures { result ≡ spec.is_on switch self }
    {
        (self.bits >> switch.number()) & 1 == 1
    }

    /// The same rules with one of them on or off.
    pub fn with(self, switch: Switch, is_on: bool) -> Rules
        ensures value { result ≡ spec.with_switch switch is_on self }
        ensures this { spec.is_on switch result ≡ is_on }
        ensures others { (other : Switch) → other ≢ switch
            → spec.is_on other result ≡ spec.is_on other self }
    {
        if self.has(switch) == is_on {
            self
        } else {
            Rules {
                bits: self.bits ^ (1 << switch.number()),
            }
        }
    }
}
