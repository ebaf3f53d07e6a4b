//! What a hand is worth.
ghost use Rattle.std.specs.Prelude.{◌≡◌, ◌≤◌};
ghost use Rattle.riichi_table.specs.Worths as spec;

/// What a hand is worth, without what is paid for it.
#[derive(Clone, Copy, Debug, PartialEq, Eq)]
pub enum Worth {
    /// The base points of a hand that is counted by han and fu, or is a limit hand below a yakuman. One of 13 han is such a hand.
    Counted { base: u16 },
    /// A yakuman, of so many limits of 8000 base points each.
    Yakuman { limits: u8 },
}

impl Worth {
    /// The base points.
    pub fn base(self) -> u32
        ensures value { result ≡ spec.base_of_worth self }
        ensures most { result ≤ 2040000 }
    {
        match self {
            Worth::Counted { base } => u32::from(base),
            Worth::Yakuman { limits } => 8000 * u32::from(limits),
        }
    }

    /// How many limits of a yakuman it has; a counted hand has none.
    pub fn limits(self) -> u8
        ensures { result ≡ spec.limits_of_worth self }
    {
        match self {
            Worth::Counted { .. } => 0,
            Worth::Yakuman { limits } => limits,
        }
    }
}
