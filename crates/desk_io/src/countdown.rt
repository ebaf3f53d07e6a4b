//! The call that a stream over memory lets fail.
ghost use Rattle.std.specs.Prelude.{◌≡◌, ◌-◌, ◌↔◌, IsTrue, unwrap_or};

/// Counts calls down to the one that fails.
#[derive(Clone, Copy)]
pub(crate) struct Countdown {
    /// The calls up to and with the one that fails, or 0 where none does.
    pub(crate) until: u64,
}

impl Countdown {
    /// To the call of this number, counted from 1.
    pub(crate) fn to(failing: Option<u64>) -> Countdown
        ensures { result.until ≡ unwrap_or failing 0 }
    {
        Countdown {
            until: failing.unwrap_or(0),
        }
    }

    /// Counts a call, and says whether it is the one that fails.
    pub(crate) fn is_failing(&mut self) -> bool
        ensures fails { IsTrue result ↔ (self.old.until ≡ 1) }
        ensures until { self.new.until ≡ self.old.until - 1 }
    {
        let until = self.until;
        self.until = until.saturating_sub(1);
        until == 1
    }
}
