//! Who pays how much, and what the winner gains.
ghost use Rattle.std.specs.Prelude.{◌≡◌, ◌<◌, ◌^◌};
ghost use Rattle.riichi_score.specs.Payment as spec;

/// Who pays how many points to the winner.
#[derive(Clone, Copy, Debug, PartialEq, Eq)]
pub enum Payment {
    /// The discarder pays all.
    Ron { points: u32 },
    /// The dealer pays one amount, each of the two others another.
    Tsumo { other: u32, dealer: u32 },
    /// Each of the three others pays the dealer.
    DealerTsumo { each: u32 },
}

/// All that the winner gains, in points: what is paid, and 1000 for each riichi stick on the table.
pub fn gain(payment: &Payment, sticks: u8) -> u32
    requires { spec.gain_of payment.now sticks < 2 ^ 32 }
    ensures { result ≡ spec.gain_of payment.now sticks }
{
    let paid = match payment {
        Payment::Ron { points } => *points,
        Payment::Tsumo { other, dealer } => 2 * *other + *dealer,
        Payment::DealerTsumo { each } => 3 * *each,
    };
    paid + 1000 * u32::from(sticks)
}
