//! Numbers behind a text.
ghost use Rattle.std.specs.Prelude.{◌≡◌, ◌++◌, OnOk, decimal, string_bytes};
ghost use Rattle.std.specs.Fmt.{signed_decimal};
ghost use Rattle.riichi_standings_text.specs.Texts as spec;

use arrayvec::ArrayString;
use riichi_text::push_number;
use std::alloc::AllocError;

/// A number of 64 bits in decimal.
pub(crate) type Digits = ArrayString<20>;

/// A count in decimal.
pub(crate) fn digits_of(count: u64) -> Digits
    ensures { result.bytes ≡ decimal count }
{
    let mut digits = Digits::new();
    push_number(&mut digits, count);
    digits
}

/// Points in decimal, with their sign where they are below 0.
pub(crate) fn signed_digits(points: i64) -> Digits
    ensures { result.bytes ≡ signed_decimal points }
{
    let mut digits = Digits::new();
    push_number(&mut digits, points);
    digits
}

/// Writes a count in decimal.
pub(crate) fn push_count(text: &mut String, count: u64) -> Result<(), AllocError>
    ensures { OnOk result (string_bytes text.new ≡ string_bytes text.old ++ decimal count) }
{
    let digits = digits_of(count);
    text.push_str(digits.as_str())
}

/// Writes points in decimal.
pub(crate) fn push_points(text: &mut String, points: i64) -> Result<(), AllocError>
    ensures { OnOk result (string_bytes text.new ≡ string_bytes text.old ++ signed_decimal points) }
{
    let digits = signed_digits(points);
    text.push_str(digits.as_str())
}

/// Writes points as thousands with one decimal, with a sign but for none.
#[tactic(auto, unfolding(crate::specs::Texts::points_in_thousands))]
pub(crate) fn push_thousands(text: &mut String, points: i64) -> Result<(), AllocError>
    ensures { OnOk result (string_bytes text.new
        ≡ string_bytes text.old ++ spec.points_in_thousands points) }
{
    text.push_str(sign_of(points))?;
    let points = points.unsigned_abs();
    push_count(text, points / 1000)?;
    text.push_str(".")?;
    push_count(text, points % 1000 / 100)
}

fn sign_of<'s>(points: i64) -> &'s str
    ensures { result.now ≡ spec.sign_text points }
{
    if points < 0 {
        "-"
    } else if points > 0 {
        "+"
    } else {
        ""
    }
}
