//! The text of so many whole points and a part of one more.
ghost use Rattle.std.specs.Prelude.{◌≡◌, ◌+◌, ◌<◌, ◌≤◌, ◌++◌};
ghost use Rattle.arrayvec.specs.ArrayString.{array_string_len};
ghost use Rattle.riichi_chances_text.specs.PointTexts as spec;

use crate::fraction::{MOST_DIGITS, MOST_DIVIDED, MOST_U128, push_divided, push_four_digits};
use arrayvec::ArrayString;
use riichi_chances::Fraction;
use riichi_text::{MOST_U32, MOST_U64, push_number};

/// The bytes of the longest decimal.
pub const MOST_POINTS_DECIMAL: usize = MOST_U64 + MOST_DIGITS;

/// The bytes of the longest points, with their decimal.
pub const MOST_POINTS: usize = MOST_U32
    + "+".len()
    + MOST_DIVIDED
    + " ".len()
    + MOST_POINTS_DECIMAL;

/// The bytes of the longest members.
pub const MOST_POINTS_MEMBERS: usize = "\"points\":".len()
    + MOST_U32
    + ",\"part\":\"".len()
    + MOST_U128
    + "\",\"whole\":\"".len()
    + MOST_U128
    + "\",\"worth\":".len()
    + MOST_POINTS_DECIMAL;

/// Writes points and a part of one more to four digits.
pub fn push_points_decimal<const ROOM: usize>(
    text: &mut ArrayString<ROOM>,
    points: u32,
    rest: Fraction,
)
    requires part { rest.part ≤ rest.whole }
    requires some { 0 < rest.whole }
    requires room { array_string_len text.old + MOST_POINTS_DECIMAL ≤ ROOM }
    ensures bytes { text.new.bytes ≡ text.old.bytes ++ spec.points_decimal points rest }
    ensures len { array_string_len text.new ≤ array_string_len text.old + MOST_POINTS_DECIMAL }
{
    let number = rest.ten_thousandths();
    push_number(text, u64::from(points) + u64::from(number / 10_000));
    push_four_digits(text, number);
}

/// Writes them with the part in lowest terms, and to four digits.
pub fn push_points<const ROOM: usize>(text: &mut ArrayString<ROOM>, points: u32, rest: Fraction)
    requires part { rest.part ≤ rest.whole }
    requires some { 0 < rest.whole }
    requires room { array_string_len text.old + MOST_POINTS ≤ ROOM }
    ensures bytes { text.new.bytes ≡ text.old.bytes ++ spec.points_text points rest }
    ensures len { array_string_len text.new ≤ array_string_len text.old + MOST_POINTS }
{
    push_number(text, points);
    text.push_str("+");
    push_divided(text, rest.reduced());
    text.push_str(" ");
    push_points_decimal(text, points, rest);
}

/// Writes them as members of an object.
pub fn push_points_members<const ROOM: usize>(
    text: &mut ArrayString<ROOM>,
    points: u32,
    rest: Fraction,
)
    requires part { rest.part ≤ rest.whole }
    requires some { 0 < rest.whole }
    requires room { array_string_len text.old + MOST_POINTS_MEMBERS ≤ ROOM }
    ensures bytes { text.new.bytes ≡ text.old.bytes ++ spec.points_members points rest }
    ensures len { array_string_len text.new ≤ array_string_len text.old + MOST_POINTS_MEMBERS }
{
    let lowest = rest.reduced();
    text.push_str("\"points\":");
    push_number(text, points);
    text.push_str(",\"part\":\"");
    push_number(text, lowest.part);
    text.push_str("\",\"whole\":\"");
    push_number(text, lowest.whole);
    text.push_str("\",\"worth\":");
    push_points_decimal(text, points, rest);
}
