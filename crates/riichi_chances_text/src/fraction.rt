//! The text of a part of a whole.
ghost use Rattle.std.specs.Prelude.{◌≡◌, ◌+◌, ◌<◌, ◌≤◌, ◌∷◌, ◌++◌, []};
ghost use Rattle.arrayvec.specs.ArrayString.{array_string_len};
ghost use Rattle.riichi_chances_text.specs.FractionTexts as spec;

use arrayvec::ArrayString;
use riichi_chances::Fraction;
use riichi_text::push_number;

/// The bytes of the longest number of draws.
pub(crate) const MOST_U128: usize = "340282366920938463463374607431768211455".len();

/// The bytes of the longest decimal.
pub const MOST_DECIMAL: usize = "65535.0000".len();

/// The bytes of a point and four digits.
pub(crate) const MOST_DIGITS: usize = ".0000".len();

/// The bytes of the longest part and its whole.
pub(crate) const MOST_DIVIDED: usize = MOST_U128 + "/".len() + MOST_U128;

/// The bytes of the longest fraction with its decimal.
pub const MOST_FRACTION: usize = MOST_DIVIDED + " ".len() + MOST_DECIMAL;

/// Writes a part of a whole in lowest terms, and to four digits.
pub fn push_fraction<const ROOM: usize>(text: &mut ArrayString<ROOM>, given: Fraction)
    requires part { given.part ≤ given.whole }
    requires some { 0 < given.whole }
    requires room { array_string_len text.old + MOST_FRACTION ≤ ROOM }
    ensures bytes { text.new.bytes ≡ text.old.bytes ++ spec.fraction_text given }
    ensures len { array_string_len text.new ≤ array_string_len text.old + MOST_FRACTION }
{
    push_divided(text, given.reduced());
    text.push_str(" ");
    push_decimal(text, given);
}

/// Writes a part and its whole.
pub(crate) fn push_divided<const ROOM: usize>(text: &mut ArrayString<ROOM>, given: Fraction)
    requires { array_string_len text.old + MOST_DIVIDED ≤ ROOM }
    ensures bytes { text.new.bytes ≡ text.old.bytes ++ spec.divided_text given }
    ensures len { array_string_len text.new ≤ array_string_len text.old + MOST_DIVIDED }
{
    push_number(text, given.part);
    text.push_str("/");
    push_number(text, given.whole);
}

/// Writes a part of a whole to four digits.
pub fn push_decimal<const ROOM: usize>(text: &mut ArrayString<ROOM>, given: Fraction)
    requires part { given.part ≤ given.whole }
    requires some { 0 < given.whole }
    requires room { array_string_len text.old + MOST_DECIMAL ≤ ROOM }
    ensures bytes { text.new.bytes ≡ text.old.bytes ++ spec.decimal_text given }
    ensures len { array_string_len text.new ≤ array_string_len text.old + MOST_DECIMAL }
{
    push_ten_thousandths(text, given.ten_thousandths());
}

/// Writes so many ten thousandths, by four digits behind a point.
fn push_ten_thousandths<const ROOM: usize>(text: &mut ArrayString<ROOM>, number: u16)
    requires { array_string_len text.old + MOST_DECIMAL ≤ ROOM }
    ensures bytes { text.new.bytes ≡ text.old.bytes ++ spec.ten_thousandths_text number }
    ensures len { array_string_len text.new ≤ array_string_len text.old + MOST_DECIMAL }
{
    push_number(text, number / 10_000);
    push_four_digits(text, number);
}

/// Writes the last four digits of a number behind a point.
pub(crate) fn push_four_digits<const ROOM: usize>(text: &mut ArrayString<ROOM>, number: u16)
    requires { array_string_len text.old + MOST_DIGITS ≤ ROOM }
    ensures bytes { text.new.bytes ≡ text.old.bytes ++ spec.behind_point number }
    ensures len { array_string_len text.new ≡ array_string_len text.old + MOST_DIGITS }
{
    text.push_str(".");
    push_digit(text, number / 1_000);
    push_digit(text, number / 100);
    push_digit(text, number / 10);
    push_digit(text, number);
}

/// Writes the last digit of a number.
fn push_digit<const ROOM: usize>(text: &mut ArrayString<ROOM>, number: u16)
    requires { array_string_len text.old + 1 ≤ ROOM }
    ensures bytes { text.new.bytes ≡ text.old.bytes ++ spec.last_digit number ∷ [] }
    ensures len { array_string_len text.new ≡ array_string_len text.old + 1 }
{
    text.push((b'0' + (number % 10) as u8) as char);
}
