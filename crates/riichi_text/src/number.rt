//! The text of a number.
ghost use Rattle.std.specs.Prelude.{◌≡◌, ◌+◌, ◌≤◌, ◌++◌};
ghost use Rattle.arrayvec.specs.ArrayString.{array_string_len};

use arrayvec::ArrayString;
use itoa::{Buffer, Integer};

/// The bytes of the longest number of each type.
pub const MOST_I8: usize = "-128".len();

pub const MOST_U8: usize = "255".len();

pub const MOST_U32: usize = "4294967295".len();

pub const MOST_U64: usize = "18446744073709551615".len();

/// Writes a number in decimal, with its sign where it is below 0.
pub fn push_number<I: Integer, const ROOM: usize>(text: &mut ArrayString<ROOM>, number: I)
    requires { array_string_len text.old + I.MAX_STR_LEN ≤ ROOM }
    ensures bytes { text.new.bytes ≡ text.old.bytes ++ I.text number }
    ensures len { array_string_len text.new ≤ array_string_len text.old + I.MAX_STR_LEN }
{
    let mut buffer = Buffer::new();
    text.push_str(buffer.format(number));
}
