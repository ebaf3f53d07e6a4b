//! The text of one tile, and of more of one kind.
ghost use Rattle.std.specs.Prelude.{◌≡◌, ◌+◌, ◌<◌, ◌≤◌, [], ◌∷◌, ◌++◌};
ghost use Rattle.arrayvec.specs.ArrayString.{array_string_len};
ghost use Rattle.riichi_text.specs.Tiles as spec;

use arrayvec::ArrayString;
use riichi_tiles::Kind;

/// The digit of a kind within its suit.
#[inline(always)]
pub fn digit_of(kind: usize) -> u8
    requires { kind < 34 }
    ensures value { result ≡ spec.digit_of kind }
    ensures ascii { result ≤ 57 }
{
    const DIGITS: [u8; 34] = *b"1234567891234567891234567891234567";
    DIGITS[kind]
}

/// The letter of a kind's suit.
#[inline(always)]
pub fn letter_of(kind: usize) -> u8
    requires { kind < 34 }
    ensures value { result ≡ spec.letter_of kind }
    ensures ascii { result < 128 }
{
    const LETTERS: [u8; 34] = *b"mmmmmmmmmpppppppppssssssssszzzzzzz";
    LETTERS[kind]
}

/// Writes one tile.
pub fn push_kind<const ROOM: usize>(text: &mut ArrayString<ROOM>, kind: Kind)
    requires { array_string_len text.old + 2 ≤ ROOM }
    ensures bytes { text.new.bytes ≡ text.old.bytes ++ spec.kind_text kind }
    ensures len { array_string_len text.new ≡ array_string_len text.old + 2 }
{
    text.push(digit_of(kind.index()) as char);
    text.push(letter_of(kind.index()) as char);
}

/// Writes two tiles of a kind.
#[tactic(auto, unfolding(crate::specs::Tiles::two_text))]
pub fn push_two<const ROOM: usize>(text: &mut ArrayString<ROOM>, kind: Kind)
    requires { array_string_len text.old + 3 ≤ ROOM }
    ensures bytes { text.new.bytes ≡ text.old.bytes ++ spec.two_text kind }
    ensures len { array_string_len text.new ≡ array_string_len text.old + 3 }
{
    text.push(digit_of(kind.index()) as char);
    push_kind(text, kind);
}

/// Writes three tiles of a kind.
#[tactic(auto, unfolding(crate::specs::Tiles::three_text))]
pub fn push_three<const ROOM: usize>(text: &mut ArrayString<ROOM>, kind: Kind)
    requires { array_string_len text.old + 4 ≤ ROOM }
    ensures bytes { text.new.bytes ≡ text.old.bytes ++ spec.three_text kind }
    ensures len { array_string_len text.new ≡ array_string_len text.old + 4 }
{
    text.push(digit_of(kind.index()) as char);
    push_two(text, kind);
}

/// Writes four tiles of a kind.
#[tactic(auto, unfolding(crate::specs::Tiles::four_text))]
pub fn push_four<const ROOM: usize>(text: &mut ArrayString<ROOM>, kind: Kind)
    requires { array_string_len text.old + 5 ≤ ROOM }
    ensures bytes { text.new.bytes ≡ text.old.bytes ++ spec.four_text kind }
    ensures len { array_string_len text.new ≡ array_string_len text.old + 5 }
{
    text.push(digit_of(kind.index()) as char);
    push_three(text, kind);
}
