//! Where the last line feed of a text stands.
ghost use Rattle.std.specs.Prelude.{◌≡◌, ◌≤◌, drop, length};
ghost use Rattle.desk_lines.specs.Lines.{cut_of};

use memchr::memrchr;

/// How many bytes there are up to the last line feed, and with it.
pub fn ended_bytes(text: &[u8]) -> usize
    ensures within { result ≤ length text.now }
    ensures rest { drop result text.now ≡ (cut_of text.now).rest }
{
    match memrchr(b'\n', text) {
        None => 0,
        Some(place) => place + 1,
    }
}
