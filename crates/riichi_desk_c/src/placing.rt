//! A text in the room that a caller lends.
ghost use Rattle.std.specs.Prelude.{◌≡◌, ◌≤◌, ◌<◌, ◌++◌, length, drop};

/// Puts the text at the start of the room if all of it fits there, and returns how many bytes it takes.
pub fn place(text: &[u8], room: &mut [u8]) -> usize
    ensures needed { result ≡ length text.now }
    ensures fits { length text.now ≤ length room.old
        → room.new ≡ text.now ++ drop (length text.now) room.old }
    ensures untouched { length room.old < length text.now → room.new ≡ room.old }
{
    if text.len() <= room.len() {
        room[..text.len()].copy_from_slice(text);
    }
    text.len()
}
