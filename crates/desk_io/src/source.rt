//! What is read from.
ghost use Rattle.std.specs.Prelude.{◌≡◌, ℕ, ◌+◌, ◌<◌, ◌++◌, List, Option, length, IfOk};
ghost use Rattle.std.specs.Io.{ReadsAtMost};
ghost use Rattle.std.specs.Io.KnownBytes.{ReadConsumes};
ghost use Rattle.desk_io.specs.Calls.{bytes_read, failed_reads, found_ends};

use std::io;

/// A reader. A contract sees what it has given, and how often it was called, failed and found its end.
pub trait Source {
    /// The bytes that its calls have given so far.
    ghost given: { Self → List ℕ };

    /// The bytes that it has still to give, where they are known.
    ghost left: { Self → Option (List ℕ) };

    /// Its last call found the end.
    ghost is_ended: { Self → Type 0 };

    /// How many calls there were.
    ghost calls: { Self → ℕ };

    /// How many of them failed.
    ghost failures: { Self → ℕ };

    /// How many of them found the end.
    ghost ends: { Self → ℕ };

    /// Puts the next bytes at the front of the buffer and returns how many these are: 0 at the end,
    /// or where the buffer has no room.
    fn read(&mut self, buffer: &mut [u8]) -> io::Result<usize>
        ensures bound { ReadsAtMost result buffer.new }
        ensures given { given self.new ≡ given self.old ++ bytes_read result buffer.new }
        ensures left { ReadConsumes (left self.old) (left self.new) result buffer.new }
        ensures ended { IfOk result (λ count. count ≡ 0 → 0 < length buffer.old
            → is_ended self.new) }
        ensures calls { calls self.new ≡ calls self.old + 1 }
        ensures failures { failures self.new ≡ failures self.old + failed_reads result }
        ensures ends { ends self.new ≡ ends self.old + found_ends result buffer.old };
}
