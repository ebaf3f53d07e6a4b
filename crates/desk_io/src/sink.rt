//! What is written to.
ghost use Rattle.std.specs.Prelude.{◌≡◌, ℕ, ◌+◌, ◌++◌, List, Option};
ghost use Rattle.std.specs.Io.{WritesAtMost};
ghost use Rattle.std.specs.Io.KnownBytes.{WriteAppends};
ghost use Rattle.desk_io.specs.Calls.{bytes_taken, failed_writes};

use std::io;

/// A writer. A contract sees what it has taken, and how often it was called and failed.
/// A call that takes none of some bytes has failed.
pub trait Sink {
    /// The bytes that its calls have taken so far.
    ghost written: { Self → List ℕ };

    /// The bytes that it holds, where they are known.
    ghost contents: { Self → Option (List ℕ) };

    /// How many calls there were.
    ghost calls: { Self → ℕ };

    /// How many of them failed.
    ghost failures: { Self → ℕ };

    /// Takes a front of the bytes, and returns how many it took.
    fn write(&mut self, bytes: &[u8]) -> io::Result<usize>
        ensures bound { WritesAtMost result bytes.now }
        ensures written { written self.new ≡ written self.old ++ bytes_taken result bytes.now }
        ensures contents { WriteAppends (contents self.old) (contents self.new) result bytes.now }
        ensures calls { calls self.new ≡ calls self.old + 1 }
        ensures failures { failures self.new ≡ failures self.old + failed_writes result bytes.now };
}
