//! What a stream was asked and what it moved. Only contracts read it, and it takes no memory.
ghost use Rattle.std.specs.Prelude.{◌≡◌, ℕ, List, Bool};
ghost use Rattle.std.specs.Borrow.{ftrue};

use std::marker::{Model, PhantomData};

/// The calls of one stream so far. Its fields are ghosts, tied to the stream only by the code that
/// notes its calls here.
#[derive(Drop)]
pub struct Journal {
    marker: PhantomData<u8>,

    /// Every byte that was moved, in order.
    pub ghost bytes: { List ℕ },

    /// How many calls there were.
    pub ghost calls: { ℕ },

    /// The calls that failed.
    pub ghost failures: { ℕ },

    /// The calls that found the end.
    pub ghost ends: { ℕ },

    /// The last call found the end.
    pub ghost is_ended: { Bool },
}

impl Model for Journal {
    ghost also_owns = { λ _. ftrue };
}

impl Journal {
    ghost use Rattle.desk_io.specs.Journal.{blank, after_move, after_end, after_failure};

    /// The journal of a stream that was not called yet.
    pub fn new() -> Journal
        ensures { result ≡ blank }
    {
        Journal {
            marker: PhantomData,
        }
    }

    /// Notes a call that moved these bytes.
    pub fn note_move(&mut self, _bytes: &[u8])
        ensures { self.new ≡ after_move self.old _bytes.now }
    {}

    /// Notes a call that found the end.
    pub fn note_end(&mut self)
        ensures { self.new ≡ after_end self.old }
    {}

    /// Notes a call that failed.
    pub fn note_failure(&mut self)
        ensures { self.new ≡ after_failure self.old }
    {}
}
