//! The front of a line that has not ended yet.
ghost use Rattle.std.specs.Prelude.{◌≡◌, ◌++◌, ◌↔◌, [], length, take, IsTrue};

use arrayvec::ArrayVec;

/// The front of a line that has not ended yet, up to as many bytes as show that it is too long.
#[derive(Drop)]
pub(crate) struct LineBuffer<const ROOM: usize> {
    bytes: ArrayVec<u8, ROOM>,
}

impl<const ROOM: usize> LineBuffer<ROOM> {
    pub(crate) fn new() -> LineBuffer<ROOM>
        ensures { result.bytes.items ≡ [] }
    {
        LineBuffer {
            bytes: ArrayVec::new(),
        }
    }

    pub(crate) fn is_empty(&self) -> bool
        ensures { IsTrue result ↔ (self.now.bytes.items ≡ []) }
    {
        self.bytes.is_empty()
    }

    pub(crate) fn as_slice(&self) -> &[u8]
        ensures { result.now ≡ self.now.bytes.items }
    {
        self.bytes.as_slice()
    }

    /// Adds what comes next, as far as there is room.
    pub(crate) fn hold(&mut self, bytes: &[u8])
        ensures { self.new.bytes.items ≡ take ROOM (self.old.bytes.items ++ bytes.now) }
    {
        let room = self.bytes.remaining_capacity();
        self.bytes
            .try_extend_from_slice(&bytes[..bytes.len().min(room)])
            .unwrap();
    }

    pub(crate) fn clear(&mut self)
        ensures { self.new.bytes.items ≡ [] }
    {
        self.bytes.clear();
    }
}
