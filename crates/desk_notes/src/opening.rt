//! The first bytes of a text that is being read.
ghost use Rattle.std.specs.Prelude.{◌≡◌, ◌++◌, [], take};
ghost use Rattle.desk_notes.specs.Signs as spec;

use crate::sign::{Sign, sign_of};
use arrayvec::ArrayVec;

/// The bytes of the longest sign: the word `game`, and what parts it from the next one.
const FRONT: usize = "game ".len();

/// The first bytes of a text that is being read.
#[derive(Drop)]
pub struct Opening {
    bytes: ArrayVec<u8, FRONT>,
}

impl Opening {
    /// Nothing is read yet.
    pub fn new() -> Opening
        ensures { result.bytes.items ≡ [] }
    {
        Opening {
            bytes: ArrayVec::new(),
        }
    }

    /// Goes on by what is read: the sign of a text that is none of record lines, where it is seen by this and was not before.
    pub fn sign_by(&mut self, read: &[u8]) -> Option<Sign>
        ensures front { self.new.bytes.items ≡ take FRONT (self.old.bytes.items ++ read.now) }
        ensures sign { result
            ≡ spec.sign_by self.old.bytes.items (self.old.bytes.items ++ read.now) }
    {
        let was_seen = sign_of(self.bytes.as_slice()).is_some();
        self.add(read);
        if was_seen {
            None
        } else {
            sign_of(self.bytes.as_slice())
        }
    }

    /// Keeps of what is read as much as belongs to the first bytes.
    #[tactic(auto, using(crate::proofs::OpeningLemmas::front_kept))]
    fn add(&mut self, read: &[u8])
        ensures { self.new.bytes.items ≡ take FRONT (self.old.bytes.items ++ read.now) }
    {
        let wanted = self.bytes.remaining_capacity().min(read.len());
        self.bytes.try_extend_from_slice(&read[..wanted]).unwrap();
    }
}
