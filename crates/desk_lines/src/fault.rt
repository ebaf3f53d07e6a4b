//! Why a text over streams was given up.
use std::alloc::AllocError;
use thiserror::Error;

/// Why a text over streams was given up.
#[derive(Clone, Copy, Debug, PartialEq, Eq, Error)]
pub enum DeskFault {
    /// The reader failed, or gave no end within 4,294,967,295 reads.
    #[error("F1: a read failed, or gave no end")]
    Read,
    /// The writer failed, or took none of some bytes.
    #[error("F2: a write failed")]
    Write,
    /// There was no memory.
    #[error("F3: memory ran out")]
    Memory,
}

impl From<AllocError> for DeskFault {
    ghost use Rattle.std.specs.Prelude.{◌≡◌};
    ghost use Rattle.desk_lines.specs.declared.fault.DeskFault.TheVariants.{Memory};

    ghost from_gives = { λ _ given. given ≡ Memory };

    fn from(_refused: AllocError) -> DeskFault {
        DeskFault::Memory
    }
}
