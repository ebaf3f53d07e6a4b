//! Why a score over several readers was given up.
use desk_lines::DeskFault;
use std::alloc::AllocError;
use thiserror::Error;

/// Why a score over several readers was given up.
#[derive(Clone, Copy, Debug, PartialEq, Eq, Error)]
pub enum ScoreFault {
    /// A reader failed, or gave no end within 4,294,967,295 reads.
    #[error("F1: a read failed, or gave no end")]
    Read,
    /// The writer failed, or took none of some bytes.
    #[error("F2: a write failed")]
    Write,
    /// There was no memory.
    #[error("F3: memory ran out")]
    Memory,
    /// There aren't 1 to 64 readers and 1 to 16 workers, or a reader has more than 1,000,000 jobs.
    #[error("B1: too many or too few tables, workers or jobs")]
    Range,
    /// A worker could not be started. No call of this crate ends so: where the system gives no thread, the calling one judges.
    #[error("B4: a worker could not be started")]
    Thread,
}

impl ScoreFault {
    ghost use Rattle.std.specs.Prelude.{◌≡◌};
    ghost use Rattle.desk_score.specs.Faults.{code_of, score_fault_words, status_of};

    /// The code of the fault, as the program writes it on standard error.
    pub fn code(self) -> &'static str
        ensures { result.now ≡ code_of self }
    {
        match self {
            ScoreFault::Read => "F1",
            ScoreFault::Write => "F2",
            ScoreFault::Memory => "F3",
            ScoreFault::Range => "B1",
            ScoreFault::Thread => "B4",
        }
    }

    /// The fault in words, as the command `help-codes` has them.
    pub fn words(self) -> &'static str
        ensures { result.now ≡ score_fault_words self }
    {
        match self {
            ScoreFault::Read => "the input can't be read, or has no end",
            ScoreFault::Write => "the answers can't be written",
            ScoreFault::Memory => "there is no memory",
            ScoreFault::Range => "there are too many files, or too many hands in one",
            ScoreFault::Thread => "there is no thread",
        }
    }

    /// The exit status of a program that ends by the fault: 2 where there was too much, 3 where input or output failed, 4
    /// where there was no memory or no thread.
    pub fn status(self) -> u8
        ensures { result ≡ status_of self }
    {
        match self {
            ScoreFault::Range => 2,
            ScoreFault::Read | ScoreFault::Write => 3,
            ScoreFault::Memory | ScoreFault::Thread => 4,
        }
    }
}

impl From<DeskFault> for ScoreFault {
    ghost use Rattle.std.specs.Prelude.{◌≡◌};
    ghost use Rattle.desk_score.specs.Faults.{desk_fault};

    ghost from_gives = { λ fault given. given ≡ desk_fault fault };

    fn from(fault: DeskFault) -> ScoreFault {
        match fault {
            DeskFault::Read => ScoreFault::Read,
            DeskFault::Write => ScoreFault::Write,
            DeskFault::Memory => ScoreFault::Memory,
        }
    }
}

impl From<AllocError> for ScoreFault {
    ghost use Rattle.std.specs.Prelude.{◌≡◌};
    ghost use Rattle.desk_score.specs.declared.score_fault.ScoreFault.TheVariants.{Memory};

    ghost from_gives = { λ _ given. given ≡ Memory };

    fn from(_refused: AllocError) -> ScoreFault {
        ScoreFault::Memory
    }
}
