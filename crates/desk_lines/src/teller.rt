//! What answers the lines of a stream, one after another.
ghost use Rattle.std.specs.Prelude.{◌≡◌, ℕ, List, IfOk, OnErr};
ghost use Rattle.desk_lines.specs.declared.report.DeskReport.{DeskReport};
ghost use Rattle.desk_lines.specs.Outbox.{HasRoomForLine};
ghost use Rattle.desk_lines.specs.Telling.{AnswersLine};

use super::line_kind::LineKind;
use super::outbox::Outbox;
use riichi_shape::RowSource;
use std::alloc::AllocError;

/// What answers the lines of a stream, one after another. What it keeps of a line it may need memory for.
/// [`answer_lines`](crate::answer_lines) has the lines of a reader told by it.
pub trait Teller {
    /// An answer, of which more may be told than its text.
    ghost Answer: { Type 0 };

    /// What is written of an answer.
    ghost written: { Answer → List ℕ };

    /// Lines of more bytes are answered alike.
    ghost most: { ℕ };

    /// From the first state to the second it has taken these lines, given them these answers, in order, and counted them so.
    ghost tells: { Self → Self → List (List ℕ) → List Answer → DeskReport → Type 0 };

    /// Memory may be wanted for this line.
    ghost wants_memory: { Self → List ℕ → Type 0 };

    /// Takes the next line, which has this number, and puts its answer into the outbox, where it has one; shapes are answered
    /// by the rows of a source. Where memory was wanted, no answer is given.
    fn tell<S: RowSource>(
        &mut self,
        number: u64,
        line: &[u8],
        outbox: &mut Outbox,
        source: &mut S,
    ) -> Result<LineKind, AllocError>
        requires { HasRoomForLine outbox.old }
        ensures told { IfOk result
            (λ kind. AnswersLine written most tells self.old self.new number line.now kind outbox.old.bytes.items outbox.new.bytes.items) }
        ensures err { OnErr result ((outbox.new.bytes.items ≡ outbox.old.bytes.items)
            × wants_memory self.old line.now) };
}
