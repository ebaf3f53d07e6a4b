//! What answers one record line.
ghost use Rattle.std.specs.Prelude.{◌≡◌, ℕ, List, Option};
ghost use Rattle.riichi_hand.specs.Refusals.{IsRefusalOf};
ghost use Rattle.riichi_hand.specs.Rules.{Rules};
ghost use Rattle.riichi_hand.specs.declared.fault.LineFault.{LineFault};
ghost use Rattle.riichi_hand.specs.declared.job.Job.{Job};
ghost use Rattle.desk_lines.specs.LineAnswer.{line_kind};
ghost use Rattle.desk_lines.specs.LongLines.{AreAlike};
ghost use Rattle.desk_lines.specs.Outbox.{HasRoom};
ghost use Rattle.desk_lines.specs.Outcomes.{TellsLine, PutsLine};
ghost use Rattle.desk_lines.specs.Records.{Puts};

use super::line_kind::LineKind;
use super::outbox::Outbox;
use riichi_hand::{Job, Refusal, Rules, read_placed};
use riichi_shape::RowSource;

/// A kind of answer: how a job is answered, and how a line that is refused.
pub trait Responder {
    /// A record line may be answered by this text under a profile, or by none.
    ghost may_tell: { Rules → List ℕ → Option (List ℕ) → Type 0 };

    /// A job may be answered by this text under a profile.
    ghost tells_job: { Rules → Job → List ℕ → Type 0 };

    /// A line with this fault may be answered by this text under a profile.
    ghost tells_refusal: { Rules → List ℕ → LineFault → List ℕ → Type 0 };

    /// Puts the answer to a job into the outbox. Shapes are answered by the rows of a source, and as by any other.
    fn put_job<S: RowSource>(rules: Rules, job: &Job, outbox: &mut Outbox, source: &mut S)
        requires { HasRoom outbox.old }
        ensures { PutsLine (tells_job rules job.now)
            outbox.old.bytes.items outbox.new.bytes.items };

    /// Puts the answer to a line that is refused into the outbox.
    fn put_refusal(rules: Rules, line: &[u8], refusal: &Refusal<'_>, outbox: &mut Outbox)
        requires room { HasRoom outbox.old }
        requires refusal { IsRefusalOf line.now refusal.now }
        ensures { PutsLine (tells_refusal rules line.now refusal.now.fault)
            outbox.old.bytes.items outbox.new.bytes.items };

    /// Puts the answer to a record line into the outbox.
    fn respond<S: RowSource>(
        rules: Rules,
        line: &[u8],
        outbox: &mut Outbox,
        source: &mut S,
    ) -> LineKind
        requires { HasRoom outbox.old }
        ensures kind { result ≡ line_kind rules line.now }
        ensures puts { Puts (TellsLine tells_job tells_refusal rules line.now) result
            outbox.old.bytes.items outbox.new.bytes.items }
    {
        match read_placed(rules, line) {
            Ok(None) => LineKind::NoRecord,
            Ok(Some(job)) => {
                Self::put_job(rules, &job, outbox, source);
                LineKind::Answered
            }
            Err(refusal) => {
                Self::put_refusal(rules, line, &refusal, outbox);
                LineKind::Refused
            }
        }
    }

    /// What may be told of the outcome of a line may be told of the line.
    ghost by_outcome: { (rules : Rules) (line : List ℕ) (told : Option (List ℕ))
        → TellsLine tells_job tells_refusal rules line told → may_tell rules line told };

    /// Lines of more than 4,096 bytes are answered alike.
    ghost alike: { AreAlike may_tell };
}
