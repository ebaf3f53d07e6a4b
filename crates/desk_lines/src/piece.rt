//! The lines of a piece of a text, answered into memory.
ghost use Rattle.std.specs.Prelude.{◌≡◌, ◌<◌, ◌^◌, ℕ, List, ◌++◌, IfOk, length};
ghost use Rattle.desk_lines.specs.Lines.{ended_lines};
ghost use Rattle.desk_lines.specs.Records.{AreTold};
ghost use Rattle.desk_lines.specs.Slips.{tally_of};
ghost use Rattle.desk_lines.specs.Telling.{text_of};

use super::first_line::first_line;
use super::outbox::Outbox;
use super::responder::Responder;
use super::tally::Tally;
use riichi_hand::Rules;
use riichi_shape::RowSource;
use std::alloc::AllocError;

/// Answers the lines of a text that have ended, under a profile that is known, and puts the answers behind others. What comes
/// after the last line feed is left alone.
#[tactic(auto, using(crate::proofs::AnswerLemmas::AreTold_last, crate::proofs::TellingLemmas::text_of_more, crate::proofs::SlipLemmas::tally_of_more))]
pub fn answer_piece<A: Responder, S: RowSource>(
    rules: Rules,
    text: &[u8],
    source: &mut S,
    answers: &mut Vec<u8>,
) -> Result<Tally, AllocError>
    requires { length text.now < 2 ^ 64 }
    ensures { IfOk result (λ tally. (told : List (List ℕ))
        × AreTold A.may_tell rules (ended_lines text.now) told
        × (answers.new.items ≡ answers.old.items ++ text_of told)
        × (tally ≡ tally_of rules (ended_lines text.now))) }
{
    let mut outbox = Outbox::new();
    let mut tally = Tally::of_none();
    let mut rest = text;
    while let Some((line, after)) = first_line(rest) {
        outbox.clear();
        let kind = A::respond(rules, line, &mut outbox, source);
        answers.extend_from_slice(outbox.as_slice())?;
        tally = tally.with_line(line, kind);
        rest = after;
    }
    Ok(tally)
}
