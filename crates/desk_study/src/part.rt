//! One part of a text of questions and its answers.
ghost use Rattle.std.specs.Prelude.{◌≡◌, ◌+◌, ◌<◌, ◌++◌, ◌^◌, length, IfOk, IfErr};
ghost use Rattle.desk_lines.specs.Lines.{lines};
ghost use Rattle.desk_lines.specs.Telling.{both_reports, count_of, report_with};
ghost use Rattle.desk_study.specs.Parts as spec;

use crate::form::StudiesManner;
use crate::questions::Questions;
use desk_lines::{DeskFault, DeskReport, LineKind, Outbox, SuitMemo, next_line};
use std::alloc::{AllocError, Global};

/// The answers to the lines of one part of a text, and how many they are.
#[derive(Drop)]
pub(crate) struct Part {
    pub(crate) answers: Vec<u8>,
    pub(crate) report: DeskReport,
}

impl Part {
    /// Answers the lines of a text, of which the first has this number.
    pub(crate) fn answer(
        alloc: Global,
        manner: StudiesManner,
        number: u64,
        text: &[u8],
    ) -> Result<Part, AllocError>
        requires { number + length text.now < 2 ^ 64 }
        ensures { IfOk result (spec.IsAnswered manner number (lines text.now)) }
    {
        let mut questions = Questions::new(alloc, manner);
        let mut rows = SuitMemo::new(alloc);
        let mut outbox = Outbox::new();
        let mut answers = Vec::new(alloc);
        let mut report = DeskReport {
            answered: 0,
            refused: 0,
        };
        let mut next = number;
        let mut rest = text;
        while let Some((line, after)) = next_line(rest) {
            outbox.clear();
            let kind = questions.take(next, line, &mut outbox, &mut rows)?;
            answers.extend_from_slice(outbox.as_slice())?;
            report = counted(report, kind);
            next += 1;
            rest = after;
        }
        Ok(Part { answers, report })
    }

    /// Its answers, and behind them those of another part.
    pub(crate) fn with(self, later: Part) -> Result<Part, DeskFault>
        ensures ok { IfOk result (λ both.
            (both.answers.items ≡ self.answers.items ++ later.answers.items)
            × (both.report ≡ both_reports self.report later.report)) }
        ensures err { IfErr result (λ fault. fault ≡ DeskFault.Memory) }
    {
        let Part {
            mut answers,
            report,
        } = self;
        answers.extend_from_slice(later.answers.as_slice())?;
        let report = report.plus(later.report)?;
        Ok(Part { answers, report })
    }
}

/// A report with one more line.
fn counted(report: DeskReport, kind: LineKind) -> DeskReport
    requires { count_of report + 1 < 2 ^ 64 }
    ensures { result ≡ report_with report kind }
{
    let DeskReport { answered, refused } = report;
    match kind {
        LineKind::NoRecord => report,
        LineKind::Answered => DeskReport {
            answered: answered + 1,
            refused,
        },
        LineKind::Refused => DeskReport {
            answered,
            refused: refused + 1,
        },
    }
}
