//! A text of record lines that is looked through, and isn't answered.
ghost use Rattle.std.specs.Prelude.{◌≡◌, ◌++◌, [], Some, None, ℕ, List, IfOk};
ghost use Rattle.desk_lines.specs.LineAnswers.{report_on};
ghost use Rattle.desk_lines.specs.Lines.{lines};
ghost use Rattle.desk_lines.specs.Profile as profile;
ghost use Rattle.desk_lines.specs.LineAnswer as answer;
ghost use Rattle.desk_lines.specs.Streams.{GivesAll};
ghost use Rattle.desk_notes.specs.Looking as spec;
ghost use Rattle.desk_notes.specs.Winners.{put_if};

use crate::winners::{LineOutcome, is_paid_again, last_win_by};
use desk_io::{BytesOut, Source};
use desk_lines::{DeskFault, DeskReport, LineKind, Outbox, Teller, answer_lines, profile_of};
use riichi_hand::{Rules, WinRecord, read_line};
use riichi_shape::{FreshRows, RowSource};
use std::alloc::{AllocError, Global};

/// What was seen of a text of record lines.
#[derive(Drop)]
pub struct Looked {
    /// How many lines are answered, and how many refused.
    pub counts: DeskReport,
    /// The numbers of the wins that are paid the counters and sticks that the win before them was paid.
    pub paid_again: Vec<u64>,
}

/// Looks for two winners' lines through a text of record lines, whose first line may set its rules. It answers nothing.
pub fn look_through<R: Source>(
    alloc: Global,
    given: Rules,
    reader: &mut R,
) -> Result<Looked, DeskFault>
    ensures { IfOk result (λ looked. (text : List ℕ)
        × GivesAll ⟦<R as Source>⟧ reader.old reader.new text
        × (looked.paid_again.items ≡ spec.paid_again given (lines text))
        × (looked.counts ≡ report_on given (lines text))) }
{
    let mut looking = Looking::new(alloc, given);
    let mut nowhere: BytesOut<0> = BytesOut::new(0, None);
    let counts = answer_lines(&mut looking, &mut FreshRows, reader, &mut nowhere)?;
    Ok(Looked {
        counts,
        paid_again: looking.paid_again,
    })
}

/// What was seen of the lines so far.
#[derive(Drop)]
struct Looking {
    /// The rules of a text that sets none.
    given: Rules,
    /// The rules of the text, or none before its first line.
    rules: Option<Rules>,
    /// The win that the last record is, where it is one.
    before: Option<WinRecord>,
    paid_again: Vec<u64>,
}

impl Looking {
    fn new(alloc: Global, given: Rules) -> Looking
        ensures given { result.given ≡ given }
        ensures rules { result.rules ≡ None }
        ensures before { result.before ≡ None }
        ensures none { result.paid_again.items ≡ [] }
    {
        Looking {
            given,
            rules: None,
            before: None,
            paid_again: Vec::new(alloc),
        }
    }

    /// Takes the next line, which has this number.
    fn take(&mut self, number: u64, line: &[u8]) -> Result<LineKind, AllocError>
        ensures { IfOk result (λ kind. spec.Takes self.old self.new number line.now kind) }
    {
        let rules = record_rules(self.given, &mut self.rules, line);
        let outcome = outcome_under(rules, line);
        let is_told = is_paid_again(&self.before, &outcome);
        push_if(&mut self.paid_again, is_told, number)?;
        self.before = last_win_by(self.before, &outcome);
        Ok(outcome_kind(&outcome))
    }
}

/// Takes the next line of a text: under which rules it is a record, or none where it sets those of the text.
fn record_rules(given: Rules, rules: &mut Option<Rules>, line: &[u8]) -> Option<Rules>
    ensures after { rules.new ≡ Some (profile.rules_by given rules.old line.now) }
    ensures record { result ≡ profile.record_rules given rules.old line.now }
{
    if rules.is_some() {
        return *rules;
    }
    match profile_of(line) {
        Some(profile) => {
            *rules = Some(profile);
            None
        }
        None => {
            *rules = Some(given);
            Some(given)
        }
    }
}

/// What a line comes to under these rules, or none where it is no record.
fn outcome_under(rules: Option<Rules>, line: &[u8]) -> LineOutcome
    ensures { result ≡ spec.outcome_under rules line.now }
{
    match rules {
        Some(rules) => read_line(rules, line),
        None => Ok(None),
    }
}

/// What a line is that comes to this.
fn outcome_kind(outcome: &LineOutcome) -> LineKind
    ensures { result ≡ answer.outcome_kind outcome.now }
{
    match outcome {
        Ok(None) => LineKind::NoRecord,
        Ok(Some(_)) => LineKind::Answered,
        Err(_) => LineKind::Refused,
    }
}

/// Puts a number behind others where it is told.
fn push_if(numbers: &mut Vec<u64>, is_told: bool, number: u64) -> Result<(), AllocError>
    ensures { IfOk result (λ _. numbers.new.items ≡ numbers.old.items ++ put_if is_told number []) }
{
    if is_told {
        numbers.push(number)?;
    }
    Ok(())
}

impl Teller for Looking {
    ghost use Rattle.std.specs.Prelude.{List, ℕ};
    ghost use Rattle.desk_notes.specs.Looking.{HasSeen};

    ghost Answer = { List ℕ };

    ghost written = { λ text. text };

    ghost most = { 4096 };

    ghost tells = { λ first now lines told report. HasSeen first now lines report };

    ghost wants_memory = { λ _ _. Unit {0} };

    fn tell<S: RowSource>(
        &mut self,
        number: u64,
        line: &[u8],
        _outbox: &mut Outbox,
        _source: &mut S,
    ) -> Result<LineKind, AllocError> {
        self.take(number, line)
    }
}
