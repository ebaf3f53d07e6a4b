//! Answers the record lines of a stream one by one.
ghost use Rattle.std.specs.Prelude.{◌≡◌, ℕ, List, Some, None, unwrap_or};
ghost use Rattle.desk_lines.specs.Profile.{rules_by, record_rules};
ghost use Rattle.desk_lines.specs.Slips.{slip_under, told_slip};

use super::line_kind::LineKind;
use super::outbox::Outbox;
use super::profile::first_rules;
use super::report::{DeskReport, TextReport};
use super::responder::Responder;
use super::tally::slip_at;
use super::teller::Teller;
use riichi_hand::Rules;
use riichi_shape::RowSource;
use std::alloc::AllocError;
use std::marker::PhantomData;

/// The teller of record lines: each is answered by itself, by one kind of answer, under the profile of its stream. It
/// takes no memory. `A` is the kind of answer.
#[derive(Drop)]
pub(crate) struct Records<A> {
    kind: PhantomData<A>,
    /// The profile of a stream that sets none.
    given: Rules,
    /// The profile of the stream, or none before its first line.
    rules: Option<Rules>,
    /// The first line so far that looks like a profile line and sets none, by its number.
    slip: Option<u64>,
}

impl<A: Responder> Records<A> {
    pub(crate) fn new(given: Rules) -> Records<A>
        ensures given { result.given ≡ given }
        ensures rules { result.rules ≡ None }
        ensures slip { result.slip ≡ None }
    {
        Records {
            kind: PhantomData,
            given,
            rules: None,
            slip: None,
        }
    }

    /// The report on the lines, of which so many have answers.
    pub(crate) fn report(&self, counts: DeskReport) -> TextReport
        ensures counts { result.counts ≡ counts }
        ensures slip { result.slip
            ≡ told_slip (unwrap_or self.now.rules self.now.given) self.now.slip }
    {
        TextReport::new(counts, self.slip, self.rules.unwrap_or(self.given))
    }

    /// Takes the next line, which has this number: under which rules it is a record, or none where it sets those of the stream.
    /// One that looks like a profile line and sets none is noted.
    #[inline(always)]
    pub(crate) fn next_rules(&mut self, number: u64, line: &[u8]) -> Option<Rules>
        ensures given { self.new.given ≡ self.old.given }
        ensures rules { self.new.rules ≡ Some (rules_by self.old.given self.old.rules line.now) }
        ensures record { result ≡ record_rules self.old.given self.old.rules line.now }
        ensures slip { self.new.slip ≡ slip_under result self.old.slip number line.now }
    {
        let rules = self.line_rules(line);
        self.note(&rules, number, line);
        rules
    }

    /// Under which rules the next line is a record, or none where it sets those of the stream.
    #[inline(always)]
    fn line_rules(&mut self, line: &[u8]) -> Option<Rules>
        ensures given { self.new.given ≡ self.old.given }
        ensures rules { self.new.rules ≡ Some (rules_by self.old.given self.old.rules line.now) }
        ensures record { result ≡ record_rules self.old.given self.old.rules line.now }
        ensures slip { self.new.slip ≡ self.old.slip }
    {
        match self.rules {
            Some(rules) => Some(rules),
            None => first_rules(self.given, &mut self.rules, line),
        }
    }

    /// Notes the line of this number, where it is a record, looks like a profile line and is the first that does.
    #[inline(always)]
    fn note(&mut self, rules: &Option<Rules>, number: u64, line: &[u8])
        ensures slip { self.new.slip ≡ slip_under rules.now self.old.slip number line.now }
        ensures same { (self.new.given ≡ self.old.given) × (self.new.rules ≡ self.old.rules) }
    {
        if rules.is_some() && self.slip.is_none() {
            self.slip = slip_at(number, line);
        }
    }
}

impl<A: Responder> Teller for Records<A> {
    ghost use Rattle.desk_lines.specs.Records.{AnswerRecords, AreRead};

    ghost Answer = { List ℕ };

    ghost written = { λ text. text };

    ghost most = { 4096 };

    ghost tells = { λ first now lines told report. (now.given ≡ first.given) × AreRead now lines report
        × AnswerRecords A.may_tell now.given lines told };

    ghost wants_memory = { λ _ _. ⊥ };

    fn tell<S: RowSource>(
        &mut self,
        number: u64,
        line: &[u8],
        outbox: &mut Outbox,
        source: &mut S,
    ) -> Result<LineKind, AllocError> {
        match self.next_rules(number, line) {
            Some(rules) => Ok(A::respond(rules, line, outbox, source)),
            None => Ok(LineKind::NoRecord),
        }
    }
}
