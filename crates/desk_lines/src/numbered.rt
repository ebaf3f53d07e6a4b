//! Answers behind the numbers of their lines.
ghost use Rattle.std.specs.Prelude.{◌≡◌, ◌++◌, ℕ, List, None, unwrap_or};
ghost use Rattle.desk_lines.specs.Outbox.{HasRoom, HasRoomForLine};
ghost use Rattle.desk_lines.specs.Slips.{told_slip};

use super::line_kind::LineKind;
use super::outbox::Outbox;
use super::records::Records;
use super::report::{DeskReport, TextReport};
use super::responder::Responder;
use super::teller::Teller;
use riichi_hand::Rules;
use riichi_shape::RowSource;
use std::alloc::AllocError;

/// A kind of answer that may stand behind the number of its line.
pub trait Numbers: Responder {
    /// What stands before the answer to the line of this number.
    ghost front: { ℕ → List ℕ };

    /// Puts what stands before the answer to a line into the outbox.
    fn put_number(number: u64, outbox: &mut Outbox)
        requires { HasRoomForLine outbox.old }
        ensures front { outbox.new.bytes.items ≡ outbox.old.bytes.items ++ front number }
        ensures room { HasRoom outbox.new };
}

/// The teller of record lines that puts each answer behind the number of its line.
#[derive(Drop)]
pub(crate) struct Numbered<A> {
    records: Records<A>,
}

impl<A: Numbers> Numbered<A> {
    pub(crate) fn new(given: Rules) -> Numbered<A>
        ensures given { result.records.given ≡ given }
        ensures rules { result.records.rules ≡ None }
        ensures slip { result.records.slip ≡ None }
    {
        Numbered {
            records: Records::new(given),
        }
    }

    /// The report on the lines, of which so many have answers.
    pub(crate) fn report(&self, counts: DeskReport) -> TextReport
        ensures counts { result.counts ≡ counts }
        ensures slip { let records = self.now.records in
            result.slip ≡ told_slip (unwrap_or records.rules records.given) records.slip }
    {
        self.records.report(counts)
    }
}

impl<A: Numbers> Teller for Numbered<A> {
    ghost use Rattle.desk_lines.specs.Numbered.{NumberRecords};
    ghost use Rattle.desk_lines.specs.Records.{AreRead};

    ghost Answer = { ℕ × List ℕ };

    ghost written = { λ told. A.front told.0 ++ told.1 };

    ghost most = { 4096 };

    ghost tells = { λ first now lines told report. (now.records.given ≡ first.records.given)
        × AreRead now.records lines report × NumberRecords A.may_tell now.records.given lines told };

    ghost wants_memory = { λ _ _. ⊥ };

    fn tell<S: RowSource>(
        &mut self,
        number: u64,
        line: &[u8],
        outbox: &mut Outbox,
        source: &mut S,
    ) -> Result<LineKind, AllocError> {
        let Some(rules) = self.records.next_rules(number, line) else {
            return Ok(LineKind::NoRecord);
        };
        let before = outbox.len();
        A::put_number(number, outbox);
        let kind = A::respond(rules, line, outbox, source);
        if let LineKind::NoRecord = kind {
            outbox.truncate(before);
        }
        Ok(kind)
    }
}
