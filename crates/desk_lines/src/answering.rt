//! The answer to one line.
ghost use Rattle.std.specs.Prelude.{◌≡◌, ◌+◌, ◌≤◌, ◌∷◌, ◌++◌, [], length};
ghost use Rattle.riichi_hand.specs.FaultTexts as spec_fault;
ghost use Rattle.riichi_shape.specs.Answer.{shape_answer_of};
ghost use Rattle.riichi_shape.specs.Text as spec_shape;
ghost use Rattle.riichi_split.specs.Waits as spec_waits;
ghost use Rattle.desk_lines.specs.Outbox.{HasRoom};

use super::line_kind::LineKind;
use super::numbered::Numbers;
use super::outbox::{MOST_TEXT_LINE, Outbox};
use super::responder::Responder;
use riichi_cuts::waits_with;
use riichi_hand::{Job, LineFault, Refusal, Rules, ShapeRecord, fault_text, read_line};
use riichi_score::{best, push_win};
use riichi_shape::{RowSource, push_shape, shape_with};
use riichi_split::push_waits;
use riichi_tiles::KindSet;

/// The plain answers: a line for each record.
pub struct Plain;

impl Responder for Plain {
    ghost use Rattle.desk_lines.specs.LineAnswer.{answer_of, IsBy};
    ghost use Rattle.desk_lines.specs.LongLines.{answers_alike};
    ghost use Rattle.desk_lines.specs.Outcomes.{IsPlainJob, IsPlainRefusal, plain_by_outcome};

    ghost may_tell = { IsBy answer_of };

    ghost tells_job = { IsPlainJob };

    ghost tells_refusal = { IsPlainRefusal };

    ghost by_outcome = { plain_by_outcome };

    ghost alike = { answers_alike };

    fn put_job<S: RowSource>(rules: Rules, job: &Job, outbox: &mut Outbox, source: &mut S) {
        match job {
            Job::Win(win) => {
                outbox.text.clear();
                push_win(&mut outbox.text, &best(win));
                outbox.put_text();
            }
            Job::Waits(hand) => put_waits(waits_with(source, hand), outbox),
            Job::Shape(tiles) => put_shape(tiles, outbox, source),
        }
    }

    fn put_refusal(rules: Rules, line: &[u8], refusal: &Refusal<'_>, outbox: &mut Outbox) {
        put_fault(&refusal.fault, outbox)
    }

    /// The same as any kind's, and without the place of a refusal, of which no word is told.
    fn respond<S: RowSource>(
        rules: Rules,
        line: &[u8],
        outbox: &mut Outbox,
        source: &mut S,
    ) -> LineKind {
        match read_line(rules, line) {
            Ok(None) => LineKind::NoRecord,
            Ok(Some(job)) => {
                Plain::put_job(rules, &job, outbox, source);
                LineKind::Answered
            }
            Err(fault) => {
                put_fault(&fault, outbox);
                LineKind::Refused
            }
        }
    }
}

impl Numbers for Plain {
    ghost use Rattle.desk_lines.specs.Numbered.{words_front};

    ghost front = { words_front };

    fn put_number(number: u64, outbox: &mut Outbox) {
        outbox.put_number("", number, ":")
    }
}

pub(crate) fn put_fault(fault: &LineFault, outbox: &mut Outbox)
    requires { HasRoom outbox.old }
    ensures room { length outbox.new.bytes.items ≤ length outbox.old.bytes.items + MOST_TEXT_LINE }
    ensures told { outbox.new.bytes.items
        ≡ outbox.old.bytes.items ++ (spec_fault.fault_text fault.now ++ 10 ∷ []) }
{
    outbox.put_line(fault_text(fault).as_str().as_bytes());
}

pub(crate) fn put_waits(kinds: KindSet, outbox: &mut Outbox)
    requires { HasRoom outbox.old }
    ensures room { length outbox.new.bytes.items ≤ length outbox.old.bytes.items + MOST_TEXT_LINE }
    ensures told { outbox.new.bytes.items
        ≡ outbox.old.bytes.items
        ++ (spec_waits.waits_text kinds ++ 10 ∷ []) }
{
    outbox.text.clear();
    push_waits(&mut outbox.text, kinds);
    outbox.put_text();
}

pub(crate) fn put_shape<S: RowSource>(tiles: &ShapeRecord, outbox: &mut Outbox, source: &mut S)
    requires { HasRoom outbox.old }
    ensures room { length outbox.new.bytes.items ≤ length outbox.old.bytes.items + MOST_TEXT_LINE }
    ensures told { outbox.new.bytes.items
        ≡ outbox.old.bytes.items ++ (spec_shape.shape_text (shape_answer_of tiles.now) ++ 10 ∷ []) }
{
    outbox.text.clear();
    push_shape(&mut outbox.text, &shape_with(source, tiles));
    outbox.put_text();
}
