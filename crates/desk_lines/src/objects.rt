//! The answer to one line as JSON.
ghost use Rattle.std.specs.Prelude.{◌≡◌};
ghost use Rattle.desk_core.specs.Value.{value_of};
ghost use Rattle.desk_json.specs.Text as spec;
ghost use Rattle.riichi_hand.specs.Refusals.{IsRefusalOf};

use super::numbered::Numbers;
use super::outbox::Outbox;
use super::responder::Responder;
use desk_core::judge_with;
use desk_json::{push_answer, push_refusal};
use riichi_hand::{Job, Refusal, Rules};
use riichi_shape::RowSource;

/// The answers as JSON: an object on a line for each record.
pub struct Objects;

impl Responder for Objects {
    ghost use Rattle.desk_lines.specs.JsonLine.{json_of, json_alike, IsJobObject, IsRefusalObject, objects_by_outcome};
    ghost use Rattle.desk_lines.specs.LineAnswer.{IsBy};

    ghost may_tell = { IsBy json_of };

    ghost tells_job = { IsJobObject };

    ghost tells_refusal = { IsRefusalObject };

    ghost by_outcome = { objects_by_outcome };

    ghost alike = { json_alike };

    fn put_job<S: RowSource>(rules: Rules, job: &Job, outbox: &mut Outbox, source: &mut S) {
        make_object(rules, job, outbox, source);
        outbox.put_object();
    }

    fn put_refusal(rules: Rules, line: &[u8], refusal: &Refusal<'_>, outbox: &mut Outbox) {
        make_refusal(line, refusal, outbox);
        outbox.put_object();
    }
}

/// The answers as JSON without the brace before the first member, so that another one may stand there.
pub struct Members;

impl Responder for Members {
    ghost use Rattle.desk_lines.specs.JsonLine.{IsMembers, members_alike, AreJobMembers, AreRefusalMembers, members_by_outcome};

    ghost may_tell = { IsMembers };

    ghost tells_job = { AreJobMembers };

    ghost tells_refusal = { AreRefusalMembers };

    ghost by_outcome = { members_by_outcome };

    ghost alike = { members_alike };

    fn put_job<S: RowSource>(rules: Rules, job: &Job, outbox: &mut Outbox, source: &mut S) {
        make_object(rules, job, outbox, source);
        outbox.put_members();
    }

    fn put_refusal(rules: Rules, line: &[u8], refusal: &Refusal<'_>, outbox: &mut Outbox) {
        make_refusal(line, refusal, outbox);
        outbox.put_members();
    }
}

impl Numbers for Members {
    ghost use Rattle.desk_lines.specs.Numbered.{object_front};

    ghost front = { object_front };

    fn put_number(number: u64, outbox: &mut Outbox) {
        outbox.put_number("{\"line\":", number, ",")
    }
}

/// Makes the object of a job under these rules.
pub(crate) fn make_object<S: RowSource>(
    rules: Rules,
    job: &Job,
    outbox: &mut Outbox,
    source: &mut S,
)
    ensures object { outbox.new.object.bytes
        ≡ spec.answer_json rules (value_of job.now) }
    ensures same { outbox.new.bytes ≡ outbox.old.bytes }
{
    outbox.object.clear();
    push_answer(&mut outbox.object, rules, &judge_with(source, job));
}

/// Makes the object of a refusal.
fn make_refusal(line: &[u8], refusal: &Refusal<'_>, outbox: &mut Outbox)
    requires { IsRefusalOf line.now refusal.now }
    ensures object { outbox.new.object.bytes ≡ spec.refusal_json line.now refusal.now.fault }
    ensures same { outbox.new.bytes ≡ outbox.old.bytes }
{
    outbox.object.clear();
    push_refusal(&mut outbox.object, line, refusal);
}
