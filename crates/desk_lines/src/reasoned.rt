//! The answer to one line as JSON, which says of a win why it is so.
ghost use Rattle.std.specs.Prelude.{◌≡◌, Ok, Some};
ghost use Rattle.riichi_hand.specs.Lines.{outcome_of};
ghost use Rattle.desk_reasons.specs.Reasons.{IsExplainedWin};
ghost use Rattle.desk_lines.specs.Reasoned.{win_in, IsJobReasoned};

use super::numbered::Numbers;
use super::objects::{Members, Objects, make_object};
use super::outbox::Outbox;
use super::responder::Responder;
use desk_reasons::push_explained_win;
use riichi_hand::{Job, Refusal, Rules, WinRecord, read_line};
use riichi_shape::RowSource;

/// The answers as JSON, of a win with the member `why` at the end of its object.
pub struct Reasoned;

impl Responder for Reasoned {
    ghost use Rattle.desk_lines.specs.JsonLine.{IsRefusalObject};
    ghost use Rattle.desk_lines.specs.Reasoned.{IsReasoned, IsJobReasoned, reasoned_by_outcome, reasoned_alike};

    ghost may_tell = { IsReasoned };

    ghost tells_job = { IsJobReasoned };

    ghost tells_refusal = { IsRefusalObject };

    ghost by_outcome = { reasoned_by_outcome };

    ghost alike = { reasoned_alike };

    fn put_job<S: RowSource>(rules: Rules, job: &Job, outbox: &mut Outbox, source: &mut S) {
        make_reasoned(rules, job, outbox, source);
        outbox.put_object();
    }

    fn put_refusal(rules: Rules, line: &[u8], refusal: &Refusal<'_>, outbox: &mut Outbox) {
        Objects::put_refusal(rules, line, refusal, outbox)
    }
}

/// The same without the brace before the first member, so that another one may stand there.
pub struct ReasonedMembers;

impl Responder for ReasonedMembers {
    ghost use Rattle.desk_lines.specs.JsonLine.{AreRefusalMembers};
    ghost use Rattle.desk_lines.specs.Reasoned.{AreReasoned, AreJobReasoned, reasoned_members_by_outcome, reasoned_members_alike};

    ghost may_tell = { AreReasoned };

    ghost tells_job = { AreJobReasoned };

    ghost tells_refusal = { AreRefusalMembers };

    ghost by_outcome = { reasoned_members_by_outcome };

    ghost alike = { reasoned_members_alike };

    fn put_job<S: RowSource>(rules: Rules, job: &Job, outbox: &mut Outbox, source: &mut S) {
        make_reasoned(rules, job, outbox, source);
        outbox.put_members();
    }

    fn put_refusal(rules: Rules, line: &[u8], refusal: &Refusal<'_>, outbox: &mut Outbox) {
        Members::put_refusal(rules, line, refusal, outbox)
    }
}

impl Numbers for ReasonedMembers {
    ghost use Rattle.desk_lines.specs.Numbered.{object_front};

    ghost front = { object_front };

    fn put_number(number: u64, outbox: &mut Outbox) {
        Members::put_number(number, outbox)
    }
}

/// The win that a line is, if it is one.
pub fn win_in(rules: Rules, line: &[u8]) -> Option<WinRecord>
    ensures { result ≡ win_in (outcome_of rules line.now) }
{
    match read_line(rules, line) {
        Ok(Some(job)) => win_of(&job),
        Ok(None) | Err(_) => None,
    }
}

fn win_of(job: &Job) -> Option<WinRecord>
    ensures { result ≡ win_in (Ok (Some job.now)) }
{
    match job {
        Job::Win(win) => Some(*win),
        Job::Waits(_) | Job::Shape(_) => None,
    }
}

/// Makes the object of a job, of a win with its reasons.
fn make_reasoned<S: RowSource>(rules: Rules, job: &Job, outbox: &mut Outbox, source: &mut S)
    ensures object { IsJobReasoned rules job.now outbox.new.object.bytes }
    ensures same { outbox.new.bytes ≡ outbox.old.bytes }
{
    match job {
        Job::Win(win) => make_explained(win, outbox, source),
        Job::Waits(_) | Job::Shape(_) => make_object(rules, job, outbox, source),
    }
}

/// Makes the object of a win with its reasons.
fn make_explained<S: RowSource>(win: &WinRecord, outbox: &mut Outbox, source: &mut S)
    ensures object { IsExplainedWin win.now outbox.new.object.bytes }
    ensures same { outbox.new.bytes ≡ outbox.old.bytes }
{
    outbox.object.clear();
    push_explained_win(&mut outbox.object, win, source);
}
