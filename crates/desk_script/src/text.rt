//! The answer to a line of a script, as text.
ghost use Rattle.std.specs.Prelude.{◌≡◌, ◌++◌, ◌+◌, ◌≤◌};
ghost use Rattle.arrayvec.specs.ArrayString.{array_string_len};
ghost use Rattle.desk_script.specs.Texts as spec;

use crate::refusal::Refusal;
use crate::told::Told;
use arrayvec::ArrayString;
use desk_core::{Arrived, Reply, SubmitFault, Taken, answer_text};
use riichi_hand::fault_text;
use riichi_text::{ANSWER_ROOM, MOST_U32, push_number};

/// The bytes of the longest text: an answer behind a word and a ticket's number.
pub const LONGEST: usize = "answer ".len() + MOST_U32 + " ".len() + ANSWER_ROOM;

/// The line that answers a line of a script, without the line's end; none where it has no answer.
#[tactic(auto, unfolding(crate::specs::Texts::told_text))]
pub fn told_text(told: &Told) -> Option<ArrayString<LONGEST>>
    ensures { spec.bytes_of result ≡ spec.told_text told.now }
{
    let mut text = ArrayString::new();
    match told {
        Told::Nothing => return None,
        Told::Refused(refusal) => push_refusal(&mut text, refusal),
        Told::Table(number) => {
            text.push_str("table ");
            push_number(&mut text, *number);
        }
        Told::Replied(reply) => push_reply(&mut text, reply),
    }
    Some(text)
}

fn push_refusal(text: &mut ArrayString<LONGEST>, refusal: &Refusal)
    requires { array_string_len text.old ≡ 0 }
    ensures { text.new.bytes ≡ text.old.bytes ++ spec.refusal_text refusal.now }
{
    match refusal {
        Refusal::NoCommand => text.push_str("refused P1"),
        Refusal::NotOpen => text.push_str("refused P2"),
        Refusal::OpenAlready => text.push_str("refused P3"),
        Refusal::AllOpen => text.push_str("refused P4"),
        Refusal::Record(fault) => text.push_str(fault_text(fault).as_str()),
    }
}

fn push_reply(text: &mut ArrayString<LONGEST>, reply: &Reply)
    requires { array_string_len text.old ≡ 0 }
    ensures { text.new.bytes ≡ text.old.bytes ++ spec.reply_text reply.now }
{
    match reply {
        Reply::NoTable => text.push_str("refused P2"),
        Reply::Ticket(ticket) => {
            text.push_str("ticket ");
            push_number(text, ticket.seq);
        }
        Reply::Refused(fault) => text.push_str(submit_fault_text(*fault)),
        Reply::Arrived(arrived) => text.push_str(arrived_text(*arrived)),
        Reply::Closed(first) => text.push_str(if *first { "closed" } else { "closed before" }),
        Reply::Taken(taken) => push_taken(text, taken),
        Reply::Withdrawn(done) => text.push_str(if *done { "withdrawn" } else { "not withdrawn" }),
    }
}

fn push_taken(text: &mut ArrayString<LONGEST>, taken: &Taken)
    requires { array_string_len text.old ≡ 0 }
    ensures { text.new.bytes ≡ text.old.bytes ++ spec.taken_text taken.now }
{
    match taken {
        Taken::Answer { seq, answer } => {
            text.push_str("answer ");
            push_number(text, *seq);
            text.push_str(" ");
            text.push_str(answer_text(answer).as_str());
        }
        Taken::Waiting => text.push_str("waiting"),
        Taken::Finished => text.push_str("finished"),
    }
}

fn submit_fault_text(fault: SubmitFault) -> &'static str
    ensures { result.now ≡ spec.submit_fault_text fault }
{
    match fault {
        SubmitFault::Closed => "refused C1",
        SubmitFault::Limit => "refused C2",
        SubmitFault::Memory => "refused C3",
    }
}

fn arrived_text(arrived: Arrived) -> &'static str
    ensures { result.now ≡ spec.arrived_text arrived }
{
    match arrived {
        Arrived::Accepted => "accepted",
        Arrived::Withdrawn => "withdrawn",
        Arrived::Doubled => "doubled",
        Arrived::Stranger => "stranger",
    }
}
