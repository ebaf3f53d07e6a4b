//! Pieces of answers on their way to the writer.
ghost use Rattle.std.specs.Prelude.{◌≡◌, ◌+◌, ◌≤◌, ◌∷◌, ◌++◌, [], length};
ghost use Rattle.arrayvec.specs.ArrayString.{array_string_len};
ghost use Rattle.desk_study.specs.Answers as spec;

use crate::form::StudiesForm;
use desk_json::push_code;
use desk_lines::Outbox;
use riichi_hand::{LineFault, fault_text};
use riichi_text::{ANSWER_ROOM, AnswerText, MOST_U64, push_number};

/// The bytes of the longest number of a line, with what stands beside it.
pub(crate) const MOST_FRONT: usize = "{\"line\":,".len() + MOST_U64;

/// Puts the text that stands in its room.
pub(crate) fn put_piece(outbox: &mut Outbox)
    requires { spec.HasRoomFor 0 outbox.old }
    ensures bytes { outbox.new.bytes.items ≡ outbox.old.bytes.items ++ outbox.old.text.bytes }
    ensures room { length outbox.new.bytes.items
        ≡ length outbox.old.bytes.items + array_string_len outbox.old.text }
    ensures most { length outbox.new.bytes.items ≤ length outbox.old.bytes.items + ANSWER_ROOM }
{
    let _text = outbox.text.as_str();
    outbox.put_piece();
}

/// Puts the object, or the piece of one, that stands in its room.
pub(crate) fn put_object_piece(outbox: &mut Outbox)
    requires { length outbox.old.bytes.items + array_string_len outbox.old.object ≤ 65536 }
    ensures bytes { outbox.new.bytes.items
        ≡ outbox.old.bytes.items ++ outbox.old.object.bytes }
    ensures room { length outbox.new.bytes.items
        ≡ length outbox.old.bytes.items + array_string_len outbox.old.object }
{
    outbox.put_object_piece();
}

/// Puts what ends an answer.
pub(crate) fn put_end(outbox: &mut Outbox)
    requires { spec.HasRoomFor 0 outbox.old }
    ensures { outbox.new.bytes.items ≡ outbox.old.bytes.items ++ 10 ∷ [] }
{
    outbox.text.clear();
    outbox.put_text();
}

/// Puts what stands before an answer: the number of its line, where it is told, and the brace of an object.
pub(crate) fn put_front(form: StudiesForm, number: Option<u64>, outbox: &mut Outbox)
    requires { spec.HasRoomFor 0 outbox.old }
    ensures bytes { outbox.new.bytes.items
        ≡ outbox.old.bytes.items ++ spec.form_front form number }
    ensures room { length outbox.new.bytes.items
        ≤ length outbox.old.bytes.items + MOST_FRONT }
{
    outbox.text.clear();
    match form {
        StudiesForm::Answers | StudiesForm::Explained => push_line_front(&mut outbox.text, number),
        StudiesForm::Objects => push_object_front(&mut outbox.text, number),
    }
    put_piece(outbox);
}

/// Writes the number of a line and a colon.
fn push_line_front(text: &mut AnswerText, number: Option<u64>)
    requires { text.old.bytes ≡ [] }
    ensures bytes { text.new.bytes ≡ spec.line_front number }
    ensures len { array_string_len text.new ≤ MOST_FRONT }
{
    if let Some(number) = number {
        push_number(text, number);
        text.push_str(":");
    }
}

/// Writes the brace of an object, and the number of a line as its first member.
fn push_object_front(text: &mut AnswerText, number: Option<u64>)
    requires { text.old.bytes ≡ [] }
    ensures bytes { text.new.bytes ≡ spec.brace_and_number number }
    ensures len { array_string_len text.new ≤ MOST_FRONT }
{
    match number {
        None => text.push_str("{"),
        Some(number) => {
            text.push_str("{\"line\":");
            push_number(text, number);
            text.push_str(",");
        }
    }
}

/// Puts why a line is refused.
pub(crate) fn put_fault(form: StudiesForm, fault: &LineFault, outbox: &mut Outbox)
    requires { spec.HasRoomFor ANSWER_ROOM outbox.old }
    ensures bytes { outbox.new.bytes.items
        ≡ outbox.old.bytes.items ++ spec.fault_told form fault.now }
    ensures room { length outbox.new.bytes.items ≤ length outbox.old.bytes.items + ANSWER_ROOM }
{
    match form {
        StudiesForm::Answers | StudiesForm::Explained => put_fault_text(fault, outbox),
        StudiesForm::Objects => put_fault_members(fault, outbox),
    }
}

fn put_fault_text(fault: &LineFault, outbox: &mut Outbox)
    requires { spec.HasRoomFor 0 outbox.old }
    ensures bytes { outbox.new.bytes.items
        ≡ outbox.old.bytes.items ++ spec.fault_told StudiesForm.Answers fault.now }
    ensures room { length outbox.new.bytes.items ≤ length outbox.old.bytes.items + ANSWER_ROOM }
{
    outbox.text.clear();
    outbox.text.push_str(fault_text(fault).as_str());
    put_piece(outbox);
}

/// Puts the members of a refusal behind the brace that begins its object, and the one that ends it.
fn put_fault_members(fault: &LineFault, outbox: &mut Outbox)
    requires { spec.HasRoomFor ANSWER_ROOM outbox.old }
    ensures bytes { outbox.new.bytes.items
        ≡ outbox.old.bytes.items ++ spec.fault_told StudiesForm.Objects fault.now }
    ensures room { length outbox.new.bytes.items ≤ length outbox.old.bytes.items + ANSWER_ROOM }
{
    outbox.object.clear();
    push_code(&mut outbox.object, fault);
    outbox.object.remove(0);
    outbox.object.push_str("}");
    put_object_piece(outbox);
}
