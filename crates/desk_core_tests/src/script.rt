//! Scripts line by line.
use crate::facts::{holds_in, same};
use arrayvec::ArrayVec;
use desk_script::*;
use std::alloc::{AllocError, Global};
use std::io::Print;
use std::process::Abort;
use std::test::Fail;

const HAND: &str = "waits 1112345678999m";

const SHAPE: &str = "shape 123456789m1134p";

/// A line, with A and B for the two records, and what it is told.
static SCRIPT: [(&str, &str); 23] = [
    ("open east", "table 0"),
    ("submit east A", "ticket 0"),
    ("submit east B", "ticket 1"),
    ("arrive east 1 B", "accepted"),
    ("take east", "waiting"),
    ("arrive east 0 B", "stranger"),
    ("arrive east 0 A", "accepted"),
    ("arrive east 0 A", "doubled"),
    ("take east", "answer 0 waits 123456789m"),
    ("take east", "answer 1 shanten 0 accepts 2p:4 5p:4 live 8"),
    ("arrive east 0 B", "doubled"),
    ("arrive east 5 A", "stranger"),
    ("close east", "closed"),
    ("submit east A", "refused C1"),
    ("submit east waits 8z", "refused N5 hand at 0"),
    ("take east", "finished"),
    ("close east", "closed before"),
    ("open west", "table 1"),
    ("close west", "closed"),
    ("take west", "finished"),
    ("open east", "refused P3"),
    ("take north", "refused P2"),
    ("fly", "refused P1"),
];

/// A line with the record that its last letter stands for.
fn spelled(line: &str) -> ArrayVec<u8, 64> {
    let (front, record) = match line.as_bytes().split_last() {
        Some((b'A', front)) => (front, HAND.as_bytes()),
        Some((b'B', front)) => (front, SHAPE.as_bytes()),
        _ => (line.as_bytes(), "".as_bytes()),
    };
    let mut text = ArrayVec::new();
    let _ = text.try_extend_from_slice(front);
    let _ = text.try_extend_from_slice(record);
    text
}

/// A new script. Where memory is refused, the second try has it.
fn a_script(alloc: Global) -> Result<Script, AllocError> {
    match Script::new(alloc) {
        Err(AllocError) => Script::new(alloc),
        made => made,
    }
}

/// Has a script answer a line, and compares what it is told; an empty text is nothing. Tells whether there was memory:
/// where there was none, a submission is told so, or the script stays without an answer.
fn is_told(rt: &(impl Abort + Print), script: &mut Script, line: &[u8], wanted: &str) -> bool {
    let had_memory = match script.answer(line) {
        Ok(Some(text)) if text.as_str() == "refused C3" => false,
        Ok(Some(text)) => {
            same(rt, text.as_str(), wanted);
            true
        }
        Ok(None) => {
            same(rt, "", wanted);
            true
        }
        Err(_) => false,
    };
    if !had_memory {
        let _ = println!(rt; "memory was refused");
    }
    had_memory
}

/// The same. Where memory is refused, the second try has it.
fn tells(rt: &(impl Abort + Print), script: &mut Script, line: &[u8], wanted: &str) {
    if !is_told(rt, script, line, wanted) {
        holds_in(rt, &"no memory twice", is_told(rt, script, line, wanted));
    }
}

/// Has a new script answer these lines.
fn answers(rt: &(impl Abort + Print), alloc: Global, lines: &[(&str, &str)]) -> Result<(), Fail> {
    let mut script = a_script(alloc)?;
    for (line, wanted) in lines {
        tells(rt, &mut script, spelled(line).as_slice(), wanted);
    }
    Ok(())
}

#[test]
fn a_day_at_two_tables(rt: HostRuntime) -> Result<(), Fail> {
    answers(&rt, rt.alloc(), &SCRIPT)
}

/// A day at a table that takes hands back.
static TAKEN_BACK: [(&str, &str); 20] = [
    ("open east", "table 0"),
    ("submit east A", "ticket 0"),
    ("submit east B", "ticket 1"),
    ("submit east A", "ticket 2"),
    ("withdraw east 0", "withdrawn"),
    ("withdraw east 0", "not withdrawn"),
    ("withdraw east 3", "not withdrawn"),
    ("arrive east 0 B", "withdrawn"),
    ("take east", "waiting"),
    ("arrive east 1 B", "accepted"),
    ("take east", "answer 1 shanten 0 accepts 2p:4 5p:4 live 8"),
    ("withdraw east 1", "not withdrawn"),
    ("arrive east 2 A", "accepted"),
    ("close east", "closed"),
    ("withdraw east 2", "withdrawn"),
    ("arrive east 2 A", "withdrawn"),
    ("take east", "finished"),
    ("withdraw east", "refused P1"),
    ("withdraw north 0", "refused P2"),
    ("  withdraw   east   0   ", "not withdrawn"),
];

#[test]
fn a_day_with_hands_taken_back(rt: HostRuntime) -> Result<(), Fail> {
    answers(&rt, rt.alloc(), &TAKEN_BACK)
}

/// Forms that a command may have, or not.
static FORMS: [(&str, &str); 35] = [
    ("open east", "table 0"),
    ("", ""),
    ("   ", ""),
    ("# open west", ""),
    (" # open west", "refused P1"),
    ("open", "refused P1"),
    ("open west side", "refused P1"),
    ("OPEN west", "refused P1"),
    ("open we.st", "refused P1"),
    ("open 12345678901234567890123456789012", "table 1"),
    ("open 123456789012345678901234567890123", "refused P1"),
    ("  open   West_-9  ", "table 2"),
    ("close east now", "refused P1"),
    ("take east 0", "refused P1"),
    ("submit east", "refused P1"),
    ("submit east   ", "refused P1"),
    ("submit east #", "refused P1"),
    ("submit   east   waits 1m", "refused H8"),
    ("submit east fly", "refused H2"),
    ("submit east waits 8z", "refused N5 hand at 0"),
    ("submit north fly", "refused P2"),
    ("submit east rules 2", "refused H2"),
    ("arrive east waits 1m", "refused P1"),
    ("arrive east 12345678 fly", "refused P1"),
    ("arrive east 1234567 fly", "refused H2"),
    ("arrive east 1234567", "refused P1"),
    ("arrive east 0000000 waits 1112345678999m", "stranger"),
    ("arrive east -1 waits 1112345678999m", "refused P1"),
    ("arrive east 0 #", "refused P1"),
    ("rules 1", "refused P1"),
    ("take north now", "refused P1"),
    ("withdraw east 0 now", "refused P1"),
    ("withdraw east 12345678", "refused P1"),
    ("withdraw east x", "refused P1"),
    ("withdraw east 0", "not withdrawn"),
];

#[test]
fn forms_of_commands(rt: HostRuntime) -> Result<(), Fail> {
    answers(&rt, rt.alloc(), &FORMS)
}

#[test]
fn states_its_law(_rt: HostRuntime) {
    laws::answers_are_determined();
}
