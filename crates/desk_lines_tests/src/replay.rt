//! Whole scripts. Where memory is refused, a script ends by `DeskFault::Memory`, or a submission is told so.
use crate::facts::{holds_in, same, same_in};
use arrayvec::{ArrayString, ArrayVec};
use desk_io::{BytesIn, BytesOut};
use desk_lines::*;
use std::io::Print;
use std::process::Abort;

/// Two tables, a job of each kind but a win, and each answer and refusal that they can have.
const SCRIPT: &[u8] = b"open east
submit east waits 1112345678999m
submit east shape 123456789m1134p
arrive east 1 shape 123456789m1134p
take east
arrive east 0 shape 123456789m1134p
arrive east 0 waits 1112345678999m
arrive east 0 waits 1112345678999m
take east
take east
arrive east 0 shape 123456789m1134p
arrive east 5 waits 1112345678999m
close east
submit east waits 1112345678999m
take east
close east
open west
close west
take west
open east
take north
fly
";

const ANSWERS: &[u8] = b"table 0
ticket 0
ticket 1
accepted
waiting
stranger
accepted
doubled
answer 0 waits 123456789m
answer 1 shanten 0 accepts 2p:4 5p:4 live 8
doubled
stranger
closed
refused C1
finished
closed before
table 1
closed
finished
refused P3
refused P2
refused P1
";

/// A table that takes hands back.
const TAKEN_BACK: &[u8] = b"open east
submit east waits 1112345678999m
submit east shape 123456789m1134p
submit east waits 1112345678999m
withdraw east 0
withdraw east 0
withdraw east 3
arrive east 0 shape 123456789m1134p
take east
arrive east 1 shape 123456789m1134p
take east
withdraw east 1
arrive east 2 waits 1112345678999m
close east
withdraw east 2
arrive east 2 waits 1112345678999m
take east
withdraw east
withdraw north 0
";

const ANSWERS_TO_THAT: &[u8] = b"table 0
ticket 0
ticket 1
ticket 2
withdrawn
not withdrawn
not withdrawn
withdrawn
waiting
accepted
answer 1 shanten 0 accepts 2p:4 5p:4 live 8
not withdrawn
accepted
closed
withdrawn
withdrawn
finished
refused P1
refused P2
";

/// How many lines a text has.
fn count_lines(text: &[u8]) -> usize {
    text.iter().filter(|byte| **byte == b'\n').count()
}

/// Whether what was written begins the answers, or does so up to a submission that found no memory.
fn is_front(written: &[u8], answers: &[u8]) -> bool {
    let mut rest = answers.split(|byte| *byte == b'\n');
    for line in written.split(|byte| *byte == b'\n') {
        match rest.next() {
            Some(wanted) if wanted == line => {}
            Some(wanted) => return wanted.starts_with(line) || b"refused C3".starts_with(line),
            None => return false,
        }
    }
    true
}

/// Replays a text, and compares what is written and counted. Tells whether there was memory.
fn is_replayed(
    rt: &(impl Abort + AllocGlobal + Print),
    text: &[u8],
    answers: &[u8],
    answered: u64,
    refused: u64,
) -> bool {
    let mut reader = BytesIn::new(text, 1000, None);
    let mut writer: BytesOut<2048> = BytesOut::new(1000, None);
    match replay_text(rt.alloc(), &mut reader, &mut writer) {
        Ok(report) if writer.bytes() == answers => {
            holds_in(
                rt,
                &(answered, refused),
                report == DeskReport { answered, refused },
            );
            true
        }
        Ok(_) | Err(DeskFault::Memory) => {
            let _ = println!(rt; "memory was refused");
            holds_in(rt, &"another answer", is_front(writer.bytes(), answers));
            false
        }
        Err(fault) => {
            holds_in(rt, &fault, false);
            false
        }
    }
}

/// The same. Where memory is refused, the second try has it.
fn replay(
    rt: &(impl Abort + AllocGlobal + Print),
    text: &[u8],
    answers: &[u8],
    answered: u64,
    refused: u64,
) {
    if !is_replayed(rt, text, answers, answered, refused) {
        holds_in(
            rt,
            &"no memory twice",
            is_replayed(rt, text, answers, answered, refused),
        );
    }
}

#[test]
fn two_tables(rt: HostRuntime) {
    replay(&rt, SCRIPT, ANSWERS, 18, 4);
    replay(&rt, b"", b"", 0, 0);
    replay(&rt, b"# nothing\n\n   \n", b"", 0, 0);
    let text = b"rules 2\nopen a\r\nopen b";
    replay(&rt, text, b"refused P1\ntable 0\ntable 1\n", 2, 1);
}

#[test]
fn hands_taken_back(rt: HostRuntime) {
    replay(&rt, TAKEN_BACK, ANSWERS_TO_THAT, 17, 2);
}

/// A text of some bytes behind a front, made longer by spaces, and an ending.
pub(crate) fn padded(
    front: &[u8],
    text: &[u8],
    length: usize,
    ending: &[u8],
) -> ArrayVec<u8, 20_100> {
    let mut all = ArrayVec::new();
    let _ = all.try_extend_from_slice(front);
    let _ = all.try_extend_from_slice(text);
    for _ in text.len()..length {
        let _ = all.try_push(b' ');
    }
    let _ = all.try_extend_from_slice(ending);
    all
}

#[test]
fn lines_up_to_the_limit(rt: HostRuntime) {
    const HAND: &[u8] = b"waits 1112345678999m";
    let whole = padded(b"open east\nsubmit east ", HAND, 4096, b"\n");
    replay(&rt, whole.as_slice(), b"table 0\nticket 0\n", 2, 0);
    let longer = padded(b"open east\nsubmit east ", HAND, 4097, b"");
    replay(&rt, longer.as_slice(), b"table 0\nrefused H1\n", 1, 1);
    for &ending in &["\n", "\r\n", ""] {
        let line = padded(b"", b"open east", 8192, ending.as_bytes());
        replay(&rt, line.as_slice(), b"table 0\n", 1, 0);
    }
    for &(length, ending) in &[(8193, "\n"), (8193, ""), (20_000, "\r\n")] {
        let line = padded(b"", b"open east", length, ending.as_bytes());
        replay(&rt, line.as_slice(), b"refused P1\n", 0, 1);
    }
}

/// Adds a line with a word and a number below 100.
fn push_numbered(text: &mut ArrayString<2048>, word: &str, number: u8) {
    let _ = text.try_push_str(word);
    if number >= 10 {
        let _ = text.try_push((b'0' + number / 10) as char);
    }
    let _ = text.try_push((b'0' + number % 10) as char);
    let _ = text.try_push('\n');
}

#[test]
fn one_table_too_many(rt: HostRuntime) {
    let mut text = ArrayString::new();
    let mut answers = ArrayString::new();
    for number in 0..64u8 {
        push_numbered(&mut text, "open table-", number);
        push_numbered(&mut answers, "table ", number);
    }
    let more = "open table-64\nopen table-63\nopen table-0\ntake table-64\ntake table-63\n";
    let _ = text.try_push_str(more);
    let _ = answers.try_push_str("refused P4\nrefused P3\nrefused P3\nrefused P2\nwaiting\n");
    replay(
        &rt,
        text.as_str().as_bytes(),
        answers.as_str().as_bytes(),
        65,
        4,
    );
}

/// The answers to the lines that have ended are written before each read.
#[test]
fn stops_at_each_failing_read(rt: HostRuntime) {
    let mut was_refused = false;
    for read in 1..443u64 {
        let mut reader = BytesIn::new(SCRIPT, 1, Some(read));
        let mut writer: BytesOut<1024> = BytesOut::new(7, None);
        let fault = replay_text(rt.alloc(), &mut reader, &mut writer);
        match fault {
            Err(DeskFault::Read) => {
                let ended = count_lines(&SCRIPT[..read as usize - 1]);
                same_in(&rt, &read, count_lines(writer.bytes()), ended);
            }
            fault => {
                holds_in(&rt, &read, fault == Err(DeskFault::Memory) && !was_refused);
                was_refused = true;
            }
        }
        holds_in(&rt, &read, is_front(writer.bytes(), ANSWERS));
    }
}

#[test]
fn stops_at_each_failing_write(rt: HostRuntime) {
    let mut was_refused = false;
    for write in 1..255u64 {
        let mut reader = BytesIn::new(SCRIPT, 50, None);
        let mut writer: BytesOut<1024> = BytesOut::new(1, Some(write));
        let fault = replay_text(rt.alloc(), &mut reader, &mut writer);
        match fault {
            Err(DeskFault::Write) => same(&rt, writer.bytes().len() as u64, write - 1),
            // A submission found no memory, and the answers are fewer bytes.
            Ok(_) => {
                holds_in(&rt, &write, writer.bytes() != ANSWERS && !was_refused);
                was_refused = true;
            }
            fault => {
                holds_in(&rt, &write, fault == Err(DeskFault::Memory) && !was_refused);
                was_refused = true;
            }
        }
        holds_in(&rt, &write, is_front(writer.bytes(), ANSWERS));
    }
}
