//! The answers of many threads beside those of one.
ghost use Rattle.std.specs.Prelude.{◌<◌};

use crate::facts::{holds, holds_in, same, same_in};
use desk_crew::Crew;
use desk_io::{BytesIn, BytesOut};
use desk_lines::{DeskFault, Objects, Plain, SuitMemo, TextReport, desk_text_by};
use riichi_hand::Rules;
use std::alloc::{AllocError, Global};
use std::process::Abort;
use std::test::Fail;
use std::thread::Threads;

/// Answers, and room for those of any text here.
type Room = BytesOut<16_384>;

/// A line of so many bytes.
fn long_line(alloc: Global, len: usize) -> Result<Vec<u8>, AllocError> {
    let mut line = Vec::new(alloc);
    line.resize(len, b'x')?;
    Ok(line)
}

/// By so many threads and rounds of so many bytes the answers and the report are those of one.
fn as_one<H: Threads + Sync + Abort>(
    rt: &H,
    alloc: Global,
    text: &[u8],
    most: usize,
) -> Result<(), Fail>
    requires { 0 < most }
{
    let mut writer: Room = BytesOut::new(1_000, None);
    let report = desk_text_by::<Plain, SuitMemo, BytesIn, Room>(
        &mut SuitMemo::in_value(),
        Rules::One,
        &mut BytesIn::new(text, most, None),
        &mut writer,
    );
    for (workers, enough) in [(1, 1), (2, 100), (4, 5_000), (16, 40)] {
        let mut reader = BytesIn::new(text, most, None);
        let mut many: Room = BytesOut::new(1_000, None);
        let mut crew = Crew::of(alloc, workers, enough)?;
        let told = crew.answer_text::<Plain, H, BytesIn, Room>(
            rt,
            Rules::One,
            &mut reader,
            &mut many,
        );
        holds_in(rt, &(workers, enough), told == report);
        same_in(rt, &(workers, enough), many.bytes(), writer.bytes());
    }
    Ok(())
}

#[test]
fn small_texts(rt: HostRuntime) -> Result<(), Fail> {
    let alloc = rt.alloc();
    static TEXTS: [&[u8]; 11] = [
        b"",
        b"\n",
        b"waits 1112345678999m",
        b"waits 1112345678999m\n",
        b"rules 2",
        b"rules 2\r\nwin 123m456p789s11z22z on=2z by=ron\n",
        b"# a comment\nrules 2\nwaits 8z\r\n\r\nwaits 1112345678999m\r",
        b"waits 8z\nwaits 1112345678999m\nrules 2\nwin 123m456p789s11z22z on=2z by=ron seat=S round=E\nwaits 8z\r",
        b" Rules 2\nwaits 8z\n",
        b"rules 2\n# rules 1\nwaits 8z\n\xEF\xBB\xBFrules 1\nrules 1",
        b"rules 2\nrules 2\nwaits 8z\nwaits 1112345678999m\nshape 123456789m11348p\nwaits 1m",
    ];
    for &text in &TEXTS {
        as_one(&rt, alloc, text, 7)?;
    }
    Ok(())
}

/// Lines of the most bytes that are looked at, of one more, and of more than a round has.
#[test]
fn long_lines(rt: HostRuntime) -> Result<(), Fail> {
    let alloc = rt.alloc();
    for &(len, end) in &[
        (4_096, "\n"),
        (4_096, "\r\n"),
        (4_097, "\r"),
        (8_194, ""),
        (20_000, "\r\n"),
    ] {
        let mut text = long_line(alloc, len)?;
        text.extend_from_slice(end.as_bytes())?;
        let mut later = Vec::new(alloc);
        later.extend_from_slice(b"waits 8z\nwaits 1112345678999m\n")?;
        later.extend_from_slice(text.as_slice())?;
        later.extend_from_slice(b"waits 8z\n")?;
        as_one(&rt, alloc, later.as_slice(), 3_000)?;
    }
    Ok(())
}

/// Each read fails in turn, and each write: what was written is a front of the answers, and a failed read is told once the lines
/// before it are answered.
#[test]
fn failures(rt: HostRuntime) -> Result<(), Fail> {
    let alloc = rt.alloc();
    let text = b"waits 1112345678999m\nwaits 8z\nwaits 1112345678999m\n".as_slice();
    let all = b"waits 123456789m\nrefused N5 hand at 0\nwaits 123456789m\n".as_slice();
    let fronts = [0, 0, 0, 0, 38, 38, 38];
    for number in 1..=6 {
        let mut reader = BytesIn::new(text, 10, Some(number));
        let mut writer: Room = BytesOut::new(1_000, None);
        let mut crew = Crew::new(alloc, 4)?;
        let told = crew.answer_text::<Plain, HostRuntime, BytesIn, Room>(
            &rt,
            Rules::One,
            &mut reader,
            &mut writer,
        );
        holds_in(&rt, &number, told == Err(DeskFault::Read));
        let front = &all[..fronts[number as usize]];
        same_in(&rt, &number, writer.bytes(), front);
    }
    for number in 1..=6 {
        let mut reader = BytesIn::new(text, 10, None);
        let mut writer: Room = BytesOut::new(10, Some(number));
        let mut crew = Crew::new(alloc, 4)?;
        let told = crew.answer_text::<Plain, HostRuntime, BytesIn, Room>(
            &rt,
            Rules::One,
            &mut reader,
            &mut writer,
        );
        holds_in(&rt, &number, told == Err(DeskFault::Write));
        holds_in(&rt, &number, all.starts_with(writer.bytes()));
    }
    Ok(())
}

/// Whether one line is answered, and one refused.
fn is_one_of_each(told: &Result<TextReport, DeskFault>) -> bool {
    match told {
        Ok(report) => report.counts.answered == 1 && report.counts.refused == 1,
        Err(_) => false,
    }
}

/// As JSON.
#[test]
fn objects(rt: HostRuntime) -> Result<(), Fail> {
    for of_objects in [true, false] {
        let mut reader = BytesIn::new(b"waits 1112345678999m\nwaits 8z\n", 10, None);
        let mut writer: Room = BytesOut::new(1_000, None);
        let mut crew = if of_objects {
            Crew::for_objects(rt.alloc(), 40)?
        } else {
            Crew::new(rt.alloc(), 40)?
        };
        let report = crew.answer_text::<Objects, HostRuntime, BytesIn, Room>(
            &rt,
            Rules::One,
            &mut reader,
            &mut writer,
        );
        holds_in(&rt, &of_objects, is_one_of_each(&report));
        holds_in(&rt, &of_objects, writer.bytes().starts_with(b"{"));
    }
    Ok(())
}

/// A crew answers one text after another, each as if it were alone: under its own profile, and from its own first line on.
#[test]
fn one_after_another(rt: HostRuntime) -> Result<(), Fail> {
    let mut crew = Crew::new(rt.alloc(), 3)?;
    for &(text, answers) in &[
        (
            "rules 2\nwin 123406789m22s34p on=2p by=ron seat=S round=E",
            "won 4 han 30 fu 8000 gain 8000 pinfu pure-straight dora 1\n",
        ),
        (
            "win 123406789m22s34p on=2p by=ron seat=S round=E\n",
            "won 3 han 30 fu 3900 gain 3900 pinfu pure-straight\n",
        ),
    ] {
        let mut reader = BytesIn::new(text.as_bytes(), 10, None);
        let mut writer: Room = BytesOut::new(1_000, None);
        let told = crew.answer_text::<Plain, HostRuntime, BytesIn, Room>(
            &rt,
            Rules::One,
            &mut reader,
            &mut writer,
        );
        holds(&rt, told.is_ok());
        same(&rt, writer.bytes(), answers.as_bytes());
    }
    Ok(())
}

/// Where one request for memory is refused a front of the answers was written, and the second call has it.
#[test]
fn a_request_refused_at_the_call(rt: HostRuntime) {
    let alloc = rt.alloc();
    holds(&rt, is_answered(&rt, alloc) || is_answered(&rt, alloc));
}

/// Whether a text is answered in some rounds by three threads; else there was no memory, and a front of the answers was written.
fn is_answered<H: Threads + Sync + Abort>(rt: &H, alloc: Global) -> bool {
    let text = b"waits 1112345678999m\nwaits 8z\nshape 123456789m11348p\nwaits 1112345678999m";
    let all =
        b"waits 123456789m\nrefused N5 hand at 0\nshanten 0 discard 8p accepts 2p:4 5p:4 live 8\nwaits 123456789m\n".as_slice();
    let mut reader = BytesIn::new(text, 30, None);
    let mut writer: Room = BytesOut::new(1_000, None);
    match by_three(rt, alloc, &mut reader, &mut writer) {
        Ok(_) => {
            same(rt, writer.bytes(), all);
            true
        }
        Err(fault) => {
            same(rt, fault, DeskFault::Memory);
            holds(rt, all.starts_with(writer.bytes()));
            false
        }
    }
}

/// By three threads and rounds of 40 bytes.
fn by_three<H: Threads + Sync>(
    rt: &H,
    alloc: Global,
    reader: &mut BytesIn<'_>,
    writer: &mut Room,
) -> Result<TextReport, DeskFault> {
    let mut crew = Crew::of(alloc, 3, 40)?;
    crew.answer_text::<Plain, H, BytesIn, Room>(rt, Rules::One, reader, writer)
}
