//! Rows of several readers, with `desk_score`.
use crate::facts::{holds, holds_in, same};
use desk_io::{BytesIn, BytesOut};
use desk_lines::DeskReport;
use desk_score::{ScoreFault, score_text, score_text_with};
use riichi_hand::Rules;
use std::alloc::{AllocError, Global};
use std::io::Print;
use std::process::Abort;
use std::test::Fail;
use std::thread::Threads;

/// A hand that is answered and one that is refused.
const FIRST: &[u8] = b"waits 1112345678999m\nwaits 8z\n";

/// The answers to these as the first of two tables, of which the second asks nothing.
const ANSWERS: &[u8] = b"table 0\nwaits 123456789m\nrefused N5 hand at 0\ntable 1\n";

/// Two readers with these texts, a byte a read; of each the read of the number given fails.
fn two_failing<'a>(
    alloc: Global,
    (first, failing): (&'a [u8], Option<u64>),
    (second, later_failing): (&'a [u8], Option<u64>),
) -> Result<Vec<BytesIn<'a>>, AllocError> {
    let mut readers = Vec::new(alloc);
    readers.push(BytesIn::new(first, 1, failing))?;
    readers.push(BytesIn::new(second, 1, later_failing))?;
    Ok(readers)
}

/// Two readers with these texts, of which no read fails.
fn two_readers<'a>(
    alloc: Global,
    first: &'a [u8],
    second: &'a [u8],
) -> Result<Vec<BytesIn<'a>>, AllocError> {
    two_failing(alloc, (first, None), (second, None))
}

/// So many readers that give nothing.
fn empty_readers(alloc: Global, count: usize) -> Result<Vec<BytesIn<'static>>, Fail> {
    let mut readers = Vec::new(alloc);
    for _ in 0..count {
        readers.push(BytesIn::new(b"", 1, None))?;
    }
    Ok(readers)
}

/// What is written, and the report on it.
fn score<R: Threads + Sync + Abort>(
    rt: &R,
    alloc: Global,
    readers: Vec<BytesIn<'_>>,
    workers: u32,
    answers: &[u8],
    report: Result<DeskReport, ScoreFault>,
) {
    let mut writer: BytesOut<2048> = BytesOut::new(1000, None);
    let told = score_text(rt, alloc, Rules::One, readers, workers, &mut writer);
    holds_in(rt, &workers, told == report);
    same(rt, writer.bytes(), answers);
}

#[test]
fn two_tables(rt: HostRuntime) -> Result<(), Fail> {
    let alloc = rt.alloc();
    let report = Ok(DeskReport {
        answered: 1,
        refused: 1,
    });
    for workers in [1, 16] {
        let readers = two_readers(alloc, FIRST, b"")?;
        score(&rt, alloc, readers, workers, ANSWERS, report);
    }
    for workers in [0, 17] {
        let readers = two_readers(alloc, FIRST, b"")?;
        score(&rt, alloc, readers, workers, b"", Err(ScoreFault::Range));
    }
    Ok(())
}

/// With names: each behind the number of its table, and each answer behind the number of its line, of which all count. What isn't
/// printed ASCII is a question mark, and a table beyond the names has an empty one.
#[test]
fn named_tables(rt: HostRuntime) -> Result<(), Fail> {
    let alloc = rt.alloc();
    let second = b"rules 2\n\n# east\nwaits 8z\r\n";
    let answers =
        b"table 0 east round\n1:waits 123456789m\n2:refused N5 hand at 0\ntable 1 a?b\n4:refused N5 hand at 0\n";
    let beyond =
        b"table 0 east round\n1:waits 123456789m\n2:refused N5 hand at 0\ntable 1 \n4:refused N5 hand at 0\n";
    let names = ["east round", "a\tb"];
    for (names, answers) in [
        (names.as_slice(), answers.as_slice()),
        (&names[..1], beyond.as_slice()),
    ] {
        let readers = two_readers(alloc, FIRST, second)?;
        let mut writer: BytesOut<2048> = BytesOut::new(1000, None);
        let told = score_text_with(&rt, alloc, Rules::One, Some(names), readers, 2, &mut writer);
        holds(&rt, told.is_ok());
        if let Ok(report) = told {
            same(&rt, report.counts.answered, 1);
            same(&rt, report.counts.refused, 2);
            same(&rt, report.slips.len(), 2);
        }
        same(&rt, writer.bytes(), answers);
    }
    Ok(())
}

#[test]
fn numbers_of_readers(rt: HostRuntime) -> Result<(), Fail> {
    let alloc = rt.alloc();
    let none = DeskReport {
        answered: 0,
        refused: 0,
    };
    let mut tables = String::new(alloc);
    for number in 0..64 {
        let line = format!(in alloc; "table {number}\n")?;
        tables.push_str(line.as_str())?;
    }
    score(
        &rt,
        alloc,
        empty_readers(alloc, 64)?,
        4,
        tables.as_bytes(),
        Ok(none),
    );
    for count in [0, 65] {
        score(
            &rt,
            alloc,
            empty_readers(alloc, count)?,
            4,
            b"",
            Err(ScoreFault::Range),
        );
    }
    Ok(())
}

/// Nothing is written, whichever read of whichever reader fails: one for each byte, and one that would find the
/// end.
#[test]
fn a_failed_read(rt: HostRuntime) -> Result<(), Fail> {
    let alloc = rt.alloc();
    for failing in 1..FIRST.len() as u64 + 2 {
        let failing = Some(failing);
        let first = two_failing(alloc, (FIRST, failing), (FIRST, None))?;
        score(&rt, alloc, first, 1, b"", Err(ScoreFault::Read));
        let second = two_failing(alloc, (FIRST, None), (FIRST, failing))?;
        score(&rt, alloc, second, 1, b"", Err(ScoreFault::Read));
    }
    Ok(())
}

/// A table of so many jobs, a line each.
fn text_of_jobs(alloc: Global, count: u32) -> Result<Vec<u8>, Fail> {
    let line = b"waits 1112345678999m\n";
    let mut text = Vec::with_capacity(alloc, count as usize * line.len())?;
    for _ in 0..count {
        text.extend_from_slice(line)?;
    }
    Ok(text)
}

/// One job more than a table may submit, whichever table has it: nothing is written.
#[test]
fn a_job_too_many(rt: HostRuntime) -> Result<(), Fail> {
    let alloc = rt.alloc();
    let long = text_of_jobs(alloc, 1_000_001)?;
    let mut readers = Vec::new(alloc);
    readers.push(BytesIn::new(FIRST, 1, None))?;
    readers.push(BytesIn::new(long.as_slice(), 65_536, None))?;
    score(&rt, alloc, readers, 4, b"", Err(ScoreFault::Range));
    Ok(())
}

/// Each byte before the failed write is there, and no further one.
#[test]
fn a_failed_write(rt: HostRuntime) -> Result<(), Fail> {
    let alloc = rt.alloc();
    for (place, _) in ANSWERS.iter().enumerate() {
        let mut writer: BytesOut<2048> = BytesOut::new(1, Some(place as u64 + 1));
        let readers = two_readers(alloc, FIRST, b"")?;
        let told = score_text(&rt, alloc, Rules::One, readers, 1, &mut writer);
        holds_in(&rt, &place, told == Err(ScoreFault::Write));
        same(&rt, writer.bytes(), &ANSWERS[..place]);
    }
    Ok(())
}

/// Whether the two tables are answered. Where memory is refused that is the fault, and nothing is written.
fn is_scored(rt: &(impl Threads + Sync + Abort + Print), alloc: Global) -> bool {
    let Ok(readers) = two_readers(alloc, FIRST, b"") else {
        return false;
    };
    let mut writer: BytesOut<2048> = BytesOut::new(1000, None);
    let told = score_text(rt, alloc, Rules::One, readers, 2, &mut writer);
    match told {
        Ok(report) => {
            holds(rt, report.answered == 1 && report.refused == 1);
            same(rt, writer.bytes(), ANSWERS);
            return true;
        }
        Err(fault) => {
            holds_in(rt, &fault, fault == ScoreFault::Memory);
            let _ = println!(rt; "memory was refused");
        }
    }
    same(rt, writer.bytes(), b"".as_slice());
    false
}

/// Where one request for memory is refused, the second call has it.
#[test]
fn a_request_refused_at_the_call(rt: HostRuntime) {
    let alloc = rt.alloc();
    holds_in(
        &rt,
        &"no memory twice",
        is_scored(&rt, alloc) || is_scored(&rt, alloc),
    );
}

/// A table's first line sets the profile of that table alone.
#[test]
fn a_profile_of_one_table(rt: HostRuntime) -> Result<(), Fail> {
    let alloc = rt.alloc();
    let first = b"rules 2\nwin 123406789m22s34p on=2p by=ron seat=S round=E\n";
    let second = b"win 123406789m22s34p on=2p by=ron seat=S round=E\n";
    let answers =
        b"table 0\nwon 4 han 30 fu 8000 gain 8000 pinfu pure-straight dora 1\ntable 1\nwon 3 han 30 fu 3900 gain 3900 pinfu pure-straight\n";
    let report = Ok(DeskReport {
        answered: 2,
        refused: 0,
    });
    let readers = two_readers(alloc, first, second)?;
    score(&rt, alloc, readers, 2, answers, report);
    Ok(())
}

#[test]
fn messages(rt: HostRuntime) -> Result<(), Fail> {
    let told = [
        (ScoreFault::Read, 3, "F1: a read failed, or gave no end"),
        (ScoreFault::Write, 3, "F2: a write failed"),
        (ScoreFault::Memory, 4, "F3: memory ran out"),
        (
            ScoreFault::Range,
            2,
            "B1: too many or too few tables, workers or jobs",
        ),
        (ScoreFault::Thread, 4, "B4: a worker could not be started"),
    ];
    for (fault, status, text) in told {
        let message = format!(in rt.alloc(); "{fault}")?;
        same(&rt, message.as_str(), text);
        let code = format!(in rt.alloc(); "{}:", fault.code())?;
        holds(
            &rt,
            message.as_str().starts_with(code.as_str()) && fault.words().len() > 10,
        );
        same(&rt, fault.status(), status);
    }
    Ok(())
}
