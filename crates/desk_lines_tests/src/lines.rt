//! Rows of whole texts.
use crate::facts::{holds, holds_in, same, same_in};
use crate::replay::padded;
use arrayvec::ArrayString;
use desk_io::{BytesIn, BytesOut, FromReader, ToWriter};
use desk_lines::*;
use std::alloc::Global;
use std::process::Abort;
use std::test::Fail;

/// A comment, an empty line, a line with a carriage return, and a last line without an end.
const TEXT: &[u8] = b"# table three\nwaits 1112345678999m\n\nwaits 8z\r\nwaits 123456789m1134p";

const ANSWERS: &[u8] = b"waits 123456789m\nrefused N5 hand at 0\nwaits 25p\n";

/// Answers a text, and compares what is written and counted.
fn answer(rt: &impl Abort, text: &[u8], answers: &[u8], answered: u64, refused: u64) {
    let mut reader = BytesIn::new(text, 1000, None);
    let mut writer: BytesOut<2048> = BytesOut::new(1000, None);
    let report = desk_text(Rules::One, &mut reader, &mut writer);
    same(rt, writer.bytes(), answers);
    holds_in(
        rt,
        &(answered, refused),
        report == Ok(DeskReport { answered, refused }),
    );
}

#[test]
fn profiles(rt: HostRuntime) {
    const LINE: &str = "win 123406789m22s34p on=2p by=ron seat=S round=E\n";
    const PLAIN: &str = "won 3 han 30 fu 3900 gain 3900 pinfu pure-straight\n";
    const RED: &str = "won 4 han 30 fu 8000 gain 8000 pinfu pure-straight dora 1\n";
    for &(first, told, refused) in &[
        ("", PLAIN, 0),
        ("rules 1\n", PLAIN, 0),
        ("rules 2\n", RED, 0),
        ("  rules   2 \r\n", RED, 0),
        ("rules 3\n", PLAIN, 1),
        ("rules\n", PLAIN, 1),
        ("rules 2 2\n", PLAIN, 1),
        ("rules 2\t\n", PLAIN, 1),
        ("# table\nrules 2\n", PLAIN, 1),
        ("\nrules 2\n", PLAIN, 1),
    ] {
        let mut text: ArrayString<256> = ArrayString::new();
        holds(
            &rt,
            text.try_push_str(first).is_ok() && text.try_push_str(LINE).is_ok(),
        );
        let mut answers: ArrayString<256> = ArrayString::new();
        let refusal = match first.as_bytes().split_last() {
            Some((_, [.., b'\t'])) => "refused H1\n",
            _ => "refused H2\n",
        };
        holds(&rt, refused == 0 || answers.try_push_str(refusal).is_ok());
        holds(&rt, answers.try_push_str(told).is_ok());
        answer(
            &rt,
            text.as_str().as_bytes(),
            answers.as_str().as_bytes(),
            1,
            refused,
        );
    }
    answer(&rt, b"rules 2", b"", 0, 0);
    answer(&rt, b"rules 1\nrules 2", b"refused H2\n", 0, 1);
}

#[test]
fn the_profile_of_a_line(rt: HostRuntime) {
    holds(&rt, profile_of(b" rules  2 ") == Some(Rules::Two));
    holds(
        &rt,
        profile_of(b"rules 3").is_none() && profile_of(b"rules 2 2").is_none(),
    );
}

#[test]
fn up_to_the_last_line_feed(rt: HostRuntime) {
    for &(text, ended) in &[("", 0), ("ab", 0), ("\n", 1), ("ab\nc\nd", 5)] {
        same(&rt, ended_bytes(text.as_bytes()), ended);
    }
}

#[test]
fn lines_up_to_the_limit(rt: HostRuntime) {
    for &(length, ending, told) in &[
        (4096usize, "\r\n", "waits 123456789m\n"),
        (4096, "\n", "waits 123456789m\n"),
        (4096, "\r", "waits 123456789m\n"),
        (4096, "", "waits 123456789m\n"),
        (4096, "\r\r\n", "refused H1\n"),
        (4097, "\n", "refused H1\n"),
        (4097, "", "refused H1\n"),
        (9000, "\n", "refused H1\n"),
        (9000, "\nwaits 123456789m1134p", "refused H1\nwaits 25p\n"),
    ] {
        let text = padded(b"", b"waits 1112345678999m", length, ending.as_bytes());
        for most in [1, 1000, 100_000] {
            holds(&rt, most > 0);
            let mut reader = BytesIn::new(text.as_slice(), most, None);
            let mut writer: BytesOut<64> = BytesOut::new(1000, None);
            holds(&rt, desk_text(Rules::One, &mut reader, &mut writer).is_ok());
            same_in(&rt, &(length, most), writer.bytes(), told.as_bytes());
        }
    }
}

/// Each front of a comment that is a byte too long: only the whole of it is refused.
#[test]
fn fronts_of_a_long_comment(rt: HostRuntime) -> Result<(), Fail> {
    let mut comment = Vec::new(rt.alloc());
    comment.push(b'#')?;
    for _ in 0..4096u32 {
        answer(&rt, comment.as_slice(), b"", 0, 0);
        comment.push(b'x')?;
    }
    answer(&rt, comment.as_slice(), b"refused H1\n", 0, 1);
    Ok(())
}

#[test]
fn pieces_of_any_size(rt: HostRuntime) -> Result<(), Fail> {
    for most in [1, 3, 1000] {
        holds(&rt, most > 0);
        let mut reader = BytesIn::new(TEXT, most, None);
        let mut writer: BytesOut<64> = BytesOut::new(most, None);
        let report = desk_text(Rules::One, &mut reader, &mut writer)?;
        same(&rt, report.answered, 2);
        same(&rt, report.refused, 1);
        same_in(&rt, &most, writer.bytes(), ANSWERS);
    }
    let mut reader = FromReader::new(TEXT);
    let mut room = [0; 48];
    let mut writer = ToWriter::new(room.as_mut_slice());
    holds(&rt, desk_text(Rules::One, &mut reader, &mut writer).is_ok());
    same(&rt, room.as_slice(), ANSWERS);
    Ok(())
}

/// The answers to the lines that have ended are written before each read.
#[test]
fn stops_at_each_failing_read(rt: HostRuntime) {
    for failing in 1..69u64 {
        let mut reader = BytesIn::new(TEXT, 1, Some(failing));
        let mut writer: BytesOut<64> = BytesOut::new(7, None);
        holds_in(
            &rt,
            &failing,
            desk_text(Rules::One, &mut reader, &mut writer) == Err(DeskFault::Read),
        );
        let told = match failing {
            0..36 => 0,
            36..47 => 17,
            _ => 38,
        };
        same_in(&rt, &failing, writer.bytes(), &ANSWERS[..told]);
    }
}

#[test]
fn stops_at_each_failing_write(rt: HostRuntime) {
    for failing in 1..49u64 {
        let mut reader = BytesIn::new(TEXT, 5, None);
        let mut writer: BytesOut<64> = BytesOut::new(1, Some(failing));
        holds_in(
            &rt,
            &failing,
            desk_text(Rules::One, &mut reader, &mut writer) == Err(DeskFault::Write),
        );
        same_in(
            &rt,
            &failing,
            writer.bytes(),
            &ANSWERS[..failing as usize - 1],
        );
    }
    let mut reader = BytesIn::new(TEXT, 100, None);
    let mut writer: BytesOut<9> = BytesOut::new(100, None);
    holds(
        &rt,
        desk_text(Rules::One, &mut reader, &mut writer) == Err(DeskFault::Write),
    );
    same(&rt, writer.bytes(), b"waits 123".as_slice());
}

#[test]
fn messages(rt: HostRuntime) -> Result<(), Fail> {
    for (fault, message) in [
        (DeskFault::Read, "F1: a read failed, or gave no end"),
        (DeskFault::Write, "F2: a write failed"),
        (DeskFault::Memory, "F3: memory ran out"),
    ] {
        let text = format!(in rt.alloc(); "{fault}")?;
        same(&rt, text.as_str(), message);
    }
    Ok(())
}

#[test]
fn a_text_with_the_reasons(rt: HostRuntime) {
    let text =
        b"rules 2\nwin 456m22s34p open=chi:123m,chi:678p on=2p by=ron seat=S round=E\nwaits 8z\n\nwaits 123456789m1134p\nshape 123456789m1134p";
    let told = b"no yaku
  reading 456m 234p 22s chi:123m chi:678p, 2p completes 234p: no yaku
refused N5 hand at 0
  8z
  ^ honours are 1z to 7z
waits 25p
  2p 4 left, two-sided (ryanmen); 5p 4 left, two-sided (ryanmen)
shanten 0 accepts 2p:4 5p:4 live 8
  shanten sets and a pair 0, seven pairs 5, thirteen orphans 9
";
    let mut reader = BytesIn::new(text, 7, None);
    let mut writer: BytesOut<2048> = BytesOut::new(1000, None);
    let report = desk_text_by::<Explained, SuitMemo, BytesIn, BytesOut<2048>>(
        &mut SuitMemo::in_value(),
        Rules::One,
        &mut reader,
        &mut writer,
    );
    same(&rt, writer.bytes(), told.as_slice());
    holds(
        &rt,
        report
            == Ok(TextReport {
                counts: DeskReport {
                    answered: 3,
                    refused: 1,
                },
                slip: None,
            }),
    );
}

/// The first line that looks like a profile line and sets none, with the rules of the others.
#[test]
fn the_line_that_sets_no_profile(rt: HostRuntime) {
    const ROWS: [(&[u8], Option<(u64, Rules)>); 9] = [
        (b"", None),
        (b"rules 1\nwaits 8z", None),
        (b" rules  2 \r\n# rules 1\nwaits 8z", None),
        (b"rules", Some((1, Rules::One))),
        (b"\xEF\xBB\xBFrules 2\n", Some((1, Rules::One))),
        (
            b"rules 2\nwaits 8z\n\n\t\x0C RULEs 3\r\nrules 1\n",
            Some((4, Rules::Two)),
        ),
        (b"rules 2 # of the club\n", Some((1, Rules::One))),
        (b"                            rule 2", Some((1, Rules::One))),
        (b"                             rule 2", None),
    ];
    for &(text, slip) in &ROWS {
        let mut reader = BytesIn::new(text, 7, None);
        let mut writer: BytesOut<256> = BytesOut::new(1000, None);
        let report = desk_text_by::<Plain, SuitMemo, BytesIn, BytesOut<256>>(
            &mut SuitMemo::in_value(),
            Rules::One,
            &mut reader,
            &mut writer,
        );
        let told = match slip {
            Some((line, rules)) => Some(Slip { line, rules }),
            None => None,
        };
        holds_in(&rt, &text, report.is_ok());
        if let Ok(report) = report {
            holds_in(&rt, &text, report.slip == told);
        }
    }
}

#[test]
fn the_profile_that_is_given(rt: HostRuntime) {
    let text = b"win 123406789m22s34p on=2p by=ron seat=S round=E";
    let mut reader = BytesIn::new(text, 1000, None);
    let mut writer: BytesOut<2048> = BytesOut::new(1000, None);
    holds(&rt, desk_text(Rules::Two, &mut reader, &mut writer).is_ok());
    let told = b"won 4 han 30 fu 8000 gain 8000 pinfu pure-straight dora 1\n";
    same(&rt, writer.bytes(), told.as_slice());
}

/// Two reports together, and counts that a `u64` doesn't hold.
#[test]
fn reports_together(rt: HostRuntime) {
    let few = DeskReport {
        answered: 3,
        refused: 5,
    };
    let most = DeskReport {
        answered: u64::MAX,
        refused: 0,
    };
    let others = DeskReport {
        answered: 0,
        refused: u64::MAX,
    };
    let both = DeskReport {
        answered: u64::MAX,
        refused: u64::MAX,
    };
    let twice = DeskReport {
        answered: 6,
        refused: 10,
    };
    holds(&rt, few.plus(few) == Ok(twice));
    holds(&rt, most.plus(others) == Ok(both));
    holds(&rt, most.plus(few) == Err(DeskFault::Memory));
    holds(&rt, others.plus(few) == Err(DeskFault::Memory));
}
