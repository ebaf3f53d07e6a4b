//! Rows of whole texts, answered as JSON.
use crate::facts::{holds, holds_in, same_in};
use desk_io::{BytesIn, BytesOut};
use desk_lines::*;
use std::test::Fail;

/// A profile, a comment, an empty line, a line with a carriage return, and a last line without an end.
const TEXT: &[u8] = b"rules 2
win 123406789m22s34p on=2p by=ron seat=S round=E
# table three

waits 8z\r
waits 123456789m1134p
wait 1112345678999m
shape 123456789m11348p";

const OBJECTS: &[u8] =
    b"{\"answer\":\"won\",\"yakuman\":false,\"han\":4,\"fu\":30,\"dora\":1,\"base\":2000,\"limit\":\"mangan\",\"payment\":{\"discarder\":8000},\"gain\":8000,\"yaku\":[{\"number\":4,\"word\":\"pinfu\",\"japanese\":\"pinfu\"},{\"number\":16,\"word\":\"pure-straight\",\"japanese\":\"ittsu\"}]}
{\"answer\":\"refused\",\"code\":\"N5\",\"text\":\"hand\",\"place\":0,\"key\":\"hand\",\"at\":6,\"length\":2,\"words\":\"honours are 1z to 7z\"}
{\"answer\":\"waits\",\"kinds\":[\"2p\",\"5p\"]}
{\"answer\":\"refused\",\"code\":\"H2\",\"at\":0,\"length\":4,\"words\":\"the first word is win, waits or shape\"}
{\"answer\":\"shape\",\"shanten\":0,\"discards\":[{\"discard\":\"8p\",\"accepts\":[{\"kind\":\"2p\",\"live\":4},{\"kind\":\"5p\",\"live\":4}],\"live\":8}]}
";

/// The objects of a text.
fn answered<const ROOM: usize>(
    reader: &mut BytesIn<'_>,
    writer: &mut BytesOut<ROOM>,
) -> Result<TextReport, DeskFault> {
    let rows = &mut SuitMemo::in_value();
    desk_text_by::<Objects, SuitMemo, BytesIn, BytesOut<ROOM>>(rows, Rules::One, reader, writer)
}

#[test]
fn an_object_for_each_record(rt: HostRuntime) {
    for most in [1, 7, 1000] {
        holds(&rt, most > 0);
        let mut reader = BytesIn::new(TEXT, most, None);
        let mut writer: BytesOut<1024> = BytesOut::new(most, None);
        let report = answered(&mut reader, &mut writer);
        same_in(&rt, &most, writer.bytes(), OBJECTS);
        let counted = TextReport {
            counts: DeskReport {
                answered: 3,
                refused: 2,
            },
            slip: None,
        };
        holds_in(&rt, &most, report == Ok(counted));
    }
}

/// Three tiles of each suit that lie apart, and five honours: any of them may go, and each leaves many to accept.
const WIDE: &[u8] = b"shape 258m369p147s12345z\n";

/// Answers with many bytes, more than the desk keeps before it writes.
#[test]
fn many_long_objects(rt: HostRuntime) -> Result<(), Fail> {
    let mut once: BytesOut<12288> = BytesOut::new(1000, None);
    let mut reader = BytesIn::new(WIDE, 1000, None);
    holds(&rt, answered(&mut reader, &mut once).is_ok());
    let mut text = Vec::new(rt.alloc());
    let mut objects = Vec::new(rt.alloc());
    for _ in 0..16u32 {
        text.extend_from_slice(WIDE)?;
        objects.extend_from_slice(once.bytes())?;
    }
    let mut reader = BytesIn::new(text.as_slice(), 1000, None);
    let mut writer: BytesOut<131072> = BytesOut::new(100_000, None);
    holds(&rt, answered(&mut reader, &mut writer).is_ok());
    holds_in(&rt, &objects.len(), objects.len() > 65_536);
    holds(&rt, writer.bytes() == objects.as_slice());
    Ok(())
}

/// The objects of the lines that have ended are written before each read.
#[test]
fn stops_at_each_failing_read(rt: HostRuntime) {
    for failing in 1..148u64 {
        let mut reader = BytesIn::new(TEXT, 1, Some(failing));
        let mut writer: BytesOut<1024> = BytesOut::new(7, None);
        holds_in(
            &rt,
            &failing,
            answered(&mut reader, &mut writer) == Err(DeskFault::Read),
        );
        let told = match failing {
            0..58 => 0,
            58..83 => 240,
            83..105 => 359,
            105..125 => 398,
            _ => 497,
        };
        same_in(&rt, &failing, writer.bytes(), &OBJECTS[..told]);
    }
}

#[test]
fn stops_at_each_failing_write(rt: HostRuntime) {
    for failing in 1..626u64 {
        let mut reader = BytesIn::new(TEXT, 5, None);
        let mut writer: BytesOut<1024> = BytesOut::new(1, Some(failing));
        holds_in(
            &rt,
            &failing,
            answered(&mut reader, &mut writer) == Err(DeskFault::Write),
        );
        same_in(
            &rt,
            &failing,
            writer.bytes(),
            &OBJECTS[..failing as usize - 1],
        );
    }
}
