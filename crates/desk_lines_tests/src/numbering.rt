//! Rows of whole texts, answered behind the numbers of their lines.
use crate::facts::{holds_in, same_in};
use desk_io::{BytesIn, BytesOut};
use desk_lines::*;

/// A profile, a comment, an empty line, a line with a carriage return, and a last line without an end.
const TEXT: &[u8] = b"rules 2
win 123406789m22s34p on=2p by=ron seat=S round=E
# table three

waits 8z\r
waits 123456789m1134p";

const WORDS: &[u8] = b"2:won 4 han 30 fu 8000 gain 8000 pinfu pure-straight dora 1
5:refused N5 hand at 0
6:waits 25p
";

const OBJECTS: &[u8] =
    b"{\"line\":2,\"answer\":\"won\",\"yakuman\":false,\"han\":4,\"fu\":30,\"dora\":1,\"base\":2000,\"limit\":\"mangan\",\"payment\":{\"discarder\":8000},\"gain\":8000,\"yaku\":[{\"number\":4,\"word\":\"pinfu\",\"japanese\":\"pinfu\"},{\"number\":16,\"word\":\"pure-straight\",\"japanese\":\"ittsu\"}]}
{\"line\":5,\"answer\":\"refused\",\"code\":\"N5\",\"text\":\"hand\",\"place\":0,\"key\":\"hand\",\"at\":6,\"length\":2,\"words\":\"honours are 1z to 7z\"}
{\"line\":6,\"answer\":\"waits\",\"kinds\":[\"2p\",\"5p\"]}
";

const COUNTED: TextReport = TextReport {
    counts: DeskReport {
        answered: 2,
        refused: 1,
    },
    slip: None,
};

#[test]
fn words_behind_their_numbers(rt: HostRuntime) {
    for most in [1, 7, 1000] {
        let mut reader = BytesIn::new(TEXT, most, None);
        let mut writer: BytesOut<1024> = BytesOut::new(most, None);
        let report = numbered_text_by::<Plain, SuitMemo, BytesIn, BytesOut<1024>>(
            &mut SuitMemo::in_value(),
            Rules::One,
            &mut reader,
            &mut writer,
        );
        same_in(&rt, &most, writer.bytes(), WORDS);
        holds_in(&rt, &most, report == Ok(COUNTED));
    }
}

#[test]
fn objects_with_their_numbers(rt: HostRuntime) {
    for most in [1, 7, 1000] {
        let mut reader = BytesIn::new(TEXT, most, None);
        let mut writer: BytesOut<1024> = BytesOut::new(most, None);
        let report = numbered_text_by::<Members, SuitMemo, BytesIn, BytesOut<1024>>(
            &mut SuitMemo::in_value(),
            Rules::One,
            &mut reader,
            &mut writer,
        );
        same_in(&rt, &most, writer.bytes(), OBJECTS);
        holds_in(&rt, &most, report == Ok(COUNTED));
    }
}

#[test]
fn stops_at_each_failing_write(rt: HostRuntime) {
    for failing in 1..96u64 {
        let mut reader = BytesIn::new(TEXT, 5, None);
        let mut writer: BytesOut<1024> = BytesOut::new(1, Some(failing));
        let report = numbered_text_by::<Plain, SuitMemo, BytesIn, BytesOut<1024>>(
            &mut SuitMemo::in_value(),
            Rules::One,
            &mut reader,
            &mut writer,
        );
        holds_in(&rt, &failing, report == Err(DeskFault::Write));
        same_in(
            &rt,
            &failing,
            writer.bytes(),
            &WORDS[..failing as usize - 1],
        );
    }
}
