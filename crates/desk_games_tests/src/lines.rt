//! What lines are answered where they stand.
use crate::facts::{holds_in, same};
use arrayvec::ArrayVec;
use desk_games::{DeskReport, GamesReport, games_text};
use desk_io::{BytesIn, BytesOut};
use riichi_hand::Rules;
use std::process::Abort;

/// The most bytes of the answers to a text.
const ROOM: usize = 16_384;

/// The answers to a text.
fn is_answered(rt: &impl Abort, given: Rules, text: &[u8], answers: &[u8]) -> GamesReport {
    let mut reader = BytesIn::new(text, 1000, None);
    let mut writer: BytesOut<ROOM> = BytesOut::new(1000, None);
    let report = games_text(given, &mut reader, &mut writer);
    same(rt, writer.bytes(), answers);
    report.ok().expect(rt, "a report")
}

/// The answers to a text under the first profile, and how many lines are answered and refused.
fn is_counted(rt: &impl Abort, text: &[u8], answers: &[u8], answered: u64, refused: u64) {
    let report = is_answered(rt, Rules::One, text, answers);
    holds_in(rt, &text, report.counts == DeskReport { answered, refused });
}

#[test]
fn texts_without_a_game(rt: HostRuntime) {
    is_counted(&rt, b"", b"", 0, 0);
    is_counted(&rt, b"\n\n  \r\n# a note\n   # another", b"", 0, 0);
    is_counted(&rt, b"end", b"refused G2\n", 0, 1);
    is_counted(
        &rt,
        b"end\t\nend\n\xff",
        b"refused G1\nrefused G2\nrefused G1\n",
        0,
        3,
    );
}

/// Carriage returns, spaces, a last line without an end, and `end` that counts as answered.
#[test]
fn ends_of_lines(rt: HostRuntime) {
    let answers =
        b"game A B C D start 30000\neast 1 counters 0 sticks 0 changes 0 0 0 0 points 30000 30000 30000 30000\nover\nfinal 1 A points 30000 bonus 0.0 penalty 0 total 0.0\nfinal 1 B points 30000 bonus 0.0 penalty 0 total 0.0\nfinal 1 C points 30000 bonus 0.0 penalty 0 total 0.0\nfinal 1 D points 30000 bonus 0.0 penalty 0 total 0.0\n";
    is_counted(&rt, b"game A B C D\ndraw\nend\n", answers, 3, 0);
    is_counted(&rt, b"game A B C D\r\ndraw\r\nend", answers, 3, 0);
    is_counted(
        &rt,
        b"\n  game  A B  C D #\n\r\n draw # x\n#\nend ",
        answers,
        3,
        0,
    );
    is_counted(
        &rt,
        b"game A B C D\rdraw\nend",
        b"refused G1\nrefused G2\n",
        0,
        2,
    );
}

/// A byte order mark is no space: the first line is none of a game.
#[test]
fn a_byte_order_mark(rt: HostRuntime) {
    is_counted(
        &rt,
        b"\xEF\xBB\xBFgame A B C D\nend\n",
        b"refused G2\nrefused G2\n",
        0,
        2,
    );
}

/// A line that begins a game, of so many bytes with its note.
fn line_of(len: usize) -> ArrayVec<u8, 4_200> {
    let mut line: ArrayVec<u8, 4_200> = ArrayVec::new();
    let _ = line.try_extend_from_slice(b"game A B C D ");
    for _ in line.len()..len {
        let _ = line.try_push(b'#');
    }
    line
}

/// A line has 4096 bytes at most, a note counts.
#[test]
fn long_lines(rt: HostRuntime) {
    let begun =
        b"game A B C D start 30000\nstands east 1 counters 0 sticks 0 points 30000 30000 30000 30000\n";
    is_counted(&rt, line_of(4_096).as_slice(), begun, 1, 0);
    is_counted(&rt, line_of(4_097).as_slice(), b"refused G1\n", 0, 1);
    let mut ended = line_of(4_097);
    same(&rt, ended.len(), 4_097);
    let _ = ended.try_push(b'\n');
    is_counted(&rt, ended.as_slice(), b"refused G1\n", 0, 1);
}

/// The given rules are those for hands of a game that names none.
#[test]
fn given_rules(rt: HostRuntime) {
    let text =
        b"game\nron 2 from 3 123406789m22s34p on=2p\ngame rules=1\nron 2 from 3 123406789m22s34p on=2p";
    let by_second =
        b"game 1 2 3 4 start 30000\neast 1 counters 0 sticks 0 changes 0 +8000 -8000 0 points 30000 38000 22000 30000\nstands east 2 counters 0 sticks 0 points 30000 38000 22000 30000\ngame 1 2 3 4 start 30000\neast 1 counters 0 sticks 0 changes 0 +3900 -3900 0 points 30000 33900 26100 30000\nstands east 2 counters 0 sticks 0 points 30000 33900 26100 30000\n";
    is_answered(&rt, Rules::Two, text, by_second);
}
