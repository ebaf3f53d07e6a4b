//! Readers and writers that fail.
use crate::facts::{holds, holds_in, same_in};
use desk_games::{DeskFault, games_text};
use desk_io::{BytesIn, BytesOut, FromReader, ToWriter};
use riichi_hand::Rules;

/// Two games, of which the first one ends.
const TEXT: &[u8] = b"game A B C D\nend\ngame\ndraw";

const ANSWERS: &[u8] = b"game A B C D start 30000
over
final 1 A points 30000 bonus 0.0 penalty 0 total 0.0
final 1 B points 30000 bonus 0.0 penalty 0 total 0.0
final 1 C points 30000 bonus 0.0 penalty 0 total 0.0
final 1 D points 30000 bonus 0.0 penalty 0 total 0.0
game 1 2 3 4 start 30000
east 1 counters 0 sticks 0 changes 0 0 0 0 points 30000 30000 30000 30000
stands east 2 counters 1 sticks 0 points 30000 30000 30000 30000
";

#[test]
fn pieces_of_any_size(rt: HostRuntime) {
    for most in [1, 3, 1000] {
        holds(&rt, most > 0);
        let mut reader = BytesIn::new(TEXT, most, None);
        let mut writer: BytesOut<512> = BytesOut::new(most, None);
        let report = games_text(Rules::One, &mut reader, &mut writer);
        holds_in(&rt, &most, report.is_ok());
        same_in(&rt, &most, writer.bytes(), ANSWERS);
    }
    let mut reader = FromReader::new(TEXT);
    let mut room = [0; 512];
    let mut writer = ToWriter::new(room.as_mut_slice());
    holds(
        &rt,
        games_text(Rules::One, &mut reader, &mut writer).is_ok(),
    );
    same_in(
        &rt,
        &"a reader and a writer of std",
        room.get(..ANSWERS.len()),
        Some(ANSWERS),
    );
}

/// The answers to the lines that have ended are written before each read, and nothing behind them where it fails.
#[test]
fn stops_at_each_failing_read(rt: HostRuntime) {
    for failing in 1..28u64 {
        let mut reader = BytesIn::new(TEXT, 1, Some(failing));
        let mut writer: BytesOut<512> = BytesOut::new(100, None);
        let report = games_text(Rules::One, &mut reader, &mut writer);
        holds_in(&rt, &failing, report.err() == Some(DeskFault::Read));
        let told = match failing {
            0..14 => 0,
            14..23 => 25,
            _ => 267,
        };
        same_in(&rt, &failing, Some(writer.bytes()), ANSWERS.get(..told));
    }
}

#[test]
fn stops_at_each_failing_write(rt: HostRuntime) {
    for failing in 1..407u64 {
        let mut reader = BytesIn::new(TEXT, 5, None);
        let mut writer: BytesOut<512> = BytesOut::new(1, Some(failing));
        let report = games_text(Rules::One, &mut reader, &mut writer);
        holds_in(&rt, &failing, report.err() == Some(DeskFault::Write));
        let told = failing as usize - 1;
        same_in(&rt, &failing, Some(writer.bytes()), ANSWERS.get(..told));
    }
}
