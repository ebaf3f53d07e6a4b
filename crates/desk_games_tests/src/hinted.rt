//! Texts of games with hints below the lines that are refused.
use crate::facts::{holds, same};
use arrayvec::ArrayVec;
use desk_game_hints::hinted_games_text;
use desk_games::{GamesForm, games_text};
use desk_io::{BytesIn, BytesOut};
use riichi_hand::Rules;
use std::process::Abort;

/// The most bytes of the answers to a text.
const ROOM: usize = 8192;

const TEXT: &[u8] = b"tsumo Bo 1.30
game Anna Bo Cyd Dee
tsumo by Bo 3han40fu
draw
undo
tsumo Bo 3.40
undo
undo
game Anna Bo Cyd
";

const ANSWERS: &str = "refused G2
  no game has begun: a line game comes before all others
  write: game NAME NAME NAME NAME
game Anna Bo Cyd Dee start 30000
refused G4
  by is no word of such a line
  try: tsumo Bo 3.40
refused G14
  a line of this game is refused: undo takes it back, and those behind it
  write: undo
stands east 1 counters 0 sticks 0 points 30000 30000 30000 30000
east 1 counters 0 sticks 0 changes -2600 +5200 -1300 -1300 points 27400 35200 28700 28700
stands east 1 counters 0 sticks 0 points 30000 30000 30000 30000
refused G4
  there is no line to take back
stands east 1 counters 0 sticks 0 points 30000 30000 30000 30000
refused G3
  behind game stand four names that differ, or none, and words of the rules, each once
  write: game NAME NAME NAME NAME
";

#[test]
fn what_to_type_instead(rt: HostRuntime) {
    let mut reader = BytesIn::new(TEXT, 1000, None);
    let mut writer: BytesOut<ROOM> = BytesOut::new(1000, None);
    let form = GamesForm::Answers;
    let report = hinted_games_text(Rules::One, false, form, &mut reader, &mut writer);
    same(&rt, writer.bytes(), ANSWERS.as_bytes());
    holds(&rt, report.is_ok());
    is_same_without_hints(&rt, writer.bytes());
}

/// The answers without the lines that begin with two spaces are those without hints.
fn is_same_without_hints(rt: &impl Abort, answers: &[u8]) {
    let mut plain: ArrayVec<u8, ROOM> = ArrayVec::new();
    for line in answers.split_inclusive(|byte| *byte == b'\n') {
        if !line.starts_with(b"  ") {
            holds(rt, plain.try_extend_from_slice(line).is_ok());
        }
    }
    let mut reader = BytesIn::new(TEXT, 1000, None);
    let mut writer: BytesOut<ROOM> = BytesOut::new(1000, None);
    let report = games_text(Rules::One, &mut reader, &mut writer);
    holds(rt, report.is_ok());
    holds(rt, writer.bytes() == plain.as_slice());
}
