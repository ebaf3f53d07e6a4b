//! A text of games that is answered into rooms of each size.
use crate::facts::{holds, holds_in, same, same_in};
use desk_games::{Filled, fill_games};
use riichi_hand::Rules;
use std::process::Abort;

/// A game that is begun anew, and lines without answers.
const TEXT: &[u8] = b"# c\r\ngame A B C D\nend\n\ngame\ndraw";

const ANSWERS: &[u8] = b"game A B C D start 30000
over
final 1 A points 30000 bonus 0.0 penalty 0 total 0.0
final 1 B points 30000 bonus 0.0 penalty 0 total 0.0
final 1 C points 30000 bonus 0.0 penalty 0 total 0.0
final 1 D points 30000 bonus 0.0 penalty 0 total 0.0
game 1 2 3 4 start 30000
east 1 counters 0 sticks 0 changes 0 0 0 0 points 30000 30000 30000 30000
stands east 2 counters 1 sticks 0 points 30000 30000 30000 30000
";

/// From this place on, in a room of this size, the call goes on at `taken`, and its answers are those from one place to another.
fn fills(rt: &impl Abort, from: usize, size: usize, taken: usize, told: (usize, usize)) {
    let mut all = [7u8; 500];
    let (room, _) = all.split_at_mut(size.min(500));
    let done = fill_games(Rules::One, TEXT, from, room);
    same_in(rt, &(from, size), done.taken, taken);
    holds_in(
        rt,
        &(from, size),
        all.get(..done.filled) == ANSWERS.get(told.0..told.1),
    );
    holds(rt, all.iter().skip(done.filled).all(|byte| *byte == 7));
}

#[test]
fn stops_before_the_first_answer_that_has_no_room(rt: HostRuntime) {
    fills(&rt, 0, 0, 5, (0, 0));
    fills(&rt, 0, 24, 5, (0, 0));
    fills(&rt, 0, 25, 23, (0, 25));
    fills(&rt, 0, 266, 23, (0, 25));
    fills(&rt, 0, 267, 28, (0, 267));
    fills(&rt, 0, 341, 32, (0, 341));
    fills(&rt, 0, 405, 32, (0, 341));
    fills(&rt, 0, 406, 33, (0, 406));
    fills(&rt, 0, 500, 33, (0, 406));
}

#[test]
fn goes_on_from_a_line(rt: HostRuntime) {
    fills(&rt, 5, 24, 5, (0, 0));
    fills(&rt, 23, 500, 33, (25, 406));
    fills(&rt, 23, 242, 28, (25, 267));
    fills(&rt, 28, 73, 28, (0, 0));
    fills(&rt, 28, 74, 32, (267, 341));
    fills(&rt, 32, 64, 32, (0, 0));
    fills(&rt, 32, 65, 33, (341, 406));
    fills(&rt, 33, 500, 33, (0, 0));
    fills(&rt, 99, 500, 99, (0, 0));
}

/// From the start of a text: how far the call comes, and how many bytes it fills.
fn filled(text: &[u8], room: &mut [u8]) -> (usize, usize) {
    let Filled { taken, filled } = fill_games(Rules::One, text, 0, room);
    (taken, filled)
}

#[test]
fn texts_without_a_game(rt: HostRuntime) {
    let mut room = [7u8; 22];
    same(&rt, filled(b"", &mut room), (1, 0));
    same(&rt, filled(b"# a\r\n\n  ", &mut []), (9, 0));
    let mut long = [b'#'; 4099];
    same(&rt, filled(&long, &mut room), (4100, 11));
    holds(&rt, room.get(..11) == Some(b"refused G1\n".as_slice()));
    long[4098] = b'\n';
    same(&rt, filled(&long, &mut room), (4100, 11));
}
