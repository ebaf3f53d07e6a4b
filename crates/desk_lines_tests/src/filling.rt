//! A text that is answered into rooms of each size.
use crate::facts::{holds, same_in};
use desk_lines::{Explained, Filled, Objects, Plain, fill_by, next_line, put_at};
use riichi_hand::Rules;
use std::process::Abort;

const TEXT: &[u8] = b"# c\nwaits 123456789m1134p\r\n\nwaits 8z\nrules 2\nwaits 1m";

const ANSWERS: &[u8] = b"waits 25p\nrefused N5 hand at 0\nrefused H2\nrefused H8\n";

/// In a room of this size so many bytes of the text are answered, and their answers fill so many.
fn fills(rt: &impl Abort, size: usize, taken: usize, filled: usize) {
    let mut all = [7u8; 90];
    let (room, _) = all.split_at_mut(size.min(90));
    let done = fill_by::<Plain>(Rules::One, TEXT, room);
    same_in(rt, &size, done.taken, taken);
    same_in(rt, &size, done.filled, filled);
    holds(rt, all.get(..filled) == ANSWERS.get(..filled));
    holds(rt, all.iter().skip(filled).all(|byte| *byte == 7));
}

#[test]
fn stops_before_the_first_answer_that_has_no_room(rt: HostRuntime) {
    fills(&rt, 0, 4, 0);
    fills(&rt, 9, 4, 0);
    fills(&rt, 10, 28, 10);
    fills(&rt, 30, 28, 10);
    fills(&rt, 31, 37, 31);
    fills(&rt, 41, 37, 31);
    fills(&rt, 42, 45, 42);
    fills(&rt, 52, 45, 42);
    fills(&rt, 53, 53, 53);
    fills(&rt, 90, 53, 53);
}

#[test]
fn answers_no_text_and_texts_without_answers(rt: HostRuntime) {
    let none = Filled {
        taken: 0,
        filled: 0,
    };
    holds(&rt, fill_by::<Plain>(Rules::One, b"", &mut []) == none);
    holds(
        &rt,
        fill_by::<Objects>(Rules::One, b"waits 8z", &mut []) == none,
    );
    holds(
        &rt,
        fill_by::<Explained>(Rules::One, b"waits 8z", &mut []) == none,
    );
    let comments = Filled {
        taken: 11,
        filled: 0,
    };
    holds(
        &rt,
        fill_by::<Plain>(Rules::Two, b"# a\r\n\n   \n#", &mut []) == comments,
    );
}

#[test]
fn refuses_lines_that_are_too_long(rt: HostRuntime) {
    let mut room = [7u8; 22];
    let mut text = [b'#'; 4099];
    holds(
        &rt,
        fill_by::<Plain>(Rules::One, &text, &mut room).filled == 11,
    );
    holds(&rt, room.get(..11) == Some(b"refused H1\n".as_slice()));
    text[4096] = b'\r';
    text[4097] = b'\n';
    holds(
        &rt,
        fill_by::<Plain>(Rules::One, &text, &mut room).filled == 0,
    );
    text[4096] = b'#';
    holds(
        &rt,
        fill_by::<Plain>(Rules::One, &text, &mut room).filled == 11,
    );
}

#[test]
fn cuts_a_line_off(rt: HostRuntime) {
    holds(&rt, next_line(b"").is_none());
    let (line, rest) = (b"a".as_slice(), b"\nb".as_slice());
    holds(&rt, next_line(b"a\r\n\nb") == Some((line, rest)));
    holds(&rt, next_line(b"a\r") == Some((line, b"".as_slice())));
}

#[test]
fn puts_a_text_where_it_fits(rt: HostRuntime) {
    let mut room = [7u8; 4];
    holds(&rt, put_at(&mut room, 1, b"ab"));
    holds(&rt, !put_at(&mut room, 3, b"cd"));
    holds(&rt, !put_at(&mut room, 5, b""));
    holds(&rt, room == [7, b'a', b'b', 7]);
}
