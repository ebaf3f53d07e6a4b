//! What messages come to, at a book with a live deal, a withdrawn one and a live one.
use super::facts::same_in;
use super::letters::Letter;
use desk_hall::{
    Asked, Decision, Judged, MOST_HANDED_IN, Message, Reply, Table, hand_in, judge, withdraw,
};
use std::process::Abort;

const START: Letter = Letter { said: b'0' };

const BOOK: &[u8] = b"a\n# withdrawn b\nc # a note\n";

/// The mark of a decision, and the letters that it tells.
fn told(decision: &Decision<Letter>) -> (u8, u8, u8) {
    match decision {
        Decision::Taken(letter) => (b'T', letter.said, 0),
        Decision::Again(letter) => (b'A', letter.said, 0),
        Decision::Another { first, other } => (b'O', first.said, other.said),
        Decision::Early => (b'E', 0, 0),
        Decision::Refused => (b'R', 0, 0),
        Decision::Gone => (b'G', 0, 0),
        Decision::Withdrawn => (b'W', 0, 0),
        Decision::GoneAlready => (b'w', 0, 0),
        Decision::NotLast => (b'N', 0, 0),
        Decision::NoDeal => (b'-', 0, 0),
    }
}

/// What is told of a message: its decision, the letter before the number, the next number, the last live one, and the place.
fn told_of(judged: Option<Judged<Letter>>) -> Option<((u8, u8, u8), u8, u64, u64, usize)> {
    match judged {
        None => None,
        Some(judged) => Some((
            told(&judged.decision),
            judged.front.said,
            judged.next,
            judged.last_live,
            judged.place,
        )),
    }
}

fn hands_in(
    rt: &impl Abort,
    number: u64,
    line: &[u8],
    decision: (u8, u8, u8),
    front: u8,
    place: usize,
) {
    let wanted = Some((decision, front, 4, 3, place));
    same_in(
        rt,
        &number,
        told_of(hand_in(&START, BOOK, number, line)),
        wanted,
    );
}

#[test]
fn a_line_comes_to_what_stands_at_its_number(rt: HostRuntime) {
    hands_in(&rt, 4, b"d", (b'T', b'd', 0), b'c', 27);
    hands_in(&rt, 1, b"a again", (b'A', b'a', 0), b'0', 0);
    hands_in(&rt, 3, b"c", (b'A', b'c', 0), b'a', 16);
    hands_in(&rt, 1, b"b", (b'O', b'a', b'b'), b'0', 0);
    hands_in(&rt, 2, b"b", (b'G', 0, 0), b'a', 2);
    hands_in(&rt, 3, b"a", (b'R', 0, 0), b'a', 16);
    hands_in(&rt, 4, b"c", (b'R', 0, 0), b'c', 27);
    hands_in(&rt, 4, b"", (b'R', 0, 0), b'c', 27);
    hands_in(&rt, 4, b"d\ne", (b'R', 0, 0), b'c', 27);
    hands_in(&rt, 4, b"# withdrawn d", (b'R', 0, 0), b'c', 27);
    hands_in(&rt, 5, b"d", (b'E', 0, 0), b'c', 27);
    hands_in(&rt, u64::MAX, b"d", (b'E', 0, 0), b'c', 27);
    hands_in(&rt, 0, b"d", (b'-', 0, 0), b'0', 0);
}

#[test]
fn a_line_has_to_have_room_behind_the_words_of_a_withdrawn_deal(rt: HostRuntime) {
    let long = [b'd'; 4085];
    hands_in(&rt, 4, &long[..MOST_HANDED_IN], (b'T', b'd', 0), b'c', 27);
    hands_in(&rt, 4, &long, (b'R', 0, 0), b'c', 27);
}

fn withdraws(rt: &impl Abort, number: u64, decision: u8, front: u8, place: usize) {
    let wanted = Some(((decision, 0, 0), front, 4, 3, place));
    same_in(rt, &number, told_of(withdraw(&START, BOOK, number)), wanted);
}

#[test]
fn the_last_live_deal_is_withdrawn(rt: HostRuntime) {
    withdraws(&rt, 3, b'W', b'a', 16);
    withdraws(&rt, 2, b'w', b'a', 2);
    withdraws(&rt, 1, b'N', b'0', 0);
    withdraws(&rt, 4, b'-', b'c', 27);
    withdraws(&rt, 0, b'-', b'0', 0);
}

#[test]
fn a_text_without_its_last_end_or_with_a_refused_deal_is_no_book(rt: HostRuntime) {
    same_in(&rt, &1, told_of(hand_in(&START, b"a\nb", 1, b"a")), None);
    same_in(&rt, &2, told_of(hand_in(&START, b"a\na\n", 1, b"a")), None);
    same_in(&rt, &3, told_of(withdraw(&START, b"a\n\nb\n", 1)), None);
}

#[test]
fn a_message_goes_to_its_table(rt: HostRuntime) {
    let tables = [
        Table {
            start: START,
            deals: BOOK,
        },
        Table {
            start: START,
            deals: b"",
        },
        Table {
            start: START,
            deals: b"0\n",
        },
    ];
    let mut replies = [b' '; 4];
    for table in 0..4 {
        let message = Message {
            table,
            number: 1,
            asked: Asked::Line(b"a"),
        };
        replies[table] = match judge(&tables, &message) {
            Reply::NoTable => b'?',
            Reply::NoBook => b'!',
            Reply::Judged(judged) => told(&judged.decision).0,
        };
    }
    same_in(&rt, &"lines", replies, [b'A', b'T', b'!', b'?']);
    let message = Message {
        table: 1,
        number: 1,
        asked: Asked::Withdrawal,
    };
    let is_none = match judge(&tables, &message) {
        Reply::Judged(judged) => told(&judged.decision).0 == b'-',
        _ => false,
    };
    same_in(&rt, &"a withdrawal", is_none, true);
}
