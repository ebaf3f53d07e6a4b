//! Books of games of four: what a text opens as, and what messages to a book are answered.
use super::facts::same_in;
use desk_hall::{Asked, hand_in, withdraw};
use desk_hall_games::{JudgedRow, open_book, push_answer};
use riichi_hand::Rules;
use riichi_text::AnswerText;
use std::process::Abort;

/// Deal 1 counts, deal 2 was withdrawn, and deal 3 is a penalty.
const BOOK: &[u8] = b"game Anna Bo Cyd Dee session=1 at=1\nron Bo from Cyd 1.30\n\
# withdrawn draw ready Anna\npenalty Dee 8000\n";

/// Where its deals begin, and where it ends.
const DEALS: u64 = 36;

const END: u64 = 102;

const FIRST: &str =
    "east 1 counters 0 sticks 0 changes 0 +1000 -1000 0 points 30000 31000 29000 30000";

/// What a message to a book comes to under the first profile: the number and place of the row, its verdict, and the answer's bytes.
fn told(text: &[u8], number: u64, asked: Asked<'_>) -> Option<((u32, u64, u64), AnswerText)> {
    let Some((start, deals)) = open_book(Rules::One, text) else {
        return None;
    };
    let judged = match asked {
        Asked::Line(line) => hand_in(&start, deals, number, line),
        Asked::Withdrawal => withdraw(&start, deals, number),
    };
    let Some(judged) = judged else {
        return None;
    };
    if judged.place > deals.len() {
        return None;
    }
    let row = JudgedRow::of(&judged, text.len() - deals.len());
    let mut answer = AnswerText::new();
    push_answer(&mut answer, number, asked, &judged);
    Some(((row.verdict, row.next, row.place), answer))
}

fn is_told(rt: &impl Abort, number: u64, asked: Asked<'_>, verdict: u32, place: u64, answer: &str) {
    match told(BOOK, number, asked) {
        None => same_in(rt, &number, "no book", answer),
        Some((row, text)) => {
            same_in(rt, &number, row, (verdict, 4, place));
            same_in(rt, &number, text.as_str(), answer);
        }
    }
}

#[test]
fn a_line_is_answered_as_a_text_of_games_would(rt: HostRuntime) {
    let tsumo =
        "east 2 counters 0 sticks 0 changes -500 -1000 -500 +2000 points 29500 30000 28500 32000";
    is_told(&rt, 4, Asked::Line(b"tsumo Dee 2.30"), 1, END, tsumo);
    is_told(
        &rt,
        4,
        Asked::Line(b"penalty Dee 2000"),
        1,
        END,
        "penalty Dee 2000",
    );
    is_told(&rt, 4, Asked::Line(b"end"), 1, END, "");
    is_told(
        &rt,
        1,
        Asked::Line(b"ron B from C 1.30 # again"),
        2,
        DEALS,
        FIRST,
    );
    is_told(
        &rt,
        3,
        Asked::Line(b"penalty D 8000"),
        2,
        85,
        "penalty Dee 8000",
    );
}

#[test]
fn another_outcome_is_shown_beside_the_first(rt: HostRuntime) {
    let both = "east 1 counters 0 sticks 0 changes 0 +1000 -1000 0 points 30000 31000 29000 30000
east 1 counters 0 sticks 0 changes 0 +2000 -2000 0 points 30000 32000 28000 30000";
    is_told(&rt, 1, Asked::Line(b"ron Bo from Cyd 2.30"), 3, DEALS, both);
    is_told(&rt, 3, Asked::Line(b"end"), 3, 85, "penalty Dee 8000\n");
}

#[test]
fn what_changes_nothing_says_why(rt: HostRuntime) {
    is_told(&rt, 5, Asked::Line(b"draw"), 4, END, "next 4");
    is_told(
        &rt,
        4,
        Asked::Line(b"ron Bo from Bo 1.30"),
        5,
        END,
        "refused G5",
    );
    is_told(&rt, 4, Asked::Line(b"nothing"), 5, END, "refused G2");
    is_told(&rt, 4, Asked::Line(b"draw\nend"), 5, END, "refused G1");
    is_told(&rt, 4, Asked::Line(b""), 5, END, "refused G2");
    is_told(
        &rt,
        2,
        Asked::Line(b"draw ready Anna"),
        6,
        57,
        "withdrawn 2",
    );
    is_told(&rt, 0, Asked::Line(b"draw"), 10, DEALS, "next 4");
    is_told(&rt, 2, Asked::Withdrawal, 8, 57, "withdrawn 2");
    is_told(&rt, 1, Asked::Withdrawal, 9, DEALS, "withdraw 3");
    is_told(&rt, 4, Asked::Withdrawal, 10, END, "next 4");
}

#[test]
fn a_line_too_long_for_a_book_is_refused(rt: HostRuntime) {
    let mut line = [b' '; 4085];
    line[..4].copy_from_slice(b"draw");
    let draw = "east 2 counters 0 sticks 0 changes 0 0 0 0 points 30000 31000 29000 30000";
    is_told(&rt, 4, Asked::Line(&line[..4084]), 1, END, draw);
    is_told(&rt, 4, Asked::Line(&line), 5, END, "refused G1");
}

#[test]
fn the_last_live_deal_of_a_game_is_withdrawn(rt: HostRuntime) {
    is_told(&rt, 3, Asked::Withdrawal, 7, 85, "withdrawn 3");
}

#[test]
fn a_text_that_begins_no_game_is_no_book(rt: HostRuntime) {
    let texts: [&[u8]; 8] = [
        b"",
        b"game Anna Bo Cyd Dee",
        b"\ngame Anna Bo Cyd Dee\n",
        b"# game Anna Bo Cyd Dee\n",
        b"game Anna Bo Cyd\n",
        b"game Anna Bo Cyd Dee\nron Bo from Cyd 1.30",
        b"game Anna Bo Cyd Dee\nron Bo from Bo 1.30\n",
        b"game Anna Bo Cyd Dee\n\n",
    ];
    for text in texts {
        same_in(
            &rt,
            &text.len(),
            told(text, 1, Asked::Withdrawal).is_none(),
            true,
        );
    }
    let spaced = told(b"  game  Anna Bo Cyd Dee # a note\n", 1, Asked::Withdrawal);
    same_in(&rt, &"spaces and a note", spaced.is_some(), true);
    same_in(&rt, &"no book", JudgedRow::of_nothing().verdict, 0);
}
