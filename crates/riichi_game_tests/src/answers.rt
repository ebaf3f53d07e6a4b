//! Texts of answers.
use crate::facts::{by, same};
use riichi_game_text::{Names, push_deal, push_over, push_penalty, push_stands, read_game};
use riichi_hand::{Rules, Wind};
use riichi_places::final_points;
use riichi_table::*;
use riichi_text::AnswerText;
use std::process::Abort;

fn names(rt: &impl Abort) -> Names {
    let game = read_game(Rules::One, b"Anna Bo Cyd Dee");
    game.expect(rt, "names").names
}

/// East 2, one counter and one stick.
fn east_2() -> GameState {
    GameState {
        points: by(30500, 32500, 27500, 28500),
        round: Wind::East,
        dealer: Player::Second,
        counters: 1,
        sticks: 1,
    }
}

#[test]
fn a_deal(rt: HostRuntime) {
    let mut text = AnswerText::new();
    push_deal(&mut text, &east_2(), &by(29900, 31400, 26900, 31800));
    same(
        &rt,
        text.as_str(),
        "east 2 counters 1 sticks 1 changes -600 -1100 -600 +3300 points 29900 31400 26900 31800",
    );
    text.clear();
    push_deal(&mut text, &east_2(), &by(30500, 32500, -27500, 83500));
    same(
        &rt,
        text.as_str(),
        "east 2 counters 1 sticks 1 changes 0 0 -55000 +55000 points 30500 32500 -27500 83500",
    );
}

#[test]
fn a_state(rt: HostRuntime) {
    let mut text = AnswerText::new();
    push_stands(&mut text, &east_2());
    same(
        &rt,
        text.as_str(),
        "stands east 2 counters 1 sticks 1 points 30500 32500 27500 28500",
    );
}

#[test]
fn a_penalty(rt: HostRuntime) {
    let mut text = AnswerText::new();
    push_penalty(&mut text, &names(&rt).get(Player::Third), 8000);
    same(&rt, text.as_str(), "penalty Cyd 8000");
}

/// South 4 with these points and sticks, at the end.
fn last(points: ByPlayer<i32>, sticks: u8) -> GameState {
    GameState {
        points,
        round: Wind::South,
        dealer: Player::Fourth,
        counters: 0,
        sticks,
    }
}

#[test]
fn two_share_a_place(rt: HostRuntime) {
    let state = last(by(41300, 32700, 32700, 13300), 0);
    let finals = final_points(&TableRules::club(), &state, &by(0, 8000, 0, 0));
    let mut text = AnswerText::new();
    push_over(&mut text, &names(&rt), 0, &finals);
    same(
        &rt,
        text.as_str(),
        "over\nfinal 1 Anna points 41300 bonus +15.0 penalty 0 total +26.3\nfinal 2 Bo points 32700 bonus 0.0 penalty 8000 total -5.3\nfinal 2 Cyd points 32700 bonus 0.0 penalty 0 total +2.7\nfinal 4 Dee points 13300 bonus -15.0 penalty 0 total -31.7",
    );
}

#[test]
fn sticks_are_left(rt: HostRuntime) {
    let state = last(by(36000, 28000, 36000, 18000), 2);
    let finals = final_points(&TableRules::club(), &state, &ByPlayer::all(0));
    let mut text = AnswerText::new();
    push_over(&mut text, &names(&rt), 2, &finals);
    same(
        &rt,
        text.as_str(),
        "over\nleft 2\nfinal 1 Anna points 38000 bonus +15.0 penalty 0 total +23.0\nfinal 2 Cyd points 36000 bonus +5.0 penalty 0 total +11.0\nfinal 3 Bo points 28000 bonus -5.0 penalty 0 total -7.0\nfinal 4 Dee points 18000 bonus -15.0 penalty 0 total -27.0",
    );
}
