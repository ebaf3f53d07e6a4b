//! Refused lines, and what stands below them.
use crate::facts::same;
use riichi_game::Progress;
use riichi_game_hints::{push_begin_hint, push_game_hint};
use riichi_game_text::{GameFault, read_entry, read_game};
use riichi_hand::Rules;
use riichi_text::AnswerText;
use std::process::Abort;

/// That a line is refused in a new game that these words begin, and this stands below it.
fn is_hinted(rt: &impl Abort, words: &str, line: &str, wanted: &str) {
    let game = read_game(Rules::One, words.as_bytes()).expect(rt, "a game");
    let progress = Progress::first(&game.rules);
    let line = line.as_bytes();
    let read = read_entry(&game.names, &progress, &game.rules, line);
    let fault = read.err().expect(rt, "a refusal");
    let mut text = AnswerText::new();
    push_game_hint(&mut text, &game.names, &game.rules, &progress, line, fault);
    same(rt, text.as_str(), wanted);
}

/// That this stands below a line that is refused so where no game has a state.
fn is_begun(rt: &impl Abort, line: &str, fault: GameFault, wanted: &str) {
    let mut text = AnswerText::new();
    push_begin_hint(&mut text, Rules::One, line.as_bytes(), fault);
    same(rt, text.as_str(), wanted);
}

#[test]
fn lines_to_try(rt: HostRuntime) {
    let names = "Anna Bo Cyd Dee";
    is_hinted(
        &rt,
        names,
        "ron Bob from Cyd 1.30",
        "  Bob is no player: Bo?\n  here Bob is read as Bo.\n  guess: ron Bo from Cyd 1.30",
    );
    is_hinted(
        &rt,
        names,
        "tsumo by Bo 3han40fu",
        "  by is no word of such a line\n  try: tsumo Bo 3.40",
    );
    is_hinted(
        &rt,
        names,
        "ron Bo from Cyd 8000",
        "  8000 are points: a value is HAN.FU, as 3.40, or a limit hand, as mangan\n  here 8000 is read as mangan.\n  guess: ron Bo from Cyd mangan",
    );
    is_hinted(
        &rt,
        "",
        "tsumo 2 3/40 riichi 1 3",
        "  words are missing, too many or out of order, or a number can't be\n  try: tsumo 2 3.40 riichi 1,3",
    );
}

#[test]
fn patterns(rt: HostRuntime) {
    let names = "Anna Bo Cyd Dee";
    is_hinted(
        &rt,
        names,
        "ron Bo by Cyd 1.30",
        "  by is no word of such a line\n  write: ron WINNER from DISCARDER 1.30",
    );
    is_hinted(
        &rt,
        names,
        "ron Bo from Cyd 8100",
        "  8100 are points: a value is HAN.FU, as 3.40, or a limit hand, as mangan\n  write: ron Bo from Cyd HAN.FU",
    );
}

/// A line that would be refused too says why.
#[test]
fn refused_too(rt: HostRuntime) {
    is_hinted(
        &rt,
        "Anna Bo Cyd Dee",
        "nagashi Bo",
        "  no line begins with nagashi: ron, tsumo, draw, abort, chombo, penalty, stands, end, undo and game do\n  also: the rules of this game have it off: behind game, liable=on or nagashi=on turns it on",
    );
    is_hinted(
        &rt,
        "Anna Bo Cyd Dee nagashi=on",
        "nagashi Bo",
        "  no line begins with nagashi: ron, tsumo, draw, abort, chombo, penalty, stands, end, undo and game do\n  here draw is a guess.\n  guess: draw nagashi Bo",
    );
}

#[test]
fn lines_that_begin_games(rt: HostRuntime) {
    is_begun(
        &rt,
        "tsumo Bo 1.30",
        GameFault::G2,
        "  no game has begun: a line game comes before all others\n  write: game NAME NAME NAME NAME",
    );
    is_begun(
        &rt,
        "game Anna,Bo,Cyd,Dee tabel=club",
        GameFault::G3,
        "  tabel=club can't be: the rules of a table have no such word or value\n  here tabel is read as table.\n  guess: game Anna Bo Cyd Dee table=club",
    );
    is_begun(
        &rt,
        "Game: Anna, Bo, Cyd, Dee",
        GameFault::G2,
        "  no game has begun: a line game comes before all others\n  try: game Anna Bo Cyd Dee",
    );
}
