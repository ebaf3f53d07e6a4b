//! Lines that begin a game.
use crate::facts::{holds, same};
use riichi_game_text::{GameLine, MOST_BEGUN, push_begun, read_game};
use riichi_hand::Rules;
use riichi_table::*;
use riichi_text::AnswerText;
use std::process::Abort;

/// The words behind `game` begin a game, and are answered so.
fn begins(rt: &impl Abort, words: &str, answer: &str) -> GameLine {
    let game = read_game(Rules::One, words.as_bytes()).expect(rt, "a game");
    let mut text = AnswerText::new();
    push_begun(&mut text, &game.names, game.rules.start);
    same(rt, text.as_str(), answer);
    game
}

#[test]
fn names_are_answered(rt: HostRuntime) {
    let answer = "game Anna Bo Cyd Dee start 30000";
    let game = begins(&rt, "Anna Bo Cyd Dee", answer);
    same(&rt, game.rules, TableRules::club());
    same(&rt, game.names.find(b"Anna"), Some(Player::First));
    same(&rt, game.names.find(b"C"), Some(Player::Third));
    same(&rt, game.names.find(b"E"), None);
    begins(&rt, "  Anna Bo  Cyd Dee # a note x=y", answer);
    begins(&rt, "", "game 1 2 3 4 start 30000");
    begins(&rt, "Ä Ö Ü ß", "game Ä Ö Ü ß start 30000");
}

/// A whole name is its player's, also where another name begins so.
#[test]
fn beginnings_of_names(rt: HostRuntime) {
    let game = begins(&rt, "Anna Ann Bo Cyd", "game Anna Ann Bo Cyd start 30000");
    same(&rt, game.names.find(b"Ann"), Some(Player::Second));
    same(&rt, game.names.find(b"An"), None);
    same(&rt, game.names.find(b""), None);
    same(&rt, game.names.find(b"Annab"), None);
    same(&rt, game.names.get(Player::Fourth).as_str(), "Cyd");
}

#[test]
fn words_change_the_rules(rt: HostRuntime) {
    let words = "ron=all Anna Bo Cyd Dee table=league bust=on rules=2 session=3 at=12";
    let game = begins(&rt, words, "game Anna Bo Cyd Dee start 25000");
    let mut rules = TableRules::league();
    rules.ron = SeveralWinners::All;
    rules.bust = true;
    rules.hand = Rules::Two;
    same(&rt, game.rules, rules);
    same(&rt, game.session, Some(3));
    same(&rt, game.at, Some(12));
}

/// The rules for hands are the given ones where no word names them.
#[test]
fn given_rules(rt: HostRuntime) {
    let game = read_game(Rules::Two, b"table=league").expect(&rt, "a game");
    same(&rt, game.rules.hand, Rules::Two);
    let game = read_game(Rules::Two, b"rules=1").expect(&rt, "a game");
    same(&rt, game.rules.hand, Rules::One);
}

/// Every word, with a value other than its default.
#[test]
fn every_word(rt: HostRuntime) {
    let words = "start=25000 return=30000 uma=20,10,-10,-20 ties=seat ron=two counters=each \
                 sticks=own liable=off nagashi=on renchan=win length=east extra=30000 bust=on \
                 stop=on left=lost chombo=mangan";
    let game = begins(&rt, words, "game 1 2 3 4 start 25000");
    let rules = TableRules {
        counters: CountersTo::Each,
        sticks: SticksTo::Own,
        liable: false,
        renchan: Renchan::Win,
        length: LastRound::East,
        left: LeftSticks::Lost,
        chombo: ChomboCost::Mangan,
        ..TableRules::online()
    };
    same(&rt, game.rules, rules);
}

#[test]
fn lines_that_begin_no_game(rt: HostRuntime) {
    for &line in &[
        "Anna Bo",
        "Anna Bo Cyd",
        "Anna Bo Cyd Dee Eve",
        "Anna Bo Cyd Anna",
        "An,na Bo Cyd Dee",
        "Anna: Bo Cyd Dee",
        "AnnaAnnaAnnaAnnaAnnaAnnaAnnaAnnaA Bo Cyd Dee",
        "table=house",
        "ron=all ron=all",
        "session=1 session=2",
        "wind=on",
        "=on",
        "bust=yes",
        "start=",
        "start=25050",
        "start=0",
        "start=00030000",
        "start=30000 return=25000",
        "uma=15,5,-5",
        "uma=15,5,-5,-15,0",
        "uma=5,15,-5,-15",
        "rules=3",
    ] {
        holds(&rt, read_game(Rules::One, line.as_bytes()).is_none());
    }
    holds(&rt, read_game(Rules::One, b"\xff Bo Cyd Dee").is_none());
    holds(&rt, read_game(Rules::One, b"at=0").is_none());
    holds(&rt, MOST_BEGUN > 100);
}
