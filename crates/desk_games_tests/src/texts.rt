//! Texts of games.
use crate::facts::{holds, same};
use desk_standings::{EndedGame, Trouble, Why, ended_games, judge_texts};
use riichi_hand::Rules;
use riichi_table::Player;
use std::alloc::Global;
use std::test::Fail;

const TEXT: &str = "# an evening
game Anna Bo Cyd Dee session=2 at=3
ron Bo from Cyd mangan
end
game Eli Fay Gus Hal
end
penalty Hal 1000
";

/// A letter for each reason that a text has.
fn letter_of(why: &Why) -> char {
    match why {
        Why::NoGame => 'n',
        Why::Refused => 'r',
        Why::Unfinished => 'u',
        Why::Memory => 'm',
        _ => '-',
    }
}

fn read(alloc: Global, text: &str) -> Result<Vec<EndedGame>, Trouble> {
    ended_games(alloc, Rules::One, text.as_bytes())
}

#[test]
fn games_that_are_over(rt: HostRuntime) {
    let games = read(rt.alloc(), TEXT).ok().expect(&rt, "games");
    holds(&rt, games.len() == 2);
    let (first, second) = (&games[0], &games[1]);
    same(&rt, (first.number, first.line), (1, 2));
    same(&rt, (first.session, first.table), (Some(2), Some(3)));
    same(&rt, first.names.get(Player::Second).as_str(), "Bo");
    same(&rt, first.finals.second.total, 23_000);
    same(&rt, first.finals.third.place, 4);
    same(&rt, (second.number, second.line), (2, 5));
    same(&rt, (second.session, second.table), (None, None));
    same(&rt, second.finals.fourth.total, -1_000);
}

#[test]
fn texts_side_by_side(rt: HostRuntime) -> Result<(), Fail> {
    let alloc = rt.alloc();
    let mut texts = Vec::new(alloc);
    for &text in &[TEXT, "draw\n", TEXT, ""] {
        let bytes = Vec::from_slice(alloc, text.as_bytes())?;
        holds(&rt, texts.push(bytes).is_ok());
    }
    let judged = judge_texts(&rt, alloc, Rules::One, texts.as_slice())?;
    same(&rt, judged.len(), 4);
    for (text, one) in texts.iter().zip(judged.iter()) {
        match (one, ended_games(alloc, Rules::One, text.as_slice())) {
            (Ok(games), Ok(alone)) => same(&rt, games.len(), alone.len()),
            (Err(trouble), Err(alone)) => {
                same(&rt, letter_of(&trouble.why), letter_of(&alone.why));
            }
            _ => holds(&rt, false),
        }
    }
    Ok(())
}

#[test]
fn refused_memory_is_told(rt: HostRuntime) {
    let told = match read(rt.alloc(), TEXT) {
        Ok(games) => games.len() == 2,
        Err(trouble) => letter_of(&trouble.why) == 'm',
    };
    holds(&rt, told);
}
