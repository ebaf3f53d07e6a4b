//! Games that a hall takes, or doesn't.
use crate::facts::{holds, holds_in, same};
use desk_standings::{Hall, StandingsFault, TieBreak, Trouble, Why, ended_games};
use riichi_hand::Rules;
use std::alloc::Global;

const FIRST: &str = "game Anna Bo Cyd Dee session=1 at=1
ron Bo from Cyd mangan
end
game Eli Fay Gus Hal session=1 at=2
end
";

/// Games that can't stand behind the first session: the word for why.
const OTHERS: [(&str, &str); 6] = [
    (
        "game Anna Eli Gus Cyd session=2 at=1 uma=20,10,-10,-20\nend\n",
        "uma",
    ),
    (
        "game Anna Eli Gus Cyd session=2 at=1 ties=seat\nend\n",
        "ties",
    ),
    (
        "game Anna Eli Gus Cyd session=2 at=1 stop=on\nend\n",
        "stop",
    ),
    ("game Anna Eli Gus Cyd\nend\n", "session"),
    ("game Ida Jon Kim Lea session=1 at=2\nend\n", "table"),
    ("game Ida Jon Kim Hal session=1 at=3\nend\n", "Hal"),
];

/// A word for each reason that a hall has.
fn is_word(why: &Why, word: &str) -> bool {
    match why {
        Why::OtherRules(rule) => rule.word() == word,
        Why::SessionUnsaid => word == "session",
        Why::TableTwice => word == "table",
        Why::PlayerTwice(name) => name.as_str() == word,
        _ => false,
    }
}

fn taken(alloc: Global, hall: &mut Hall, text: &str) -> Result<(), Trouble> {
    let games = ended_games(alloc, Rules::One, text.as_bytes())?;
    hall.take_games(games.as_slice())
}

#[test]
fn what_is_refused_changes_nothing(rt: HostRuntime) {
    let mut hall = Hall::new(rt.alloc());
    holds(&rt, taken(rt.alloc(), &mut hall, FIRST).is_ok());
    for &(text, word) in &OTHERS {
        match taken(rt.alloc(), &mut hall, text) {
            Ok(()) => holds_in(&rt, &text, false),
            Err(trouble) => {
                holds_in(&rt, &text, is_word(&trouble.why, word));
                holds_in(&rt, &text, trouble.game == 1 && trouble.line == 1);
            }
        }
        same(&rt, hall.tournament().results().len(), 8);
        same(&rt, hall.tournament().names().len(), 8);
    }
    let list = hall.standings(TieBreak::Shared).ok();
    let list = list.expect(&rt, "standings");
    holds(&rt, list.len() == 8);
    holds(&rt, list[0].player == 1 && list[0].tally.total == 23_000);
}

#[test]
fn a_session_with_fewer_games(rt: HostRuntime) {
    let mut hall = Hall::new(rt.alloc());
    holds(&rt, taken(rt.alloc(), &mut hall, FIRST).is_ok());
    let second = "game Anna Eli Gus Cyd session=2 at=1\nend\n";
    holds(&rt, taken(rt.alloc(), &mut hall, second).is_ok());
    let told = match hall.standings(TieBreak::Shared) {
        Err(fault) => fault == StandingsFault::FewerTables(2),
        Ok(_) => false,
    };
    holds(&rt, told);
}

#[test]
fn refused_memory_is_told(rt: HostRuntime) {
    let mut hall = Hall::new(rt.alloc());
    let told = match taken(rt.alloc(), &mut hall, FIRST) {
        Err(trouble) => matches!(trouble.why, Why::Memory),
        Ok(()) => match hall.standings(TieBreak::Best) {
            Err(fault) => fault == StandingsFault::Memory,
            Ok(list) => list.len() == 8,
        },
    };
    holds(&rt, told);
}
