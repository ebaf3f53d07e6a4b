//! Lists of names, and the games of sessions as text.
use crate::facts::{holds, same};
use riichi_seats::Table;
use riichi_seats_text::{ListError, ListFault, read_names, seating_text, session_text};
use std::alloc::Global;
use std::process::Abort;
use std::test::Fail;

fn is_refused(rt: &impl Abort, alloc: Global, text: &[u8], fault: ListFault) {
    match read_names(alloc, text) {
        Ok(_) => holds(rt, false),
        Err(error) => holds(rt, error == ListError::Fault(fault)),
    }
}

#[test]
fn lists_of_names(rt: HostRuntime) -> Result<(), Fail> {
    let names = read_names(
        rt.alloc(),
        b"Anna\n# a note\n\n Bo  # late\r\nCyd\n\xc3\x84\n",
    )
    .map_err(|_| "names")?;
    same(&rt, names.len(), 4);
    same(&rt, names[0].as_str(), "Anna");
    same(&rt, names[1].as_str(), "Bo");
    same(&rt, names[2].as_str(), "Cyd");
    same(&rt, names[3].as_str(), "Ä");
    Ok(())
}

#[test]
fn texts_that_are_no_lists(rt: HostRuntime) {
    let alloc = rt.alloc();
    is_refused(&rt, alloc, b"", ListFault::NotFours(0));
    is_refused(&rt, alloc, b"A\nB\nC", ListFault::NotFours(3));
    is_refused(&rt, alloc, b"A\nB\nC\nD\nE", ListFault::NotFours(5));
    is_refused(&rt, alloc, b"A\nB\nC\nA\n", ListFault::Twice(4));
    is_refused(&rt, alloc, b"A\nB C\n", ListFault::NoName(2));
    is_refused(&rt, alloc, b"A\n\nB=C\n", ListFault::NoName(3));
    is_refused(&rt, alloc, b"A,B\n", ListFault::NoName(1));
    is_refused(&rt, alloc, b"\xff\n", ListFault::NoName(1));
    is_refused(
        &rt,
        alloc,
        b"a123456789b123456789c123456789d12\n",
        ListFault::NoName(1),
    );
}

/// One table in so many sessions, as text.
fn written(alloc: Global, words: &[u8], games: &[Table]) -> Result<Vec<u8>, Fail> {
    let names = read_names(alloc, b"Anna\nBo\nCyd\nDee\n").map_err(|_| "names")?;
    Ok(seating_text(alloc, names.as_slice(), 1, words, games)?)
}

const FIRST: Table = Table {
    east: 0,
    south: 1,
    west: 2,
    north: 3,
};

const SECOND: Table = Table {
    east: 3,
    south: 0,
    west: 1,
    north: 2,
};

#[test]
fn a_game_with_words(rt: HostRuntime) -> Result<(), Fail> {
    let wanted = "game Anna Bo Cyd Dee session=1 at=1 table=league
# no two meet twice
# seats Anna 1 0 0 0
# seats Bo 0 1 0 0
# seats Cyd 0 0 1 0
# seats Dee 0 0 0 1
";
    let text = written(rt.alloc(), b"table=league", [FIRST].as_slice())?;
    same(&rt, text.as_slice(), wanted.as_bytes());
    Ok(())
}

#[test]
fn games_with_notes(rt: HostRuntime) -> Result<(), Fail> {
    let wanted = "game Anna Bo Cyd Dee session=1 at=1
game Dee Anna Bo Cyd session=2 at=1
# Anna and Bo meet 2 times
# Anna and Cyd meet 2 times
# Anna and Dee meet 2 times
# Bo and Cyd meet 2 times
# Bo and Dee meet 2 times
# Cyd and Dee meet 2 times
# seats Anna 1 1 0 0
# seats Bo 0 1 1 0
# seats Cyd 0 0 1 1
# seats Dee 1 0 0 1
";
    let text = written(rt.alloc(), b"", [FIRST, SECOND].as_slice())?;
    same(&rt, text.as_slice(), wanted.as_bytes());
    Ok(())
}

#[test]
fn a_session_behind_others(rt: HostRuntime) -> Result<(), Fail> {
    let names = read_names(rt.alloc(), b"Anna\nBo\nCyd\nDee\n").map_err(|_| "names")?;
    let wanted = "game Dee Anna Bo Cyd session=4 at=1 table=club\n";
    let games = [SECOND];
    let text = session_text(
        rt.alloc(),
        names.as_slice(),
        1,
        b"table=club",
        3,
        games.as_slice(),
    )?;
    same(&rt, text.as_slice(), wanted.as_bytes());
    Ok(())
}
