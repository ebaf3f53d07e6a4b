//! A small tournament, by its results.
use crate::facts::holds;
use riichi_standings::{Standing, StandingsFault, TieBreak, Tournament, thin_session};
use riichi_standings_text::standings_text;
use std::alloc::Global;
use std::process::Abort;

const RESULTS: [(&str, u32, u8, i32); 5] = [
    ("Bo", 1, 1, 5_000),
    ("Anna", 1, 2, -5_000),
    ("Bo", 2, 3, -12_000),
    ("Anna", 2, 1, -2_000),
    ("Cyd", 2, 2, 14_000),
];

const WORDS: &str = "place 1 Cyd total +14.0 games 1 sessions - +14.0
place 2 Anna total -7.0 games 2 sessions -5.0 -2.0
place 2 Bo total -7.0 games 2 sessions +5.0 -12.0
";

fn tournament(alloc: Global) -> Result<Tournament, StandingsFault> {
    let mut tournament = Tournament::new(alloc);
    for &(name, session, place, points) in &RESULTS {
        tournament.take_seat(name, Some(session), place, points)?;
    }
    Ok(tournament)
}

/// The tournament, where there is memory.
fn begun(rt: &impl Abort, alloc: Global) -> Tournament {
    tournament(alloc).ok().expect(rt, "a tournament")
}

/// How it stands, where there is memory.
fn stands(rt: &impl Abort, tournament: &Tournament, by: TieBreak) -> Vec<Standing> {
    tournament.standings(by).ok().expect(rt, "standings")
}

#[test]
fn what_parts_equal_totals(rt: HostRuntime) {
    let tournament = begun(&rt, rt.alloc());
    let firsts = stands(&rt, &tournament, TieBreak::Firsts);
    holds(&rt, firsts.len() == 3);
    holds(&rt, firsts[1].place == 2 && firsts[2].place == 2);
    let best = stands(&rt, &tournament, TieBreak::Best);
    holds(&rt, best.len() == 3);
    holds(&rt, best[1].place == 2 && best[1].player == 0);
    holds(&rt, best[2].place == 3 && best[2].player == 1);
}

#[test]
fn a_table_once_in_a_session(rt: HostRuntime) {
    let mut tournament = begun(&rt, rt.alloc());
    let taken = tournament.take_table(Some(3), Some(1));
    holds(
        &rt,
        taken == Ok(()) && tournament.has_table(Some(3), Some(1)),
    );
    let again = tournament.take_table(Some(3), Some(1));
    holds(&rt, again == Err(StandingsFault::TableTwice));
    let unsaid = tournament.take_table(None, Some(1));
    holds(&rt, unsaid == Err(StandingsFault::SessionUnsaid));
}

#[test]
fn a_player_once_in_a_session(rt: HostRuntime) {
    let mut tournament = begun(&rt, rt.alloc());
    let again = tournament.take_seat("Bo", Some(2), 1, 0);
    holds(&rt, again == Err(StandingsFault::PlayerTwice));
    let played = tournament.has_played("Bo", Some(2)) && !tournament.has_played("Bo", Some(3));
    holds(&rt, played && !tournament.has_played("Dee", Some(2)));
}

#[test]
fn a_session_of_fewer(rt: HostRuntime) {
    let mut tournament = begun(&rt, rt.alloc());
    holds(&rt, thin_session(tournament.results()).is_none());
    holds(&rt, tournament.take_seat("Bo", Some(3), 1, 0) == Ok(()));
    holds(&rt, thin_session(tournament.results()) == Some(3));
}

#[test]
fn refused_memory_is_told(rt: HostRuntime) {
    let told = match tournament(rt.alloc()) {
        Err(fault) => fault == StandingsFault::Memory,
        Ok(tournament) => match tournament.standings(TieBreak::Shared) {
            Err(fault) => fault == StandingsFault::Memory,
            Ok(list) => match standings_text(rt.alloc(), &tournament, list.as_slice()) {
                Err(_) => true,
                Ok(words) => words.as_str() == WORDS,
            },
        },
    };
    holds(&rt, told);
}
