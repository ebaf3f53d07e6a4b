//! The games of a text that are over.
ghost use Rattle.std.specs.Prelude.{◌≡◌, ◌<◌, ◌∷◌, ◌++◌, [], IfOk, IfErr, OnOk, MatchOption, MatchResult, length};
ghost use Rattle.desk_games.specs.Playing.{PlaysGame};
ghost use Rattle.riichi_game_text.specs.GameLines.{said_by};
ghost use Rattle.desk_standings.specs.Ended as spec;
ghost use Rattle.desk_standings.specs.declared.trouble.Why.TheVariants.{Memory};

use crate::place::Place;
use crate::trouble::{Trouble, Why};
use desk_games::{GameAtHand, GameDesk, PlayedGame, play_game};
use desk_lines::next_line;
use riichi_game_text::{GameLine, Names, next_said, read_game};
use riichi_hand::Rules;
use riichi_places::{FinalPoints, final_points};
use riichi_table::{ByPlayer, TableRules};
use std::alloc::Global;

/// A game that is over, with what counts of it in a tournament.
#[derive(Clone, Copy, Drop)]
pub struct EndedGame {
    /// The number of the game in its text, counted from 1.
    pub number: u64,
    /// The number of its first line in its text, counted from 1.
    pub line: u64,
    pub names: Names,
    pub rules: TableRules,
    /// The session, where the game says it.
    pub session: Option<u32>,
    /// The table, where the game says it.
    pub table: Option<u32>,
    /// What each player has at the end.
    pub finals: ByPlayer<FinalPoints>,
}

/// The games of a text, one after another: each has to be over, without a refused line, and there has to be one. The given rules are
/// those for hands of games that name none.
#[tactic(auto, using(crate::proofs::EndedLemmas::trouble_or_want, crate::proofs::EndedLemmas::all_ended))]
pub fn ended_games(alloc: Global, given: Rules, text: &[u8]) -> Result<Vec<EndedGame>, Trouble>
    ensures { spec.IsJudged given text.now result }
{
    let mut games = Vec::new(alloc);
    let mut place = Place::first();
    let mut rest = text;
    while let Some(played) = play_game(given, rest) {
        take_played(&mut games, given, place, rest, &played)?;
        place = place.behind(&played);
        rest = played.rest;
    }
    if games.is_empty() {
        return Err(place.no_game());
    }
    Ok(games)
}

/// With the game of some lines, where they are none of a game nothing.
fn take_played(
    games: &mut Vec<EndedGame>,
    given: Rules,
    place: Place,
    text: &[u8],
    played: &PlayedGame<'_>,
) -> Result<(), Trouble>
    requires { PlaysGame given text.now played.now.desk played.now.lines played.now.refused
        played.now.rest.now }
    ensures ok { OnOk result (spec.IsNext given text.now played.now.rest.now
        games.old.items games.new.items) }
    ensures err { IfErr result (λ trouble.
        spec.IsFaultOrWant given text.now played.now.desk played.now.refused trouble.why) }
{
    match ended_game(given, place, text, played) {
        Err(why) => Err(place.trouble(played, why)),
        Ok(None) => Ok(()),
        Ok(Some(game)) => push_game(games, place, game),
    }
}

/// With one game more.
fn push_game(games: &mut Vec<EndedGame>, place: Place, game: EndedGame) -> Result<(), Trouble>
    ensures ok { OnOk result (games.new.items ≡ games.old.items ++ game ∷ []) }
    ensures err { IfErr result (λ trouble. trouble.why ≡ Memory) }
{
    match games.push(game) {
        Ok(()) => Ok(()),
        Err(_) => Err(place.no_memory()),
    }
}

/// The game of some lines, which begin at a place; none where they are empty or notes.
fn ended_game(
    given: Rules,
    place: Place,
    text: &[u8],
    played: &PlayedGame<'_>,
) -> Result<Option<EndedGame>, Why>
    requires { PlaysGame given text.now played.now.desk played.now.lines played.now.refused
        played.now.rest.now }
    ensures { MatchResult result
        (λ found. MatchOption found (spec.SkipsLines given text.now played.now.rest.now)
        (λ game. spec.EndsGame given text.now game played.now.rest.now))
        (λ why. spec.IsFaultOf given text.now played.now.desk played.now.refused why) }
{
    match &played.desk {
        GameDesk::NoGame => {
            if played.refused > 0 {
                return Err(Why::Refused);
            }
            Ok(None)
        }
        GameDesk::Refused => Err(Why::Refused),
        GameDesk::Game(game) => match ended_at(given, place, text, game) {
            Ok(ended) => Ok(Some(ended)),
            Err(why) => Err(why),
        },
    }
}

/// A game whose lines begin at a place, where it is over and no line of it was refused.
fn ended_at(given: Rules, place: Place, text: &[u8], game: &GameAtHand) -> Result<EndedGame, Why>
    requires { 0 < length text.now }
    ensures { MatchResult result (λ ended. spec.IsOver given text.now game.now ended)
        (λ why. spec.IsFaultOfGame given text.now game.now why) }
{
    if game.is_held() {
        return Err(Why::Refused);
    }
    let Some(said) = line_said(given, text) else {
        return Err(Why::Refused);
    };
    if !game.progress().is_over {
        return Err(Why::Unfinished);
    }
    Ok(game_at(place, game, &said))
}

/// A game that is over, and what its line says.
fn game_at(place: Place, game: &GameAtHand, said: &GameLine) -> EndedGame
    ensures { spec.IsEndOf game.now (said_by said.now) result }
{
    let (rules, progress) = (game.rules(), game.progress());
    EndedGame {
        number: place.game_number(),
        line: place.line_number(),
        names: game.names(),
        rules,
        session: said.session,
        table: said.at,
        finals: final_points(&rules, &progress.state, &progress.penalties),
    }
}

/// What the first line of a text says, where it begins a game.
fn line_said(given: Rules, text: &[u8]) -> Option<GameLine>
    requires { 0 < length text.now }
    ensures { MatchOption result (spec.SaysNoGame given text.now)
        (λ said. spec.SaysGame given text.now (said_by said)) }
{
    let (line, _) = next_line(text)?;
    let (first, words) = next_said(line)?;
    if first != b"game".as_slice() {
        return None;
    }
    read_game(given, words)
}
