//! The games of a text in memory, one after another.
ghost use Rattle.std.specs.Prelude.{◌≡◌, ◌⊎◌, ◌<◌, ◌≤◌, [], MatchOption, cond, false, length};
ghost use Rattle.desk_lines.specs.Filling.{IsFirstLine};
ghost use Rattle.desk_lines.specs.Telling.{is_refused};
ghost use Rattle.desk_games.specs.Laws.{is_begin};
ghost use Rattle.desk_games.specs.Playing.{BeginsGame, PlaysGame};
ghost use Rattle.desk_games.specs.Replies.{seen_in};

use crate::desk::GameDesk;
use crate::filling::answer_alone;
use crate::form::GamesForm;
use crate::games::Games;
use desk_lines::{LineKind, Outbox, next_line};
use riichi_game_text::{is_odd, next_said};
use riichi_hand::Rules;

/// What the lines of a text come to up to the next game of it.
#[derive(Drop)]
pub struct PlayedGame<'t> {
    /// The game behind these lines; no game where none of them begins one.
    pub desk: GameDesk,
    /// How many lines these are.
    pub lines: u64,
    /// How many of them were refused, those among them that were taken back.
    pub refused: u64,
    /// The number of the first refused line that wasn't taken back, counted from 1.
    pub refused_at: Option<u64>,
    /// The text behind these lines.
    pub rest: &'t [u8],
}

/// Plays the lines of a text up to the next game: the first line, and those behind it that begin no game; none where the text is empty.
/// The given rules are those for hands of a game that names none. It takes no memory.
pub fn play_game<'t>(given: Rules, text: &'t [u8]) -> Option<PlayedGame<'t>>
    ensures { MatchOption result (text.now ≡ [])
        (λ played. PlaysGame given text.now played.desk played.lines played.refused played.rest.now) }
{
    if text.is_empty() {
        return None;
    }
    Some(play_lines(given, text))
}

/// The same of a text that isn't empty.
fn play_lines<'t>(given: Rules, text: &'t [u8]) -> PlayedGame<'t>
    requires { 0 < length text.now }
    ensures { PlaysGame given text.now result.desk result.lines result.refused result.rest.now }
{
    let mut games = Games::new(given, false, GamesForm::Answers);
    let mut outbox = Outbox::new();
    let mut rest = text;
    let mut lines = 0;
    let mut refused = 0;
    let mut refused_at = None;
    while let Some((line, after)) = line_of_game(rest, lines) {
        let kind = answer_alone(&mut games, line, &mut outbox);
        lines += 1;
        refused += refusals_of(kind);
        refused_at = next_refused(refused_at, kind, lines);
        rest = after;
    }
    PlayedGame {
        desk: games.into_desk(),
        lines,
        refused,
        refused_at,
        rest,
    }
}

/// The next line of a game, of which so many lines have come, and what comes after it: none where the text is at its end, or where
/// the line begins another game.
fn line_of_game(text: &[u8], lines: u64) -> Option<(&[u8], &[u8])>
    ensures { MatchOption result ((text.now ≡ []) ⊎ ((0 < lines) × BeginsGame text.now))
        (λ cut. IsFirstLine text.now cut.0.now cut.1.now
        × (0 < lines → is_begin (seen_in cut.0.now) ≡ false)) }
{
    let (line, after) = next_line(text)?;
    if lines > 0 && begins_game(line) {
        return None;
    }
    Some((line, after))
}

/// Whether a line begins a game.
fn begins_game(line: &[u8]) -> bool
    ensures { result ≡ is_begin (seen_in line.now) }
{
    if is_odd(line) {
        return false;
    }
    match next_said(line) {
        None => false,
        Some((first, _)) => first == b"game".as_slice(),
    }
}

/// How many lines a line counts for as refused.
fn refusals_of(kind: LineKind) -> u64
    ensures value { result ≡ cond (is_refused kind) 1 0 }
    ensures most { result ≤ 1 }
{
    match kind {
        LineKind::Refused => 1,
        _ => 0,
    }
}

/// The first refused line that isn't taken back, once one more line is played: an answered line behind refused ones takes them back.
fn next_refused(so_far: Option<u64>, kind: LineKind, number: u64) -> Option<u64> {
    match kind {
        LineKind::Answered => None,
        LineKind::NoRecord => so_far,
        LineKind::Refused => match so_far {
            None => Some(number),
            Some(first) => Some(first),
        },
    }
}
